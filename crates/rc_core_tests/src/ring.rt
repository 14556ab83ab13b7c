//! Fillings and drainings of small rings, and entries as the preps of liburing 2.3 wrote them.

ghost use Rattle.std.specs.Prelude.{◌≡◌, ◌<◌, ◌^◌, false, Some};
ghost use Rattle.rc_ring.specs.Rings.{NoSlot, VacantSlot, open_place};

use rc_entry::Cqe;
use rc_ring::{Overflow, Ring, Slot, Vacant};
use std::process::Abort;
use std::test::Fail;

// The next slot of a ring that has room.
fn slot_of(rt: &impl Abort, ring: &mut Ring) -> Slot<Vacant>
    requires { ring.old.slot ≡ NoSlot }
    ensures slot { ring.new.slot ≡ VacantSlot }
    ensures out { ring.new.parked ≡ false }
    ensures place { open_place ring.new ≡ Some result }
{
    match ring.get_sqe() {
        None => panic!(rt; "the ring is full"),
        Some(slot) => slot,
    }
}

// Queues four nops on a ring of 4, with user_data from `first` on, and submits them.
fn submit_four(rt: &impl Abort, ring: &mut Ring, first: u64)
    requires closed { ring.old.slot ≡ NoSlot }
    requires small { first < 2 ^ 32 }
    ensures { ring.new.slot ≡ NoSlot }
{
    for user_data in first..first + 4 {
        slot_of(rt, ring).prep_nop(ring).set_data64(ring, user_data);
    }
    assert_eq!(rt; ring.sq_ready(), 4);
    assert_eq!(rt; ring.sq_space_left(), 0);
    if let Some(slot) = ring.get_sqe() {
        slot.abandon(ring);
        panic!(rt; "a slot of a full ring");
    }
    assert_eq!(rt; ring.submit(4), 0);
}

// Queues and submits eight nops on a ring of 4, and drains their completions.
fn fill_and_drain(rt: &impl Abort, ring: &mut Ring)
    requires { ring.old.slot ≡ NoSlot }
{
    submit_four(rt, ring, 1);
    submit_four(rt, ring, 5);
    for user_data in (1..9).rev() {
        assert_eq!(rt; ring.post(Cqe { user_data, res: 0 }), Ok(()));
    }
    let ninth = Cqe {
        user_data: 9,
        res: 0,
    };
    assert_eq!(rt; ring.post(ninth), Err(Overflow));
    for user_data in (1..9).rev() {
        assert_eq!(rt; ring.peek_cqe(), Some(Cqe { user_data, res: 0 }));
        ring.cqe_seen();
    }
    assert_eq!(rt; ring.peek_cqe(), None);
}

#[test]
fn counters_that_wrap_answer_the_same(rt: HostRuntime) -> Result<(), Fail> {
    let mut ring = Ring::opened_at(rt.alloc(), 4, 4294967293, 4294967293)?;
    fill_and_drain(&rt, &mut ring);
    Ok(())
}

// The queued entry of a ring of 1 is these bytes, and zeros; then it is submitted.
fn takes(rt: &impl Abort, ring: &mut Ring, front: [u8; 40])
    requires { ring.old.slot ≡ NoSlot }
    ensures { ring.new.slot ≡ NoSlot }
{
    let mut bytes = [0; 64];
    bytes[..40].copy_from_slice(&front);
    assert_eq!(rt; ring.queued_sqe(0), Some(&bytes));
    assert_eq!(rt; ring.queued_sqe(1), None);
    assert_eq!(rt; ring.sq_ready(), 1);
    assert_eq!(rt; ring.submit(1), 0);
}

#[test]
fn writes_are_as_liburing_writes_them(rt: HostRuntime) -> Result<(), Fail> {
    let mut ring = Ring::new(rt.alloc(), 1)?;
    slot_of(&rt, &mut ring)
        .prep_write(&mut ring, i32::MAX, u64::MAX, u32::MAX, u64::MAX)
        .set_data64(&mut ring, 0);
    takes(
        &rt,
        &mut ring,
        [
            0x17, 0, 0, 0, 0xff, 0xff, 0xff, 0x7f, 0xff, 0xff, 0xff, 0xff, 0xff, 0xff, 0xff, 0xff,
            0xff, 0xff, 0xff, 0xff, 0xff, 0xff, 0xff, 0xff, 0xff, 0xff, 0xff, 0xff, 0, 0, 0, 0, 0,
            0, 0, 0, 0, 0, 0, 0,
        ],
    );
    slot_of(&rt, &mut ring)
        .prep_write(&mut ring, -1, 16384, 4096, 1048576)
        .set_data64(&mut ring, u64::MAX);
    takes(
        &rt,
        &mut ring,
        [
            0x17, 0, 0, 0, 0xff, 0xff, 0xff, 0xff, 0, 0, 0x10, 0, 0, 0, 0, 0, 0, 0x40, 0, 0, 0, 0,
            0, 0, 0, 0x10, 0, 0, 0, 0, 0, 0, 0xff, 0xff, 0xff, 0xff, 0xff, 0xff, 0xff, 0xff,
        ],
    );
    Ok(())
}

#[test]
fn reads_are_as_liburing_writes_them(rt: HostRuntime) -> Result<(), Fail> {
    let mut ring = Ring::new(rt.alloc(), 1)?;
    slot_of(&rt, &mut ring)
        .prep_write(&mut ring, i32::MAX, u64::MAX, u32::MAX, u64::MAX)
        .abandon(&mut ring);
    slot_of(&rt, &mut ring)
        .prep_read(&mut ring, i32::MIN, 0, 0, 1)
        .set_data64(&mut ring, 4294967296);
    takes(
        &rt,
        &mut ring,
        [
            0x16, 0, 0, 0, 0, 0, 0, 0x80, 1, 0, 0, 0, 0, 0, 0, 0, 0, 0, 0, 0, 0, 0, 0, 0, 0, 0, 0,
            0, 0, 0, 0, 0, 0, 0, 0, 0, 1, 0, 0, 0,
        ],
    );
    slot_of(&rt, &mut ring)
        .prep_read(&mut ring, 3, 4096, 16, 0)
        .set_data64(&mut ring, 7);
    takes(
        &rt,
        &mut ring,
        [
            0x16, 0, 0, 0, 3, 0, 0, 0, 0, 0, 0, 0, 0, 0, 0, 0, 0, 0x10, 0, 0, 0, 0, 0, 0, 0x10, 0,
            0, 0, 0, 0, 0, 0, 7, 0, 0, 0, 0, 0, 0, 0,
        ],
    );
    Ok(())
}

#[test]
fn fsyncs_and_nops_are_as_liburing_writes_them(rt: HostRuntime) -> Result<(), Fail> {
    let mut ring = Ring::new(rt.alloc(), 1)?;
    slot_of(&rt, &mut ring)
        .prep_write(&mut ring, i32::MAX, u64::MAX, u32::MAX, u64::MAX)
        .abandon(&mut ring);
    slot_of(&rt, &mut ring)
        .prep_fsync(&mut ring, 1023, false)
        .set_data64(&mut ring, 1);
    takes(
        &rt,
        &mut ring,
        [
            3, 0, 0, 0, 0xff, 3, 0, 0, 0, 0, 0, 0, 0, 0, 0, 0, 0, 0, 0, 0, 0, 0, 0, 0, 0, 0, 0, 0,
            0, 0, 0, 0, 1, 0, 0, 0, 0, 0, 0, 0,
        ],
    );
    slot_of(&rt, &mut ring)
        .prep_fsync(&mut ring, 3, true)
        .set_data64(&mut ring, 8);
    takes(
        &rt,
        &mut ring,
        [
            3, 0, 0, 0, 3, 0, 0, 0, 0, 0, 0, 0, 0, 0, 0, 0, 0, 0, 0, 0, 0, 0, 0, 0, 0, 0, 0, 0, 1,
            0, 0, 0, 8, 0, 0, 0, 0, 0, 0, 0,
        ],
    );
    slot_of(&rt, &mut ring)
        .prep_nop(&mut ring)
        .set_data64(&mut ring, 255);
    takes(
        &rt,
        &mut ring,
        [
            0, 0, 0, 0, 0xff, 0xff, 0xff, 0xff, 0, 0, 0, 0, 0, 0, 0, 0, 0, 0, 0, 0, 0, 0, 0, 0, 0,
            0, 0, 0, 0, 0, 0, 0, 0xff, 0, 0, 0, 0, 0, 0, 0,
        ],
    );
    Ok(())
}
