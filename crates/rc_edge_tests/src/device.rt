//! Requests that a disk answers, and numbers that are chosen.

ghost use Rattle.std.specs.Prelude.{◌<◌};

use rc_device::chooser::{Chooser, Listed, Seeded};
use rc_device::device::Device;
use rc_device::disk::Disk;
use rc_lang::request::{Kind, Request};
use rc_read::read_program;
use std::alloc::Global;
use std::process::Abort;
use std::test::Fail;

// A new disk with a file 3 of `len` bytes.
fn disk(alloc: Global, len: u32) -> Result<Disk, Fail> {
    let text = format!(in alloc; "ringcheck 1\nring 1\nfile 3 {len}\n")?;
    let program = read_program(alloc, text.as_bytes())?;
    Ok(Disk::new(alloc, &program)?)
}

fn request(kind: Kind, fd: i32, off: u64, len: u32) -> Request {
    Request {
        serial: 1,
        kind,
        fd,
        buffer: 0,
        len,
        off,
        user_data: 9,
    }
}

// Serves a request by any device that threads can share.
fn serve<D: Device + Send>(
    rt: &impl Abort,
    device: &mut D,
    request: Request,
    bytes: &mut [u8],
    grant: i32,
) -> i32 {
    assert!(rt; request.len as usize <= bytes.len() && -4095 <= grant && grant <= 4096);
    device.serve(&request, bytes, grant)
}

// How many of the bytes are `byte`.
fn count(bytes: &[u8], byte: u8) -> usize {
    let mut found: usize = 0;
    for b in bytes {
        if *b == byte {
            found = found.saturating_add(1);
        }
    }
    found
}

// How long the file is, a request with its grant, and its result. 16 bytes 7 are served on a new disk. Of them: how many
// are 0 afterwards, and how many are 7. Of the file: how many bytes it has afterwards, how many are 0, and how many are 7.
type Served = (u32, Asked, i32, i32, [usize; 2], [usize; 3]);

// What a request asks for: its kind, its file, its place and its length.
type Asked = (Kind, i32, u64, u32);

const SERVED: [Served; 20] = [
    (64, (Kind::Read, 3, 60, 16), 16, 4, [4, 12], [64, 64, 0]),
    (64, (Kind::Read, 3, 64, 16), 16, 0, [0, 16], [64, 64, 0]),
    (64, (Kind::Read, 3, 0, 16), 5, 5, [5, 11], [64, 64, 0]),
    (
        64,
        (Kind::Read, 3, u64::MAX, 16),
        16,
        0,
        [0, 16],
        [64, 64, 0],
    ),
    (4, (Kind::Write, 3, 8, 2), 2, 2, [0, 16], [10, 8, 2]),
    (
        4,
        (Kind::Write, 3, 65530, 16),
        16,
        6,
        [0, 16],
        [65536, 65530, 6],
    ),
    (4, (Kind::Write, 3, 65536, 1), 0, -28, [0, 16], [4, 4, 0]),
    (4, (Kind::Write, 3, 70000, 0), 5, 0, [0, 16], [4, 4, 0]),
    (4, (Kind::Write, 3, 100, 16), 0, 0, [0, 16], [4, 4, 0]),
    (4, (Kind::Write, 3, 0, 4), -5, -5, [0, 16], [4, 4, 0]),
    (4, (Kind::Read, 3, 0, 4), -5, -5, [0, 16], [4, 4, 0]),
    (4, (Kind::Read, 9, 0, 4), 4, -9, [0, 16], [4, 4, 0]),
    (4, (Kind::Write, 9, 0, 4), 4, -9, [0, 16], [4, 4, 0]),
    (4, (Kind::Fsync, 9, 0, 0), 0, -9, [0, 16], [4, 4, 0]),
    (4, (Kind::Fsync, 3, 0, 0), 0, 0, [0, 16], [4, 4, 0]),
    (4, (Kind::Nop, -1, 0, 0), 0, 0, [0, 16], [4, 4, 0]),
    (4, (Kind::Nop, -1, 0, 0), -5, -5, [0, 16], [4, 4, 0]),
    (4, (Kind::Other, -1, 0, 0), 0, 0, [0, 16], [4, 4, 0]),
    (4, (Kind::Other, -1, 0, 0), 4096, 4096, [0, 16], [4, 4, 0]),
    (4, (Kind::Other, -1, 0, 0), -4095, -4095, [0, 16], [4, 4, 0]),
];

#[test]
fn requests_move_what_their_kind_and_grant_say(rt: HostRuntime) -> Result<(), Fail> {
    for (len, asked, grant, answer, moved, file) in SERVED {
        let mut disk = disk(rt.alloc(), len)?;
        let mut bytes = [7; 16];
        let (kind, fd, off, length) = asked;
        let asked = request(kind, fd, off, length);
        assert_eq!(rt; serve(&rt, &mut disk, asked, &mut bytes, grant), answer);
        assert_eq!(rt; [count(&bytes, 0), count(&bytes, 7)], moved);
        let content = disk.contents(3);
        assert_eq!(rt; [content.len(), count(content, 0), count(content, 7)], file);
    }
    Ok(())
}

#[test]
fn a_read_gives_what_was_written(rt: HostRuntime) -> Result<(), Fail> {
    let mut disk = disk(rt.alloc(), 4)?;
    let mut bytes = [1, 2, 3];
    assert_eq!(rt;
        serve(
            &rt,
            &mut disk,
            request(Kind::Write, 3, 2, 3),
            &mut bytes,
            4096
        ),
        3
    );
    assert_eq!(rt; disk.contents(3), [0, 0, 1, 2, 3].as_slice());
    assert_eq!(rt; disk.contents(4), [].as_slice());
    let mut bytes = [7; 4];
    assert_eq!(rt;
        serve(
            &rt,
            &mut disk,
            request(Kind::Read, 3, 3, 4),
            &mut bytes,
            4096
        ),
        2
    );
    assert_eq!(rt; bytes.as_slice(), [2, 3, 7, 7].as_slice());
    Ok(())
}

// Three choices of any chooser that threads can share.
fn choices<C: Chooser + Send>(mut chooser: C, n: u32) -> [u32; 3]
where
    C: Drop,
    requires { 0 < n }
{
    [chooser.pick(n), chooser.pick(n), chooser.pick(n)]
}

#[test]
fn a_list_is_chosen_from_in_order(rt: HostRuntime) -> Result<(), Fail> {
    let listed = Listed::new(Vec::from_array(rt.alloc(), [7, 2])?);
    assert_eq!(rt; choices(listed, 4), [3, 2, 0]);
    Ok(())
}

// The first words of the generator with seed 0 are 298703107 and 4236525527: the tests of Rust's `rand_pcg` have both as
// one number, 18195738587432868099.
#[test]
fn a_seed_gives_the_words_of_its_generator(rt: HostRuntime) {
    assert_eq!(rt; choices(Seeded::new(0), 1), [0, 0, 0]);
    let mut seeded = Seeded::new(0);
    assert_eq!(rt; [seeded.pick(1000), seeded.pick(1000)], [107, 527]);
}
