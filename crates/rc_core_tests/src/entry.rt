//! Bytes from outside: what the preps of liburing 2.3 wrote, and a completion as the kernel posts it.

use rc_entry::{Cqe, Entry, EntryFault, decode_cqe, decode_sqe, encode_cqe, encode_sqe};
use std::alloc::AllocError;

// Writes the bytes that pairs of hexadecimal digits give; what is not one (a space) is passed over.
fn write_hex(bytes: &mut [u8], text: &str) {
    let mut high = None;
    let mut place = 0;
    for digit in text.bytes() {
        let digit = match digit {
            b'0'..=b'9' => digit - b'0',
            b'a'..=b'f' => digit - b'a' + 10,
            _ => continue,
        };
        match high {
            None => high = Some(digit),
            Some(above) if place < bytes.len() => {
                bytes[place] = above << 4 | digit;
                place += 1;
                high = None;
            }
            Some(_) => {}
        }
    }
}

// The 64 bytes that begin with these; the others are 0.
fn sqe_of(text: &str) -> [u8; 64] {
    let mut bytes = [0; 64];
    write_hex(&mut bytes, text);
    bytes
}

// The 16 bytes that begin with these; the others are 0.
fn cqe_of(text: &str) -> [u8; 16] {
    let mut bytes = [0; 16];
    write_hex(&mut bytes, text);
    bytes
}

#[test]
fn entries_are_the_bytes_of_liburing(rt: HostRuntime) {
    let all = u64::MAX;
    for (entry, text) in [
        (
            Entry::Read {
                fd: 3,
                addr: 4096,
                len: 16,
                off: 0,
                user_data: 7,
            },
            "16000000 03000000 0000000000000000 0010000000000000 10000000 00000000 0700000000000000",
        ),
        (
            Entry::Fsync {
                fd: 3,
                datasync: true,
                user_data: 8,
            },
            "03000000 03000000 0000000000000000 0000000000000000 00000000 01000000 0800000000000000",
        ),
        (
            Entry::Nop { user_data: 7 },
            "00000000 ffffffff 0000000000000000 0000000000000000 00000000 00000000 0700000000000000",
        ),
        (
            Entry::Write {
                fd: -1,
                addr: 16384,
                len: 4096,
                off: 1048576,
                user_data: all,
            },
            "17000000 ffffffff 0000100000000000 0040000000000000 00100000 00000000 ffffffffffffffff",
        ),
        (
            Entry::Write {
                fd: 2147483647,
                addr: all,
                len: u32::MAX,
                off: all,
                user_data: 0,
            },
            "17000000 ffffff7f ffffffffffffffff ffffffffffffffff ffffffff 00000000 0000000000000000",
        ),
        (
            Entry::Read {
                fd: -2147483648,
                addr: 0,
                len: 0,
                off: 1,
                user_data: 4294967296,
            },
            "16000000 00000080 0100000000000000 0000000000000000 00000000 00000000 0000000001000000",
        ),
        (
            Entry::Fsync {
                fd: 1023,
                datasync: false,
                user_data: 1,
            },
            "03000000 ff030000 0000000000000000 0000000000000000 00000000 00000000 0100000000000000",
        ),
        (
            Entry::Nop { user_data: 255 },
            "00000000 ffffffff 0000000000000000 0000000000000000 00000000 00000000 ff00000000000000",
        ),
    ] {
        let bytes = sqe_of(text);
        assert_eq!(rt; encode_sqe(&entry), bytes, "{text}");
        assert_eq!(rt; decode_sqe(&bytes), Ok(entry), "{text}");
    }
}

#[test]
fn other_bytes_are_refused_by_the_least_fault(rt: HostRuntime) {
    for (text, last, fault) in [
        // the read of fd 3 with byte 63 set
        (
            "16000000 03000000 0000000000000000 0010000000000000 10000000 00000000 0700000000000000",
            1,
            EntryFault::NonZeroField,
        ),
        // a nop with byte 63 set, and that with opcode 5
        (
            "00000000 ffffffff 0000000000000000 0000000000000000 00000000 00000000 0700000000000000",
            1,
            EntryFault::NonZeroField,
        ),
        (
            "05000000 ffffffff 0000000000000000 0000000000000000 00000000 00000000 0700000000000000",
            1,
            EntryFault::UnknownOpcode,
        ),
        // a nop whose fd is 0, and that with byte 63 set
        (
            "00000000 00000000 0000000000000000 0000000000000000 00000000 00000000 0700000000000000",
            0,
            EntryFault::NopFd,
        ),
        (
            "00000000 00000000 0000000000000000 0000000000000000 00000000 00000000 0700000000000000",
            1,
            EntryFault::NonZeroField,
        ),
        // an fsync with flags 2
        (
            "03000000 03000000 0000000000000000 0000000000000000 00000000 02000000 0800000000000000",
            0,
            EntryFault::FsyncFlags,
        ),
    ] {
        let mut bytes = sqe_of(text);
        bytes[63] = last;
        assert_eq!(rt; decode_sqe(&bytes), Err(fault), "{text}");
    }
}

#[test]
fn a_completion_is_the_bytes_of_the_kernel(rt: HostRuntime) {
    let cqe = Cqe {
        user_data: 7,
        res: -5,
    };
    let bytes = cqe_of("0700000000000000 fbffffff 00000000");
    assert_eq!(rt; encode_cqe(&cqe), bytes);
    assert_eq!(rt; decode_cqe(&bytes), Ok(cqe));
    let with_flags = cqe_of("0700000000000000 fbffffff 01000000");
    assert_eq!(rt; decode_cqe(&with_flags), Err(EntryFault::CompletionFlags));
}

#[test]
fn faults_of_entries_have_their_codes(rt: HostRuntime) -> Result<(), AllocError> {
    for (fault, text) in [
        (EntryFault::UnknownOpcode, "E1 UnknownOpcode"),
        (EntryFault::NonZeroField, "E2 NonZeroField"),
        (EntryFault::NopFd, "E3 NopFd"),
        (EntryFault::FsyncFlags, "E4 FsyncFlags"),
        (EntryFault::CompletionFlags, "E5 CompletionFlags"),
    ] {
        let printed = format!(in rt.alloc(); "{fault}")?;
        assert_eq!(rt; printed.as_str(), text);
    }
    Ok(())
}
