//! Numbers in bytes, the lowest byte first.

ghost use Rattle.std.specs.Prelude.{◌≡◌, ◌+◌, ◌≤◌, length};
ghost use Rattle.std.specs.Int.{w32, cast_unsigned};
ghost use Rattle.rc_entry.specs.Fields.{with_u32, with_u64};
ghost use Rattle.rc_entry.specs.Spelling.{u32_at, u64_at, i32_at};

use byteorder::{ByteOrder, LittleEndian};

// The number in the four bytes from a place.
pub(crate) fn read_u32(bytes: &[u8], place: usize) -> u32
    requires { place + 4 ≤ length bytes.now }
    ensures { result ≡ u32_at place bytes.now }
{
    LittleEndian::read_u32(&bytes[place..place + 4])
}

// The number in the eight bytes from a place.
pub(crate) fn read_u64(bytes: &[u8], place: usize) -> u64
    requires { place + 8 ≤ length bytes.now }
    ensures { result ≡ u64_at place bytes.now }
{
    LittleEndian::read_u64(&bytes[place..place + 8])
}

// The signed number in the four bytes from a place.
pub(crate) fn read_i32(bytes: &[u8], place: usize) -> i32
    requires { place + 4 ≤ length bytes.now }
    ensures { result ≡ i32_at place bytes.now }
{
    LittleEndian::read_i32(&bytes[place..place + 4])
}

// Writes a number into the four bytes from a place.
pub(crate) fn write_u32(bytes: &mut [u8], place: usize, number: u32)
    requires { place + 4 ≤ length bytes.old }
    ensures { bytes.new ≡ with_u32 place number bytes.old }
{
    LittleEndian::write_u32(&mut bytes[place..place + 4], number);
}

// Writes a number into the eight bytes from a place.
pub(crate) fn write_u64(bytes: &mut [u8], place: usize, number: u64)
    requires { place + 8 ≤ length bytes.old }
    ensures { bytes.new ≡ with_u64 place number bytes.old }
{
    LittleEndian::write_u64(&mut bytes[place..place + 8], number);
}

// Writes a signed number into the four bytes from a place.
pub(crate) fn write_i32(bytes: &mut [u8], place: usize, number: i32)
    requires { place + 4 ≤ length bytes.old }
    ensures { bytes.new ≡ with_u32 place (cast_unsigned w32 number) bytes.old }
{
    LittleEndian::write_i32(&mut bytes[place..place + 4], number);
}
