//! Sums of bytes, by which lines and logs are told apart.

/// The sum of no lines.
pub const NO_SUM: u64 = 0xcbf2_9ce4_8422_2325;

/// Adds the bytes of a line to a sum (FNV-1a).
pub fn summed(sum: u64, line: &[u8]) -> u64 {
    let mut sum = sum;
    for byte in line {
        sum = (sum ^ u64::from(*byte)).wrapping_mul(0x0000_0100_0000_01b3);
    }
    (sum ^ 10).wrapping_mul(0x0000_0100_0000_01b3)
}

/// Whether two lines are the same.
pub fn is_same(one: &[u8], other: &[u8]) -> bool {
    if one.len() != other.len() {
        return false;
    }
    for i in 0..one.len() {
        if one[i] != other[i] {
            return false;
        }
    }
    true
}
