//! Completion entries as bytes.

ghost use Rattle.std.specs.Prelude.{◌≡◌, ◌↔◌};
ghost use Rattle.rc_entry.specs.Spelling.{SpellsCqe, IsFaultOfCqe, IsLeastFault};
ghost use Rattle.rc_entry.specs.declared.Cqe.{Cqe};
ghost use Rattle.rc_entry.specs.declared.EntryFault.{EntryFault};

use crate::numbers::{read_i32, read_u32, read_u64, write_i32, write_u64};
use crate::{Cqe, EntryFault};

/// The 16 bytes of a completion (io_uring_enter(2)).
pub fn encode_cqe(cqe: &Cqe) -> [u8; 16]
    ensures { SpellsCqe cqe.now result }
{
    let Cqe { user_data, res } = *cqe;
    let mut bytes = [0; 16];
    write_u64(&mut bytes, 0, user_data);
    write_i32(&mut bytes, 8, res);
    bytes
}

/// The completion that the bytes spell.
///
/// # Errors
///
/// [`EntryFault::CompletionFlags`] where the flags aren't 0.
pub fn decode_cqe(bytes: &[u8; 16]) -> Result<Cqe, EntryFault>
    ensures value { (cqe : Cqe) → (result ≡ Ok cqe) ↔ SpellsCqe cqe bytes.now }
    ensures fault { (f : EntryFault) → (result ≡ Err f) ↔ IsLeastFault IsFaultOfCqe bytes.now f }
{
    if read_u32(bytes, 12) != 0 {
        return Err(EntryFault::CompletionFlags);
    }
    Ok(Cqe {
        user_data: read_u64(bytes, 0),
        res: read_i32(bytes, 8),
    })
}
