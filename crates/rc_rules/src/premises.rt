//! The premises of both sides.

ghost use Rattle.std.specs.Prelude.{ℕ, List, ◌++◌};
ghost use Rattle.rc_rules.specs.Premises as spec;

use crate::cause::Cause;

/// The lesser of two causes.
pub fn lesser(a: Result<(), Cause>, b: Result<(), Cause>) -> Result<(), Cause>
    ensures { (ps qs : List (ℕ × spec.Premise)) → spec.Tests a ps → spec.Tests b qs → spec.Tests result (ps ++ qs) }
{
    match (a, b) {
        (Err(a), Err(b)) => Err(if b.number() < a.number() { b } else { a }),
        (Err(a), Ok(())) => Err(a),
        (Ok(()), b) => b,
    }
}
