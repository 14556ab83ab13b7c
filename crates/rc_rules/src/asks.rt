//! What the premises of lines are about.

ghost use Rattle.std.specs.Prelude.{◌≡◌};
ghost use Rattle.rc_rules.specs.Needs.{listed};
ghost use Rattle.rc_rules.specs.Readers.{about};
ghost use Rattle.rc_rules.specs.Rules.{stmt_needs};

use crate::cause::Cause;
pub use crate::needs::Asks;
use crate::needs::{Need, needs_of};
use rc_lang::lines::Stmt;

/// What the need with the cause asks for.
fn found(needs: &[Option<Need>], cause: Cause) -> Option<Asks>
    ensures { result ≡ about (listed needs.now) cause }
{
    let [first, rest @ ..] = needs else {
        return None;
    };
    let (at, asks) = (*first)?;
    if at.number() == cause.number() {
        return Some(asks);
    }
    found(rest, cause)
}

/// What a line asks for at its premise with the cause, None where no such premise can fail.
pub fn asks_of(stmt: Stmt, cause: Cause) -> Option<Asks>
    ensures { result ≡ about (stmt_needs stmt) cause }
{
    found(&needs_of(stmt), cause)
}
