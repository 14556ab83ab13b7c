//! A model is checked, and of a refused one a run into a fault is looked for.

ghost use Rattle.std.specs.Prelude.{IfOk};
ghost use Rattle.rc_read.specs.Answer.{answer_of};
ghost use Rattle.rc_runs.specs.Finds.{IsFound};

use crate::search::{Search, search_for};
use rc_admit::admitted::{Judged, judge};
use rc_lang::program::Program;
use rc_report::verdict::Verdict;
use std::alloc::{AllocError, Global};

/// The verdict on a model, and of a refused one what was found.
#[derive(Drop)]
pub struct Found {
    pub verdict: Verdict,
    pub searched: Option<Searched>,
}

/// A program, and what a search through it found.
#[derive(Drop)]
pub struct Searched {
    pub program: Program,
    pub search: Search,
}

/// Checks a model. In a refused one a run into a fault is looked for, by at most so many random walks with the choices of
/// this seed.
pub fn find(alloc: Global, bytes: &[u8], seed: u32, walks: u32) -> Result<Found, AllocError>
    ensures { IfOk result (IsFound (answer_of bytes.now) walks) }
{
    let judged = judge(alloc, bytes)?;
    match judged {
        Judged::Admitted(_) => Ok(Found {
            verdict: Verdict::Accepted,
            searched: None,
        }),
        Judged::Refused(program, refusal) => {
            let search = search_for(alloc, &program, refusal.line, seed, walks)?;
            Ok(Found {
                verdict: Verdict::Refused(refusal),
                searched: Some(Searched { program, search }),
            })
        }
        Judged::Unread { line, cause, .. } => Ok(Found {
            verdict: Verdict::Unreadable { line, cause },
            searched: None,
        }),
    }
}
