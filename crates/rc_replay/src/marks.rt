//! Which things are put into a pool in a row.

use crate::names::{at, set};
use crate::shapes::Deed;
use crate::stage::Moment;
use std::alloc::{AllocError, Global};

/// The last marks of a log.
#[derive(Drop)]
pub struct Marks {
    /// Of each thread its last event and the pool, if it was a put.
    puts: Vec<Option<(u32, u32)>>,
    /// Of each pool the last take.
    takes: Vec<Option<u32>>,
}

impl Marks {
    /// Before the first event: so many threads and pools.
    pub fn new(alloc: Global, threads: usize, pools: usize) -> Result<Marks, AllocError> {
        Ok(Marks {
            puts: vec![in alloc; None; threads]?,
            takes: vec![in alloc; None; pools]?,
        })
    }

    /// Whether the last event of a thread was a put into a pool, and nobody has taken from it since.
    pub fn is_row(&self, thread: u32, pool: u32) -> bool {
        let Some((event, last)) = at(&self.puts, thread, None) else {
            return false;
        };
        match at(&self.takes, pool, None) {
            Some(take) => last == pool && take < event,
            None => last == pool,
        }
    }

    /// A thread does something.
    pub fn pass(&mut self, moment: Moment, deed: &Deed) {
        let mut put = None;
        match deed {
            Deed::Put { pool, buffer: _ } => put = Some((moment.event, *pool)),
            Deed::Take { pool, buffer: _ } => set(&mut self.takes, *pool, Some(moment.event)),
            _ => {}
        }
        set(&mut self.puts, moment.thread, put);
    }
}
