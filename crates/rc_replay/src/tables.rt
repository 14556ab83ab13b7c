//! What the logs name, in an order that doesn't depend on the order of the logs.

use crate::names::{at, set, short};
use crate::notes::Notes;
use crate::recording::Recorder;
use crate::steps::{Asked, Says, Step};
use indexmap::IndexSet;
use rc_text::text::{put_number, put_piece, put_pieces};
use std::alloc::{AllocError, Global};

/// Names in order, and the place of each by its number.
#[derive(Drop)]
pub struct Ranked {
    pub names: Vec<Vec<u8>>,
    ranks: Vec<u32>,
}

/// All names in order.
#[derive(Drop)]
pub struct Tables {
    pub threads: Ranked,
    pub places: Ranked,
    pub buffers: Ranked,
    pub pools: Ranked,
    /// User data in order, in words.
    pub tokens: Ranked,
    pub user_data: Vec<u64>,
    /// What preps ask for, in the order of their words.
    pub asked: Vec<Asked>,
    asked_ranks: Vec<u32>,
}

/// The places of numbers that are in an order.
fn ranks_of(alloc: Global, order: &[u32]) -> Result<Vec<u32>, AllocError> {
    let mut ranks = vec![in alloc; u32::MAX; order.len()]?;
    for (rank, number) in order.iter().enumerate() {
        set(&mut ranks, *number, short(rank));
    }
    Ok(ranks)
}

/// Where the number of a FILE:LINE begins.
fn number_in(place: &[u8]) -> usize {
    let mut start = 0;
    for (i, byte) in place.iter().enumerate() {
        if *byte == b':' {
            start = i;
        }
    }
    start
}

/// By what a name is sorted. A FILE:LINE is by the file, and then the number.
fn key_of(alloc: Global, name: &[u8], is_place: bool) -> Result<Vec<u8>, AllocError> {
    if !is_place {
        return Vec::from_slice(alloc, name);
    }
    let (file, number) = name.split_at(number_in(name).min(name.len()));
    let mut key = Vec::new(alloc);
    let len = [0, number.len().min(255) as u8];
    put_pieces(&mut key, &[file, &len, number])?;
    Ok(key)
}

/// The numbers of names in the order of their keys.
fn sorted(
    alloc: Global,
    names: &IndexSet<Vec<u8>>,
    are_places: bool,
) -> Result<Vec<u32>, AllocError> {
    let mut keys = Vec::new(alloc);
    for (number, name) in names.iter().enumerate() {
        let key = key_of(alloc, name, are_places)?;
        keys.push((key, short(number)))?;
    }
    keys.sort()?;
    let mut order = Vec::new(alloc);
    for (_, number) in &keys {
        order.push(*number)?;
    }
    Ok(order)
}

/// Names in the order of their keys: of themselves, or of places.
fn rank_names(
    alloc: Global,
    names: &IndexSet<Vec<u8>>,
    are_places: bool,
) -> Result<Ranked, AllocError> {
    let order = sorted(alloc, names, are_places)?;
    let mut ranked = Vec::new(alloc);
    for number in &order {
        if let Some(name) = names.get_index(*number as usize) {
            ranked.push(Vec::from_slice(alloc, name)?)?;
        }
    }
    Ok(Ranked {
        names: ranked,
        ranks: ranks_of(alloc, &order)?,
    })
}

/// User data in order, with numbers.
fn sorted_tokens(alloc: Global, tokens: &IndexSet<u64>) -> Result<Vec<(u64, u32)>, AllocError> {
    let mut keys = Vec::new(alloc);
    for (number, token) in tokens.iter().enumerate() {
        keys.push((*token, short(number)))?;
    }
    keys.sort()?;
    Ok(keys)
}

/// User data, in words.
fn token_name(alloc: Global, user_data: u64) -> Result<Vec<u8>, AllocError> {
    let mut name = Vec::new(alloc);
    put_piece(&mut name, b"user data ")?;
    put_number(&mut name, user_data)?;
    Ok(name)
}

/// User data in order, in words.
fn rank_tokens(alloc: Global, keys: &[(u64, u32)]) -> Result<Ranked, AllocError> {
    let (mut names, mut order) = (Vec::new(alloc), Vec::new(alloc));
    for (token, number) in keys {
        names.push(token_name(alloc, *token)?)?;
        order.push(*number)?;
    }
    Ok(Ranked {
        names,
        ranks: ranks_of(alloc, &order)?,
    })
}

/// What preps ask for in an order, with the places of buffers.
fn asked_in(
    alloc: Global,
    asked: &[Asked],
    order: &[u32],
    buffers: &Ranked,
) -> Result<Vec<Asked>, AllocError> {
    let mut ranked = Vec::new(alloc);
    for number in order {
        if let Some(asked) = asked.get(*number as usize) {
            let buffer = match asked.buffer {
                Some(buffer) => Some(buffers.rank(buffer)),
                None => None,
            };
            ranked.push(Asked { buffer, ..*asked })?;
        }
    }
    Ok(ranked)
}

impl Ranked {
    /// The place of a number. One that has none is past all places.
    pub fn rank(&self, number: u32) -> u32 {
        at(&self.ranks, number, u32::MAX)
    }

    /// The name at a place; empty where there is none.
    pub fn name(&self, rank: u32) -> &[u8] {
        match self.names.get(rank as usize) {
            Some(name) => name,
            None => &[],
        }
    }
}

/// The tables of what was recorded.
pub fn tables_of(alloc: Global, recorder: &Recorder) -> Result<Tables, AllocError> {
    let names = &recorder.names;
    let buffers = rank_names(alloc, &names.buffers, false)?;
    let preps = sorted(alloc, &names.preps, false)?;
    let tokens = sorted_tokens(alloc, &names.tokens)?;
    let mut user_data = Vec::new(alloc);
    for (token, _) in &tokens {
        user_data.push(*token)?;
    }
    Ok(Tables {
        threads: rank_names(alloc, &names.threads, false)?,
        places: rank_names(alloc, &names.places, true)?,
        asked: asked_in(alloc, &names.asked, &preps, &buffers)?,
        buffers,
        pools: rank_names(alloc, &names.pools, false)?,
        tokens: rank_tokens(alloc, &tokens)?,
        user_data,
        asked_ranks: ranks_of(alloc, &preps)?,
    })
}

impl Tables {
    /// The place of what a prep asks for.
    pub fn asked_rank(&self, number: u32) -> u32 {
        at(&self.asked_ranks, number, u32::MAX)
    }

    /// What a step says, with places in these tables in place of numbers.
    fn says(&self, says: Says) -> Says {
        match says {
            Says::Prepare(number) => Says::Prepare(self.asked_rank(number)),
            Says::Name(token) => Says::Name(self.tokens.rank(token)),
            Says::Peek { token, res } => Says::Peek {
                token: self.tokens.rank(token),
                res,
            },
            Says::Seen(token) => Says::Seen(self.tokens.rank(token)),
            Says::Token(token) => Says::Token(self.tokens.rank(token)),
            Says::Reads(buffer) => Says::Reads(self.buffers.rank(buffer)),
            Says::Writes(buffer) => Says::Writes(self.buffers.rank(buffer)),
            Says::Buffer(buffer) => Says::Buffer(self.buffers.rank(buffer)),
            Says::Put(pool) => Says::Put(self.pools.rank(pool)),
            Says::PutOf { pool, buffer } => Says::PutOf {
                pool: self.pools.rank(pool),
                buffer: self.buffers.rank(buffer),
            },
            Says::Take(pool) => Says::Take(self.pools.rank(pool)),
            Says::TakeOf { pool, buffer } => Says::TakeOf {
                pool: self.pools.rank(pool),
                buffer: self.buffers.rank(buffer),
            },
            other => other,
        }
    }

    /// A step, with places in these tables in place of numbers.
    pub fn step(&self, step: Step) -> Step {
        Step {
            thread: self.threads.rank(step.thread),
            place: self.places.rank(step.place),
            says: self.says(step.says),
        }
    }

    /// What a prep asks for.
    pub fn asked_at(&self, asked: Option<u32>) -> Option<Asked> {
        self.asked.get(asked? as usize).copied()
    }

    /// Notes something of a place.
    pub fn note(
        &self,
        alloc: Global,
        notes: &mut Notes,
        place: u32,
        pieces: &[&[u8]],
    ) -> Result<(), AllocError> {
        let mut text = Vec::new(alloc);
        put_pieces(&mut text, &[self.places.name(place), b": "])?;
        put_pieces(&mut text, pieces)?;
        notes.add(text)
    }
}

/// The numbers of the logs, in the order of their contents.
pub fn log_order(alloc: Global, recorder: &Recorder) -> Result<Vec<u32>, AllocError> {
    let mut keys = Vec::new(alloc);
    for (number, log) in recorder.logs.iter().enumerate() {
        keys.push((log.steps, log.sum, short(number)))?;
    }
    keys.sort()?;
    let mut order = Vec::new(alloc);
    for (_, _, number) in &keys {
        order.push(*number)?;
    }
    Ok(order)
}
