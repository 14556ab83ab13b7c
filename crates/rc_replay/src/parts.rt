//! The parts that models have: tokens with what they stand for, and things, which move together.

use crate::names::{at, set, short};
use crate::notes::Notes;
use crate::replayed::{Kind, Part, Request, Thing, Token};
use crate::steps::Asked;
use crate::survey::Survey;
use crate::tables::Tables;
use indexmap::IndexMap;
use rc_text::text::{put_piece, put_pieces};
use std::alloc::{AllocError, Global};

/// The tokens and the things.
#[derive(Drop)]
pub struct Parts {
    /// Of each token: the requests that it stands for.
    requests: Vec<Vec<Request>>,
    /// Of each token and what is asked for with it: which of its requests that is.
    which: IndexMap<(u32, u32), u32>,
    pub things: Vec<Thing>,
    /// Of each token: its thing.
    pub thing_of: Vec<u32>,
}

/// A request that was asked for with a token.
#[derive(Clone, Copy)]
struct Asking {
    token: u32,
    asked: Asked,
    place: u32,
}

/// The tokens and the things of logs.
pub fn parts_of(
    alloc: Global,
    tables: &Tables,
    survey: &Survey,
    notes: &mut Notes,
) -> Result<Parts, AllocError> {
    let mut parts = Parts {
        requests: Vec::new(alloc),
        which: IndexMap::new(alloc),
        things: Vec::new(alloc),
        thing_of: Vec::new(alloc),
    };
    for _ in &tables.user_data {
        parts.requests.push(Vec::new(alloc))?;
    }
    for ((token, number), place) in survey.asked.iter() {
        if let Some(asked) = tables.asked_at(Some(*number)) {
            let asking = Asking {
                token: *token,
                asked,
                place: *place,
            };
            let which = parts.ask(alloc, tables, notes, asking)?;
            parts.which.insert((*token, *number), which)?;
        }
    }
    parts.note_strangers(alloc, tables, survey, notes)?;
    parts.add_things(alloc, tables)?;
    Ok(parts)
}

/// Whether two kinds are the same.
fn is_same_kind(one: Kind, other: Kind) -> bool {
    match (one, other) {
        (Kind::Read, Kind::Read)
        | (Kind::Write, Kind::Write)
        | (Kind::Nop, Kind::Nop)
        | (Kind::Other, Kind::Other) => true,
        (
            Kind::Fsync { is_datasync },
            Kind::Fsync {
                is_datasync: is_other,
            },
        ) => is_datasync == is_other,
        _ => false,
    }
}

/// Adds a request to those of a token, unless one differs by nothing but its length. Answers which it is.
fn add_request(requests: &mut Vec<Request>, asked: Asked) -> Result<u32, AllocError> {
    for place in 0..requests.len() {
        let Some(request) = requests.get_mut(place) else {
            break;
        };
        let is_same = request.buffer == asked.buffer && request.file == asked.file;
        if is_same && is_same_kind(request.kind, asked.kind) {
            request.len = request.len.max(asked.len);
            return Ok(short(place));
        }
    }
    requests.push(Request {
        kind: asked.kind,
        buffer: asked.buffer,
        file: asked.file,
        len: asked.len,
    })?;
    Ok(short(requests.len()).saturating_sub(1))
}

/// The word for a kind.
fn kind_words(kind: Kind) -> &'static [u8] {
    match kind {
        Kind::Read => b"a read",
        Kind::Write => b"a write",
        Kind::Fsync { is_datasync: _ } => b"an fsync",
        Kind::Nop => b"a nop",
        Kind::Other => b"another request",
    }
}

/// Adds what a request is.
fn put_request(
    words: &mut Vec<u8>,
    tables: &Tables,
    kind: Kind,
    buffer: Option<u32>,
) -> Result<(), AllocError> {
    put_piece(words, kind_words(kind))?;
    match buffer {
        Some(buffer) => put_pieces(words, &[b" of ", tables.buffers.name(buffer)]),
        None => Ok(()),
    }
}

impl Parts {
    /// What is asked for with a token is one of its requests. Answers which: of those past the fourth the first.
    fn ask(
        &mut self,
        alloc: Global,
        tables: &Tables,
        notes: &mut Notes,
        asking: Asking,
    ) -> Result<u32, AllocError> {
        if asking.asked.is_unsaid {
            note_unsaid(alloc, tables, notes, asking)?;
        }
        let Some(requests) = self.requests.get_mut(asking.token as usize) else {
            return Ok(0);
        };
        let which = add_request(requests, asking.asked)?;
        let Some(first) = requests.first().copied() else {
            return Ok(0);
        };
        if which > 3 || first.buffer != asking.asked.buffer {
            note_other(alloc, tables, notes, asking, first)?;
        }
        Ok(if which > 3 { 0 } else { which })
    }

    /// Whether a request was made with a token.
    pub fn was_sent(&self, token: u32) -> bool {
        self.request(token, 0).is_some()
    }

    /// Which of a token's requests is asked for.
    pub fn which(&self, token: u32, asked: u32) -> u32 {
        self.which.get(&(token, asked)).copied().unwrap_or(0)
    }

    /// A request of a token.
    pub fn request(&self, token: u32, which: u32) -> Option<Request> {
        self.requests
            .get(token as usize)?
            .get(which as usize)
            .copied()
    }

    /// A token with its requests.
    pub fn token(&self, tables: &Tables, token: u32, is_peeked_twice: bool) -> Token {
        let first = match self.request(token, 0) {
            Some(request) => request,
            None => Request {
                kind: Kind::Nop,
                buffer: None,
                file: None,
                len: 0,
            },
        };
        Token {
            user_data: at(&tables.user_data, token, 0),
            kind: first.kind,
            buffer: first.buffer,
            file: first.file,
            len: first.len,
            others: [
                self.request(token, 1),
                self.request(token, 2),
                self.request(token, 3),
            ],
            thing: at(&self.thing_of, token, 0),
            is_peeked_twice,
        }
    }

    /// The parts of a thing.
    pub fn of_thing(&self, thing: u32) -> &[Part] {
        match self.things.get(thing as usize) {
            Some(thing) => &thing.parts,
            None => &[],
        }
    }

    /// Notes completions of user data that no request has.
    fn note_strangers(
        &self,
        alloc: Global,
        tables: &Tables,
        survey: &Survey,
        notes: &mut Notes,
    ) -> Result<(), AllocError> {
        for token in 0..short(tables.user_data.len()) {
            if let Some(place) = at(&survey.seen, token, None)
                && !self.was_sent(token)
            {
                let name = tables.tokens.name(token);
                tables.note(
                    alloc,
                    notes,
                    place,
                    &[b"a completion of ", name, b", which no request has"],
                )?;
            }
        }
        Ok(())
    }

    /// The things: each buffer with the tokens that name it, and then the other tokens.
    fn add_things(&mut self, alloc: Global, tables: &Tables) -> Result<(), AllocError> {
        for buffer in 0..short(tables.buffers.names.len()) {
            self.add_thing(alloc, Part::Buffer(buffer))?;
        }
        for token in 0..short(tables.user_data.len()) {
            let thing = self.place_token(alloc, token)?;
            self.thing_of.push(thing)?;
        }
        Ok(())
    }

    /// Adds a thing of one part. Answers its place.
    fn add_thing(&mut self, alloc: Global, part: Part) -> Result<u32, AllocError> {
        let place = short(self.things.len());
        let mut parts = Vec::new(alloc);
        parts.push(part)?;
        self.things.push(Thing { parts })?;
        Ok(place)
    }

    /// Adds a token to the thing of its buffer, or to a new thing. Answers the place of that.
    fn place_token(&mut self, alloc: Global, token: u32) -> Result<u32, AllocError> {
        if let Some(request) = self.request(token, 0)
            && let Some(buffer) = request.buffer
            && let Some(thing) = self.things.get_mut(buffer as usize)
        {
            thing.parts.push(Part::Token(token))?;
            return Ok(buffer);
        }
        self.add_thing(alloc, Part::Token(token))
    }
}

/// Notes a request whose file or buffer nobody said.
fn note_unsaid(
    alloc: Global,
    tables: &Tables,
    notes: &mut Notes,
    asking: Asking,
) -> Result<(), AllocError> {
    tables.note(
        alloc,
        notes,
        asking.place,
        &[
            b"the request of ",
            tables.tokens.name(asking.token),
            b" names a file or a buffer that nobody said (RINGCHECK_FILE, RINGCHECK_BUFFER)",
        ],
    )
}

/// Notes a token that stands for requests that don't go together.
fn note_other(
    alloc: Global,
    tables: &Tables,
    notes: &mut Notes,
    asking: Asking,
    first: Request,
) -> Result<(), AllocError> {
    let mut words = Vec::new(alloc);
    put_request(&mut words, tables, asking.asked.kind, asking.asked.buffer)?;
    put_piece(&mut words, b" and for ")?;
    put_request(&mut words, tables, first.kind, first.buffer)?;
    tables.note(
        alloc,
        notes,
        asking.place,
        &[
            tables.tokens.name(asking.token),
            b" stands for ",
            &words,
            b": give each its own RINGCHECK_TOKEN",
        ],
    )
}
