//! What the lines of a log say, in numbers.

use crate::names::{add_name, short};
use crate::replayed::Kind;
use crate::steps::{Asked, Names, Says};
use rc_lang::numbers::number_of;
use rc_log::call::Call;
use rc_log::declared::Declared;
use rc_log::parts::{count, is_name, long};
use rc_log::words::{is, word_at};
use rc_text::text::put_pieces;
use std::alloc::{AllocError, Global};

/// What a line says that is this call, and nothing where that isn't kept.
pub fn says_of(
    alloc: Global,
    names: &mut Names,
    line: &[u8],
    call: Call,
) -> Result<Option<Says>, AllocError> {
    match call {
        Call::SetData64(user_data) => Ok(Some(Says::Name(token_of(names, user_data)?))),
        Call::CqeSeen(user_data) => Ok(Some(Says::Seen(token_of(names, user_data)?))),
        Call::Peek { user_data, res } => {
            let token = token_of(names, user_data)?;
            Ok(Some(Says::Peek { token, res }))
        }
        Call::PrepNop | Call::PrepOther => Ok(Some(prepare(alloc, names, line)?)),
        Call::Submit(answer) => Ok(Some(submitted(line, answer))),
        Call::GetSqe => Ok(Some(Says::GetSqe)),
        Call::SqReady(_) => Ok(Some(Says::Ready)),
        Call::Lock(locks) => Ok(Some(Says::Lock(locks))),
        Call::Unlock(locks) => Ok(Some(Says::Unlock(locks))),
        Call::Ends => Ok(Some(Says::Ends)),
        Call::PeekNone | Call::SqSpaceLeft | Call::Exit(_) => Ok(None),
        _ => named_says(alloc, names, line),
    }
}

/// What a line says whose call names a part of a model.
fn named_says(alloc: Global, names: &mut Names, line: &[u8]) -> Result<Option<Says>, AllocError> {
    let call = word_at(line, 2);
    if is(call, b"get_sqe") {
        Ok(Some(Says::NoEntry))
    } else if is(call, b"flags") {
        Ok(Some(Says::Flags))
    } else if is(call, b"reads") {
        touched(alloc, names, line, false)
    } else if is(call, b"writes") {
        touched(alloc, names, line, true)
    } else if is(call, b"put") {
        marked(alloc, names, line, true)
    } else if is(call, b"take") {
        marked(alloc, names, line, false)
    } else {
        Ok(Some(prepare(alloc, names, line)?))
    }
}

/// The number of a token.
fn token_of(names: &mut Names, user_data: u64) -> Result<u32, AllocError> {
    if let Some(number) = names.tokens.get_index_of(&user_data) {
        return Ok(short(number));
    }
    let (number, _) = names.tokens.insert_full(user_data)?;
    Ok(short(number))
}

/// The number of a buffer, and nothing where nobody named it.
fn buffer_of(alloc: Global, names: &mut Names, word: &[u8]) -> Result<Option<u32>, AllocError> {
    if !is_name(word) {
        return Ok(None);
    }
    let number = add_name(alloc, &mut names.buffers, word)?;
    Ok(Some(number))
}

/// `submit ANSWER` or `submit_and_wait WANTED ANSWER`.
fn submitted(line: &[u8], answer: i32) -> Says {
    if is(word_at(line, 2), b"submit") {
        return Says::Submit(answer);
    }
    let wanted = count(word_at(line, 3)).unwrap_or(0);
    Says::SubmitAndWait { wanted, answer }
}

/// `reads BUFFER` or `writes BUFFER`.
fn touched(
    alloc: Global,
    names: &mut Names,
    line: &[u8],
    is_write: bool,
) -> Result<Option<Says>, AllocError> {
    match buffer_of(alloc, names, word_at(line, 3))? {
        None => Ok(Some(Says::Unnamed)),
        Some(buffer) if is_write => Ok(Some(Says::Writes(buffer))),
        Some(buffer) => Ok(Some(Says::Reads(buffer))),
    }
}

/// `put POOL`, `put POOL BUFFER`, and takes.
fn marked(
    alloc: Global,
    names: &mut Names,
    line: &[u8],
    is_put: bool,
) -> Result<Option<Says>, AllocError> {
    let pool = add_name(alloc, &mut names.pools, word_at(line, 3))?;
    let buffer = buffer_of(alloc, names, word_at(line, 4))?;
    Ok(Some(match (is_put, buffer) {
        (true, None) => Says::Put(pool),
        (true, Some(buffer)) => Says::PutOf { pool, buffer },
        (false, None) => Says::Take(pool),
        (false, Some(buffer)) => Says::TakeOf { pool, buffer },
    }))
}

/// A prep. Its words are kept once.
fn prepare(alloc: Global, names: &mut Names, line: &[u8]) -> Result<Says, AllocError> {
    let mut words = Vec::new(alloc);
    put_pieces(
        &mut words,
        &[
            word_at(line, 2),
            b" ",
            word_at(line, 3),
            b" ",
            word_at(line, 4),
            b" ",
            word_at(line, 5),
        ],
    )?;
    let number = add_name(alloc, &mut names.preps, &words)?;
    if number as usize == names.asked.len() {
        let asked = asked_of(alloc, names, line)?;
        names.asked.push(asked)?;
    }
    Ok(Says::Prepare(number))
}

/// What a prep asks for.
fn asked_of(alloc: Global, names: &mut Names, line: &[u8]) -> Result<Asked, AllocError> {
    let call = word_at(line, 2);
    if is(call, b"prep_read") {
        transfer_of(alloc, names, line, Kind::Read)
    } else if is(call, b"prep_write") {
        transfer_of(alloc, names, line, Kind::Write)
    } else if is(call, b"prep_fsync") {
        Ok(fsync_of(line))
    } else if is(call, b"prep_nop") {
        Ok(plain(Kind::Nop))
    } else {
        Ok(plain(Kind::Other))
    }
}

/// A request that names nothing.
fn plain(kind: Kind) -> Asked {
    Asked {
        kind,
        file: None,
        buffer: None,
        len: 0,
        is_unsaid: false,
    }
}

/// The file that a word says, if one is said.
fn file_of(word: &[u8]) -> Option<u32> {
    Some(number_of(0, i32::MAX as u64, word)? as u32)
}

/// `prep_fsync FILE FLAGS`.
fn fsync_of(line: &[u8]) -> Asked {
    let is_datasync = is(word_at(line, 4), b"1");
    let file = file_of(word_at(line, 3));
    Asked {
        file,
        is_unsaid: file.is_none(),
        ..plain(Kind::Fsync { is_datasync })
    }
}

/// `prep_read FILE BUFFER LEN OFF` or a write.
fn transfer_of(
    alloc: Global,
    names: &mut Names,
    line: &[u8],
    kind: Kind,
) -> Result<Asked, AllocError> {
    let buffer = buffer_of(alloc, names, word_at(line, 4))?;
    let file = file_of(word_at(line, 3));
    let len = long(word_at(line, 5)).unwrap_or(0).min(u64::from(u32::MAX)) as u32;
    Ok(Asked {
        kind,
        file,
        buffer,
        len,
        is_unsaid: file.is_none() || buffer.is_none(),
    })
}

/// What a line says that declares a part.
pub fn declared_says(
    alloc: Global,
    names: &mut Names,
    declared: Declared<'_>,
) -> Result<Says, AllocError> {
    match declared {
        Declared::Buffer { name, bytes: _ } => {
            let number = add_name(alloc, &mut names.buffers, name)?;
            Ok(Says::Buffer(number))
        }
        Declared::Token(user_data) => Ok(Says::Token(token_of(names, user_data)?)),
        Declared::File(number) => Ok(Says::File(number)),
    }
}
