//! Calls, by the words after their first.

ghost use Rattle.std.specs.Prelude.{◌≡◌, option_map};
ghost use Rattle.std.specs.List.{list_any};
ghost use Rattle.rc_log.specs.Cuts.{words_after};
ghost use Rattle.rc_log.specs.Others.{is_some_other};
ghost use Rattle.rc_log.specs.Said as spec;

use crate::call::{Call, Lack};
use crate::parts::{answer, buffer_of, count, file_of, long};
use crate::words::{is, is_end, next_word, one_word, two_words};
use rc_lang::numbers::number_of;
use rc_lang::program::{Program, Token, TokenKind};

/// What a read or a write moves.
#[derive(Clone, Copy)]
pub struct Transfer {
    /// The number of a declared file.
    pub file: u32,
    /// The place of a declared buffer.
    pub buffer: usize,
    /// How many bytes, in the program of C.
    pub len: u64,
}

/// `CALL`.
pub fn alone(call: Call, rest: &[u8]) -> Option<Call>
    ensures { result ≡ spec.alone call (words_after rest.now) }
{
    is_end(rest).then_some(call)
}

/// `get_sqe N`.
pub fn get_sqe(rest: &[u8]) -> Option<Call>
    ensures { result ≡ spec.get_sqe (words_after rest.now) }
{
    match number_of(0, 1, one_word(rest)?)? {
        1 => Some(Call::GetSqe),
        _ => Some(Call::Foreign(Lack::NoEntry)),
    }
}

fn moved(file: Result<u32, Lack>, buffer: Result<usize, Lack>, len: u64) -> Result<Transfer, Lack>
    ensures { result ≡ spec.moved file buffer len }
{
    Ok(Transfer {
        file: file?,
        buffer: buffer?,
        len,
    })
}

/// `FILE BUFFER LEN OFF`.
fn transfer_in(program: &Program, rest: &[u8]) -> Option<Result<Transfer, Lack>>
    ensures { result ≡ spec.transfer program.now (words_after rest.now) }
{
    let (file, rest) = next_word(rest)?;
    let (buffer, rest) = next_word(rest)?;
    let (len, off) = two_words(rest)?;
    let file = file_of(program, file)?;
    let buffer = buffer_of(program, buffer)?;
    let len = long(len)?;
    let _ = long(off)?;
    Some(moved(file, buffer, len))
}

/// `prep_read FILE BUFFER LEN OFF`.
pub fn prep_read(program: &Program, rest: &[u8]) -> Option<Call>
    ensures { result ≡ option_map spec.read_of (spec.transfer program.now (words_after rest.now)) }
{
    match transfer_in(program, rest)? {
        Ok(Transfer { file, buffer, len }) => Some(Call::PrepRead { file, buffer, len }),
        Err(lack) => Some(Call::Foreign(lack)),
    }
}

/// `prep_write FILE BUFFER LEN OFF`.
pub fn prep_write(program: &Program, rest: &[u8]) -> Option<Call>
    ensures { result ≡ option_map spec.write_of (spec.transfer program.now (words_after rest.now)) }
{
    match transfer_in(program, rest)? {
        Ok(Transfer { file, buffer, len }) => Some(Call::PrepWrite { file, buffer, len }),
        Err(lack) => Some(Call::Foreign(lack)),
    }
}

fn fsync_of(file: Result<u32, Lack>, flags: u32) -> Call
    ensures { result ≡ spec.fsync_of file flags }
{
    match file {
        Ok(file) if flags <= 1 => Call::PrepFsync {
            file,
            datasync: flags == 1,
        },
        Ok(_) => Call::Foreign(Lack::FsyncFlags),
        Err(lack) => Call::Foreign(lack),
    }
}

/// `prep_fsync FILE FLAGS`.
pub fn prep_fsync(program: &Program, rest: &[u8]) -> Option<Call>
    ensures { result ≡ spec.prep_fsync program.now (words_after rest.now) }
{
    let (file, flags) = two_words(rest)?;
    let file = file_of(program, file)?;
    Some(fsync_of(file, count(flags)?))
}

/// `flags N`, and what else has a byte alone.
pub fn of_byte(call: Call, rest: &[u8]) -> Option<Call>
    ensures { result ≡ spec.of_byte call (words_after rest.now) }
{
    let _ = number_of(0, 255, one_word(rest)?)?;
    Some(call)
}

// Whether one of the tokens may be for another request.
fn has_other(tokens: &[Token]) -> bool
    ensures { result ≡ list_any spec.may_be_other tokens.now }
{
    tokens.iter().any(|token| may_be_other(*token))
}

// Whether one of the kinds of a token is that of another request.
#[tactic(auto, using(crate::proofs::Others::any_other))]
fn may_be_other(token: Token) -> bool
    ensures { result ≡ spec.may_be_other token }
{
    is_other(Some(token.kind)) || token.others.iter().any(|kind| is_other(*kind))
}

// Whether a kind is that of another request, where there is one.
fn is_other(kind: Option<TokenKind>) -> bool
    ensures { result ≡ is_some_other kind }
{
    matches!(kind, Some(TokenKind::Other))
}

/// `prep_other OPCODE`.
pub fn prep_other(program: &Program, rest: &[u8]) -> Option<Call>
    ensures { result ≡ spec.of_byte (spec.prep_other program.now) (words_after rest.now) }
{
    of_byte(other_in(program), rest)
}

// What `prep_other` is: a program without a token for it makes no such request.
fn other_in(program: &Program) -> Call
    ensures { result ≡ spec.prep_other program.now }
{
    if has_other(program.tokens()) {
        Call::PrepOther
    } else {
        Call::Foreign(Lack::NoSuchRequest)
    }
}

/// `set_data64 TOKEN`.
pub fn set_data64(rest: &[u8]) -> Option<Call>
    ensures { result ≡ spec.of_token Call.SetData64 (words_after rest.now) }
{
    Some(Call::SetData64(long(one_word(rest)?)?))
}

/// `cqe_seen TOKEN`.
pub fn cqe_seen(rest: &[u8]) -> Option<Call>
    ensures { result ≡ spec.of_token Call.CqeSeen (words_after rest.now) }
{
    Some(Call::CqeSeen(long(one_word(rest)?)?))
}

/// `submit ANSWER`.
pub fn submit(rest: &[u8]) -> Option<Call>
    ensures { result ≡ spec.submit (words_after rest.now) }
{
    Some(Call::Submit(answer(one_word(rest)?)?))
}

/// `submit_and_wait WANTED ANSWER`.
pub fn submit_and_wait(rest: &[u8]) -> Option<Call>
    ensures { result ≡ spec.submit_and_wait (words_after rest.now) }
{
    let (wanted, taken) = two_words(rest)?;
    let _ = count(wanted)?;
    Some(Call::Submit(answer(taken)?))
}

/// `peek_cqe none` and `peek_cqe TOKEN RES`.
pub fn peek_cqe(rest: &[u8]) -> Option<Call>
    ensures { result ≡ spec.peek_cqe (words_after rest.now) }
{
    let (word, rest) = next_word(rest)?;
    if is(word, b"none") {
        return alone(Call::PeekNone, rest);
    }
    let user_data = long(word)?;
    let res = answer(one_word(rest)?)?;
    Some(Call::Peek { user_data, res })
}

/// `sq_ready N`.
pub fn sq_ready(rest: &[u8]) -> Option<Call>
    ensures { result ≡ spec.of_count Call.SqReady (words_after rest.now) }
{
    Some(Call::SqReady(count(one_word(rest)?)?))
}

/// `sq_space_left N`.
pub fn sq_space_left(rest: &[u8]) -> Option<Call>
    ensures { result ≡ spec.of_count (λ n. Call.SqSpaceLeft) (words_after rest.now) }
{
    let _ = count(one_word(rest)?)?;
    Some(Call::SqSpaceLeft)
}

/// `exit N`.
pub fn exit(rest: &[u8]) -> Option<Call>
    ensures { result ≡ spec.of_count Call.Exit (words_after rest.now) }
{
    Some(Call::Exit(count(one_word(rest)?)?))
}
