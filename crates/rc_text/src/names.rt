//! The names of a program's parts, as they are printed.

ghost use Rattle.std.specs.Prelude.{◌≡◌};
ghost use Rattle.rc_lang.specs.Kept.{IsProgram};
ghost use Rattle.rc_text.specs.Names.{buffer_name, pool_name, side_text, thread_name};

use rc_lang::lines::Locks;
use rc_lang::program::Program;

/// The name of a thread, and nothing where the program has no such thread.
#[inline]
pub fn thread_name(program: &Program, thread: u32) -> &[u8]
    ensures name { result.now ≡ thread_name program.now thread }
    ensures made { IsProgram program.now }
{
    match program.threads().get(thread as usize) {
        Some(thread) => &thread.name,
        None => &[],
    }
}

/// The name of a buffer, and nothing where the program has no such buffer.
pub fn buffer_name(program: &Program, buffer: usize) -> &[u8]
    ensures { result.now ≡ buffer_name program.now buffer }
{
    match program.buffers().get(buffer) {
        Some(buffer) => &buffer.name,
        None => &[],
    }
}

/// The name of a pool, by its number, and nothing where the program has no such pool.
pub fn pool_name(program: &Program, pool: usize) -> &[u8]
    ensures { result.now ≡ pool_name program.now pool }
{
    match program.pools().get(pool) {
        Some(name) => name,
        None => &[],
    }
}

/// The side of some locks, after a blank, and nothing of both.
pub fn side_of(locks: Locks) -> &'static str
    ensures { result.now ≡ side_text locks }
{
    match (locks.sq, locks.cq) {
        (true, false) => " sq",
        (false, true) => " cq",
        _ => "",
    }
}
