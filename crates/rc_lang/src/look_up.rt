//! Where the parts of a program are found by their numbers and places.

ghost use Rattle.std.specs.Prelude.{◌≡◌, map};
ghost use Rattle.rc_lang.specs.Kept.{IsProgram};
ghost use Rattle.rc_lang.specs.Parts.{view_items};
ghost use Rattle.rc_lang.specs.Program.{bytes_at, end_at, line_at, lists_of, shares_at, token_place};
ghost use Rattle.rc_lang.specs.Rows.{line_read_at};

use crate::lines::Line;
use crate::program::{Items, Program};

impl Program {
    /// How many bytes the buffer with this number has, 1 to 4096; 0 where there is none.
    pub fn bytes_at(&self, buffer: usize) -> u32
        ensures value { result ≡ bytes_at self.now.buffers buffer }
        ensures made { IsProgram self.now }
    {
        match self.buffers().get(buffer) {
            Some(buffer) => buffer.bytes,
            None => 0,
        }
    }

    /// Into how many shares the buffer with this number is split, 1 to 16; 0 where there is none.
    pub fn shares_at(&self, buffer: usize) -> u32
        ensures value { result ≡ shares_at self.now.buffers buffer }
        ensures made { IsProgram self.now }
    {
        match self.buffers().get(buffer) {
            Some(buffer) => buffer.shares,
            None => 0,
        }
    }

    /// The place of the token with this user data among the tokens, if it is declared.
    pub fn token_place(&self, user_data: u64) -> Option<usize>
        ensures value { result ≡ token_place self.now.tokens user_data }
        ensures made { IsProgram self.now }
    {
        let tokens = self.tokens();
        // Mostly the tokens are numbered one after another.
        let guess = match tokens.first() {
            Some(first) => user_data.wrapping_sub(first.user_data) as usize,
            None => 0,
        };
        if guess < tokens.len() && tokens[guess].user_data == user_data {
            return Some(guess);
        }
        tokens.iter().position(|token| token.user_data == user_data)
    }

    /// The line at a place of a thread, if the thread and the place are there.
    pub fn line_at(&self, thread: usize, place: usize) -> Option<Line>
        ensures value { result ≡ line_at self.now thread place }
        ensures made { IsProgram self.now }
    {
        let thread = self.threads().get(thread)?;
        thread.lines.get(place).copied()
    }

    /// The same line, with what its names stand for at these values of the thread's variables.
    pub fn read_line_at(&self, thread: usize, variables: &[i64], place: usize) -> Option<Line>
        ensures value { result ≡ line_read_at self.now thread variables.now place }
        ensures made { IsProgram self.now }
    {
        let thread = self.threads().get(thread)?;
        let line = thread.lines.get(place)?;
        Some(thread.rows.read_line(self, variables, *line))
    }

    /// The lists of items of a thread, in the order of their lines; none where there is no such thread.
    pub fn lists_of(&self, thread: usize) -> &[Items]
        ensures value { map view_items result.now ≡ lists_of self.now thread }
        ensures made { IsProgram self.now }
    {
        match self.threads().get(thread) {
            Some(thread) => &thread.lists,
            None => &[],
        }
    }

    /// The place that the line at a place of a thread leads to, and 0 where the table of such places ends before it.
    pub fn end_at(&self, thread: usize, place: usize) -> usize
        ensures value { result ≡ end_at self.now thread place }
        ensures made { IsProgram self.now }
    {
        match self.threads().get(thread) {
            Some(thread) => thread.ends.get(place).copied().unwrap_or(0),
            None => 0,
        }
    }
}
