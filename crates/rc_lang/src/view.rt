//! A program, as one of its threads names its parts.

ghost use Rattle.std.specs.Prelude.{◌≡◌, map};
ghost use Rattle.rc_lang.specs.Parts.{view_stock, view_thread};
ghost use Rattle.rc_lang.specs.Program.{bytes_at, shares_at, token_place};
ghost use Rattle.rc_lang.specs.Views.{IsView, seen};

use crate::program::{Program, Stock, Thread, Token};

/// A program, as one of its threads names its parts: what the rules of that thread's lines speak of. Each thread names
/// the parts as they are declared.
#[derive(Clone, Copy)]
pub struct View<'a> {
    pub program: &'a Program,
    /// The number of the thread.
    pub thread: usize,
}

impl Program {
    /// The program, as the thread with this number names its parts.
    pub fn view(&self, thread: usize) -> View<'_>
        ensures program { result.program.now ≡ self.now }
        ensures thread { result.thread ≡ thread }
    {
        View {
            program: self,
            thread,
        }
    }

    /// The program, as its declarations name its parts: the view of no thread.
    pub fn as_declared(&self) -> View<'_>
        ensures seen { seen result ≡ self.now }
        ensures program { result.program.now ≡ self.now }
    {
        self.view(self.threads().len())
    }
}

impl<'a> View<'a> {
    /// The version of the notation: 1 to 5.
    pub fn version(self) -> u32
        ensures { result ≡ (seen self.entry).version }
    {
        self.program.version()
    }

    /// The entries of the submission ring: a power of two, 1 to 1024.
    pub fn entries(self) -> u32
        ensures value { result ≡ (seen self.entry).entries }
        ensures made { IsView (seen self.entry) }
    {
        self.program.entries()
    }

    /// The entries of the completion ring: a power of two, from the submission ring's to 2048.
    pub fn completion_entries(self) -> u32
        ensures { result ≡ (seen self.entry).completion_entries }
    {
        self.program.completion_entries()
    }

    /// How many entries may be left queued where the lock of the submission side is released: 0 to the entries of the
    /// submission ring.
    pub fn left(self) -> u32
        ensures { result ≡ (seen self.entry).left }
    {
        self.program.left()
    }

    /// The tokens that the thread names.
    pub fn tokens(self) -> &'a [Token]
        ensures { result.now ≡ (seen self.entry).tokens }
    {
        self.program.tokens()
    }

    /// What the program's pools have at the start.
    pub fn stock(self) -> &'a [Stock]
        ensures { map view_stock result.now ≡ (seen self.entry).stock }
    {
        self.program.stock()
    }

    /// The program's threads.
    pub fn threads(self) -> &'a [Thread]
        ensures { map view_thread result.now ≡ (seen self.entry).threads }
    {
        self.program.threads()
    }

    /// How many bytes the buffer with this number has, 1 to 4096; 0 where there is none.
    pub fn bytes_at(self, buffer: usize) -> u32
        ensures { result ≡ bytes_at (seen self.entry).buffers buffer }
    {
        self.program.bytes_at(buffer)
    }

    /// Into how many shares the buffer with this number is split, 1 to 16; 0 where there is none.
    pub fn shares_at(self, buffer: usize) -> u32
        ensures { result ≡ shares_at (seen self.entry).buffers buffer }
    {
        self.program.shares_at(buffer)
    }

    /// The place of the token with this user data among the tokens, if there is one.
    pub fn token_place(self, user_data: u64) -> Option<usize>
        ensures { result ≡ token_place (seen self.entry).tokens user_data }
    {
        self.program.token_place(user_data)
    }
}
