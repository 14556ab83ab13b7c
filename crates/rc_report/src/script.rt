//! What a program is stepped by, and what is shown of its run.

/// The steps of a run, as they are written.
#[derive(Drop)]
pub enum Script<'a> {
    /// The items of a schedule.
    Schedule(&'a str),
    /// Moves, which spell a schedule.
    Moves(Vec<u8>),
}

/// What is shown of a run.
#[derive(Clone, Copy)]
pub enum Show {
    /// Its trace.
    Trace,
    /// Its trace, and the world in which it ends.
    State,
    /// Its picture, from the event with this number on, from 1.
    Picture { from: u64 },
}

/// How a program is stepped: by what, and what is shown.
#[derive(Drop)]
pub struct Stepping<'a> {
    pub script: Script<'a>,
    pub show: Show,
}
