//! Which events of a thread follow each other.

use indexmap::IndexMap;
use std::alloc::{AllocError, Global};

/// An event of a thread. The step counts the things that the thread puts before it does anything else, else it is 0.
#[derive(Clone, Copy, PartialEq, Eq, Hash)]
pub struct Stage {
    pub event: u32,
    pub step: u32,
}

/// An event, and the one before it, if any.
#[derive(Clone, Copy, PartialEq, Eq, Hash)]
pub struct Window {
    pub earlier: Option<Stage>,
    pub later: Stage,
}

/// How often each window comes in the logs of a thread, as far as is known how they go on.
pub type Windows = IndexMap<Window, u32>;

/// What an event is, of what windows depend on.
#[derive(Clone, Copy)]
pub struct Traits {
    pub is_put: bool,
    /// Whether it is known what it does, and that its thread goes on behind it or ends.
    pub is_known: bool,
}

/// A thread in a log.
#[derive(Clone, Copy)]
struct Track {
    earlier: Option<Stage>,
    /// Whether it isn't known how it goes on.
    is_over: bool,
}

/// A thread before its first event in a log.
const BEGUN: Track = Track {
    earlier: None,
    is_over: false,
};

/// The windows of each thread, while the logs are replayed.
#[derive(Drop)]
pub struct Tracks {
    pub windows: Vec<Windows>,
    tracks: Vec<Track>,
}

/// The step of an event behind this one.
fn step_of(is_put: bool, earlier: Option<Stage>) -> u32 {
    match earlier {
        None if is_put => 1,
        Some(earlier) if is_put && earlier.step > 0 => earlier.step.saturating_add(1),
        _ => 0,
    }
}

/// Counts a window once more.
fn count(windows: &mut Windows, window: Window) -> Result<(), AllocError> {
    if let Some(times) = windows.get_mut(&window) {
        *times = times.saturating_add(1);
        return Ok(());
    }
    windows.insert(window, 1)?;
    Ok(())
}

impl Tracks {
    /// No windows of so many threads.
    pub fn new(alloc: Global, threads: usize) -> Result<Tracks, AllocError> {
        let mut windows = Vec::new(alloc);
        for _ in 0..threads {
            windows.push(IndexMap::new(alloc))?;
        }
        Ok(Tracks {
            windows,
            tracks: vec![in alloc; BEGUN; threads]?,
        })
    }

    /// A log begins.
    pub fn begin(&mut self) {
        for track in self.tracks.iter_mut() {
            *track = BEGUN;
        }
    }

    /// A thread does an event.
    pub fn add(&mut self, thread: u32, event: u32, traits: Traits) -> Result<(), AllocError> {
        let Some(track) = self.tracks.get_mut(thread as usize) else {
            return Ok(());
        };
        track.is_over = track.is_over || !traits.is_known;
        if track.is_over {
            return Ok(());
        }
        let earlier = track.earlier;
        let later = Stage {
            event,
            step: step_of(traits.is_put, earlier),
        };
        track.earlier = Some(later);
        match self.windows.get_mut(thread as usize) {
            Some(windows) => count(windows, Window { earlier, later }),
            None => Ok(()),
        }
    }
}
