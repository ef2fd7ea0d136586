//! The two calls of the kernel. Only they make a `Parked` and an `Unparked`.
ghost use Rattle.std.specs.Prelude.{◌≡◌, ◌<◌};

use super::Bells;
use std::sync::Wait;
use std::time::Duration;

/// The kernel was told to let a thread sleep on this word, while that shows this value, and for no longer than this.
#[derive(Drop)]
pub struct Parked {
    word: usize,
    value: u32,
    most: Option<Duration>,
}

/// The kernel was told to wake a thread that sleeps on this word.
#[derive(Drop)]
pub struct Unparked {
    word: usize,
}

impl Bells {
    pub(super) fn park<R: Wait>(
        &self,
        rt: &R,
        word: usize,
        value: u32,
        most: Option<Duration>,
    ) -> Parked
        requires { word < self.now.table.shared.table_id.words }
        ensures { (result.word ≡ word) × (result.value ≡ value) × (result.most ≡ most) }
    {
        let shared = &self.table.shared;
        match most {
            Some(most) => shared.park_timeout(rt, word, value, most),
            None => shared.park(rt, word, value),
        }
        Parked { word, value, most }
    }

    pub(super) fn unpark(&self, word: usize) -> Unparked
        requires { word < self.now.table.shared.table_id.words }
        ensures { result.word ≡ word }
    {
        self.table.shared.wake_one(word);
        Unparked { word }
    }
}
