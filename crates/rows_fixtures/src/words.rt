//! The words of a step of a script.

use std::mem;

/// The words of a step that are not read yet.
#[derive(Drop)]
pub struct Words<'t> {
    rest: &'t str,
}

impl<'t> Words<'t> {
    /// All words of a step.
    pub fn of(step: &'t str) -> Words<'t> {
        Words { rest: step.trim() }
    }

    /// The next word, which is empty where there is none.
    pub fn next(&mut self) -> &'t str {
        match self.rest.split_once(' ') {
            Some((word, rest)) => {
                self.rest = rest;
                word
            }
            None => self.rest(),
        }
    }

    /// The next word, as a number.
    pub fn number(&mut self) -> Option<u64> {
        self.next().parse::<u64>().ok()
    }

    /// The next word, as a word of a task in hexadecimal.
    pub fn bits(&mut self) -> Option<u64> {
        u64::from_str_radix(self.next(), 16).ok()
    }

    /// All words that are left.
    pub fn rest(&mut self) -> &'t str {
        mem::replace(&mut self.rest, "")
    }

    /// Whether no word is left.
    pub fn are_read(&self) -> bool {
        self.rest.is_empty()
    }
}
