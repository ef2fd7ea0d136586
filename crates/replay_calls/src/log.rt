//! What happened in a script, in order.

use std::alloc::{AllocError, Global};
use std::sync::Mutex;
use std::sync::atomic::{AtomicBool, Ordering};
use std::{fmt, mem};

/// The words of what happened so far. One thread at a time may note some.
#[derive(Drop)]
pub struct Log {
    alloc: Global,
    text: Mutex<String>,
    is_lost: AtomicBool,
}

impl Log {
    /// An empty log.
    pub fn new(alloc: Global) -> Log {
        Log {
            alloc,
            text: Mutex::new(String::new(alloc)),
            is_lost: AtomicBool::new(false),
        }
    }

    /// Notes a word.
    pub fn note(&self, word: &str) {
        self.write(word);
        self.write(" ");
    }

    /// Notes a word and the number behind it.
    pub fn note_of(&self, word: &str, number: u8) {
        self.write(word);
        self.write(if number == 0 { "0 " } else { "1 " });
    }

    /// Notes that a call begins.
    pub fn begin(&self, call: &str) {
        self.write(call);
        self.write("( ");
    }

    /// Notes that it ends, with that answer.
    pub fn end(&self, answer: &str) {
        self.write(")");
        self.note(answer);
    }

    /// Notes that it ends, with this answer.
    pub fn end_with(&self, answer: bool) {
        self.end(if answer { "true" } else { "false" });
    }

    /// Notes how a value shows itself.
    pub fn show<T: fmt::Debug>(&self, value: &T) {
        match format!(in self.alloc; "{value:?}") {
            Ok(text) => self.note(text.as_str()),
            Err(_) => self.lose(),
        }
    }

    /// Notes that something could not be made for want of memory.
    pub fn lose(&self) {
        self.is_lost.store(true, Ordering::SeqCst);
    }

    /// Takes what was noted. An error if anything was lost.
    pub fn take(&self) -> Result<String, AllocError> {
        let text = self.text.try_lock().map(|mut text| mem::replace(
            &mut *text,
            String::new(self.alloc),
        ));
        if self.is_lost.load(Ordering::SeqCst) {
            return Err(AllocError);
        }
        text.ok_or(AllocError)
    }

    fn write(&self, text: &str) {
        let written = match self.text.try_lock() {
            Some(mut all) => all.push_str(text).is_ok(),
            None => false,
        };
        if !written {
            self.lose();
        }
    }
}
