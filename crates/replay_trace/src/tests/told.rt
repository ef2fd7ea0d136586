//! What the program answers to an input.

use std::process::Abort;

/// A status, and what was written to the output and for errors.
#[derive(Drop)]
pub struct Told {
    pub status: u8,
    pub out: String,
    pub err: String,
}

impl Told {
    /// Stops the test where one of the texts is not UTF-8.
    pub fn new<R: Abort>(rt: &R, status: u8, out: Vec<u8>, err: Vec<u8>) -> Told {
        let out = String::from_utf8(out).expect(rt, "no UTF-8");
        let err = String::from_utf8(err).expect(rt, "no UTF-8");
        Told { status, out, err }
    }

    /// Whether it is this.
    pub fn is(&self, status: u8, out: &str, err: &str) -> bool {
        self.status == status && self.out.as_str() == out && self.err.as_str() == err
    }

    /// Whether all went well: the status is 0, and no error was told.
    pub fn is_well(&self) -> bool {
        self.status == 0 && self.err.is_empty()
    }
}
