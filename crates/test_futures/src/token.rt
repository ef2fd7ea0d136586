//! Values that tell how many of them are there.
use std::alloc::Global;
use std::process::Abort;
use std::sync::Arc;

/// A value with a number, which has a share of a count as long as it is there.
#[derive(Drop)]
pub struct Token {
    number: u64,
    count: Arc<()>,
}

/// A count of tokens. Stops where there is no memory.
pub fn no_tokens<R: Abort>(rt: &R, alloc: Global) -> Arc<()> {
    Arc::new(alloc, ()).expect(rt, "refused")
}

/// A token of this count. Stops where there are as many as can be counted.
pub fn make_token<R: Abort>(rt: &R, count: &Arc<()>, number: u64) -> Token {
    Token {
        number,
        count: Arc::try_clone(count).expect(rt, "refused"),
    }
}

/// How many tokens of this count are there.
pub fn tokens(count: &Arc<()>) -> usize {
    Arc::strong_count(count).saturating_sub(1)
}

impl Token {
    /// Its number.
    pub fn shown(&self) -> u64 {
        self.number
    }

    /// Its number. The token is gone then.
    pub fn number(self) -> u64 {
        self.number
    }
}
