//! The numbers that the exports of the Task answer, beside those of `answers`.

/// As `SCHEDULE`, and an awaiter is due.
pub const SCHEDULE_DUE: u32 = 25;

/// The output is to be moved out.
pub const OUTPUT: u32 = 16;

/// The poll is over, and there is no output: the task is closed, and its future is gone.
pub const CLOSED: u32 = 17;

/// The poll is over, and there is no answer yet: its awaiter is registered.
pub const PENDING: u32 = 18;

/// The caller's awaiter is to be cloned.
pub const CLONE: u32 = 19;

/// The clone is to be put into the place of the awaiter, where nothing lies.
pub const STORE: u32 = 20;

/// The clone is to be put into the place of the awaiter, over an older one, which is to be dropped.
pub const REPLACE: u32 = 21;

/// The caller's awaiter is to be woken, and the clone dropped.
pub const WAKE_CALLER: u32 = 22;

/// The clone is to be moved out of the place of the awaiter again.
pub const TAKE_BACK: u32 = 23;

/// As `TAKE`, of a poll that has claimed the output.
pub const TAKE_CLAIMED: u32 = 24;
