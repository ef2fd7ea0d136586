//! The numbers that exports answer: which act is due.

/// Each of 2^64 - 1 tries has missed, or memory was refused.
pub const MISSED: u32 = 0;
/// The handle is gone, and its call has ended.
pub const OVER: u32 = 1;
/// The cell has ended.
pub const ENDED: u32 = 2;
/// The future is to be polled, once.
pub const POLL: u32 = 3;
/// The future is to be dropped.
pub const DROP_FUTURE: u32 = 4;
/// The output is to be dropped, and no awaiter is due.
pub const DROP_OUTPUT: u32 = 5;
/// The output is to be dropped, and an awaiter is due then.
pub const DROP_OUTPUT_DUE: u32 = 6;
/// The awaiter is to be moved out of its place.
pub const TAKE: u32 = 7;
/// The handle is gone, its call has ended, and the awaiter that was taken is to be woken.
pub const WAKE: u32 = 8;
/// The handle is the last: the places are to be emptied.
pub const LAST: u32 = 9;
/// A Runnable is to be handed to the schedule function.
pub const SCHEDULE: u32 = 10;
/// A Runnable of a task that was woken while it ran is to be handed to the schedule function.
pub const SCHEDULE_WOKEN: u32 = 11;
/// It is done, and nothing is due.
pub const DONE: u32 = 12;
/// The count of references is at its limit.
pub const LIMIT: u32 = 13;
/// The awaiter that was taken is to be woken before the call goes on.
pub const WAKE_FIRST: u32 = 14;
/// The handle is the last: the places are to be emptied, and then the awaiter that was taken is to be woken.
pub const LAST_WAKE: u32 = 15;
