//! What futures do in a pool: they await tasks, are awaited by `block_on`, post wakes and stand in groups, borrow, or are in boxes.

mod awaiting_tests;
mod borrow_tests;
mod boxed_tests;
mod calls;
mod group_tests;
mod kept_tests;
mod link;
mod mail_tests;
mod sharing_tests;
mod waiting_tests;
