//! The tests of the futures of `future_parts`: on one thread by a waker that counts its wakes, and on many;
//! and of timers, by such a waker and times that the test gives, by the `block_on` of shared wakers and by threads; of that `block_on`, and of a desk.
//! It stands on `future_parts`, `future_time`, `executor_parts` and `executor`. Nothing is public. The pages are those of the first two crates, and that of shared wakers.
#![tactic(auto)]

#[cfg(test)]
mod bell;
#[cfg(test)]
mod blocking_tests;
#[cfg(test)]
mod calls;
#[cfg(test)]
mod channel_tests;
#[cfg(test)]
mod closed_tests;
#[cfg(test)]
mod counter;
#[cfg(test)]
mod desk_tests;
#[cfg(test)]
mod gate;
#[cfg(test)]
mod interval_tests;
#[cfg(test)]
mod jobs_tests;
#[cfg(test)]
mod joining_all_tests;
#[cfg(test)]
mod joining_tests;
#[cfg(test)]
mod mark;
#[cfg(test)]
mod mutex_tests;
#[cfg(test)]
mod notify_tests;
#[cfg(test)]
mod oneshot_tests;
#[cfg(test)]
mod racing_tests;
#[cfg(test)]
mod refusal_tests;
#[cfg(test)]
mod registry_tests;
#[cfg(test)]
mod semaphore_tests;
#[cfg(test)]
mod shown_tests;
#[cfg(test)]
mod single_tests;
#[cfg(test)]
mod sleep_tests;
#[cfg(test)]
mod steps;
#[cfg(test)]
mod storm_tests;
#[cfg(test)]
mod thread_tests;
#[cfg(test)]
mod time_storm_tests;
#[cfg(test)]
mod timed_send_tests;
#[cfg(test)]
mod timeout_tests;
#[cfg(test)]
mod token;
#[cfg(test)]
mod tracker_tests;
