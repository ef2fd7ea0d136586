//! The tests of the pool itself: its workers, `block_on`, its stores, what it keeps, the order of tasks, their metadata, storms of wakes, its ends, what it is made with, refused memory, hostile use, and what is shown;
//! of what futures do in it; and of the queues below it: the search of a worker, memory that is refused, and which queue a worker looks at first.
//! It stands on `executor`, `work_queues` and `executor_parts`. Nothing is public. The page is docs/EXECUTOR_POOL.md, of the queues that of `work_queues`.
#![tactic(auto)]

#[cfg(test)]
mod calls;
#[cfg(test)]
mod deadline_tests;
#[cfg(test)]
mod dice;
#[cfg(test)]
mod ending_tests;
#[cfg(test)]
mod future_tests;
#[cfg(test)]
mod guest;
#[cfg(test)]
mod hook_tests;
#[cfg(test)]
mod hostile_tests;
#[cfg(test)]
mod kept_tests;
#[cfg(test)]
mod metadata_tests;
#[cfg(test)]
mod numbers_tests;
#[cfg(test)]
mod order_tests;
#[cfg(test)]
mod queue_refusal_tests;
#[cfg(test)]
mod queue_storm_tests;
#[cfg(test)]
mod refusal_tests;
#[cfg(test)]
mod search_tests;
#[cfg(test)]
mod setting_tests;
#[cfg(test)]
mod shown_tests;
#[cfg(test)]
mod start_tests;
#[cfg(test)]
mod store_tests;
#[cfg(test)]
mod storm_tests;
#[cfg(test)]
mod unclaimed_tests;
#[cfg(test)]
mod worker_tests;
