//! The tests of tasks under executors of other kinds (a queue by priority, a slot, a heap), of what awaits them (awaiters, groups, the kit's futures), of
//! refused memory, and of threads that race.
//! It stands on `rows_fixtures`, `executor_parts` and `async_task`. Nothing is public. The page is docs/PROOFS.md, of what awaits tasks that of `executor_parts`.
#![tactic(auto)]

#[cfg(test)]
mod awaiting;
#[cfg(test)]
mod calls;
#[cfg(test)]
mod priority_tests;
#[cfg(test)]
mod races;
#[cfg(test)]
mod refusal_tests;
#[cfg(test)]
mod shared_tests;
#[cfg(test)]
mod slot_tests;
#[cfg(test)]
mod storm_tests;
