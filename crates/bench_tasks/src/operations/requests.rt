//! What one operation of a benchmark asks of its allocator.

use crate::failure::Failure;
use crate::operations::benchmark::{Benchmark, perform};
use crate::times::Hundredths;
use rows_fixtures::counting::Counting;
use std::alloc::Global;
use std::sync::Wait;

// The operations of the first count. The second has twice as many, so that both have what is prepared, and what an operation leaves to later ones.
const OPERATIONS: u64 = 10_000;

/// What one operation asks for.
#[derive(Drop)]
pub struct Requests {
    /// How often `allocate` is called.
    pub allocations: Hundredths,
    /// How many bytes these calls ask for.
    pub bytes: Hundredths,
}

// What so many operations asked for.
#[derive(Drop)]
struct Counted {
    operations: u64,
    allocations: u64,
    bytes: u64,
}

/// What one operation asks for, without what is prepared for all: what 20,000 operations ask for more than 10,000.
/// An `Err` says that the benchmark failed.
///
/// Its tasks keep a reference to the allocator that counts, where they would keep a `Global`, which takes no room.
pub fn count_requests<R: Wait + Drop + Copy>(
    rt: R,
    alloc: Global,
    benchmark: Benchmark,
) -> Result<Requests, Failure> {
    let few = count_all(rt, alloc, benchmark, OPERATIONS)?;
    let many = count_all(rt, alloc, benchmark, 2 * OPERATIONS)?;
    let operations = many.operations.saturating_sub(few.operations);
    let allocations = many.allocations.saturating_sub(few.allocations);
    let bytes = many.bytes.saturating_sub(few.bytes);
    Ok(Requests {
        allocations: part_of_one(allocations, operations)?,
        bytes: part_of_one(bytes, operations)?,
    })
}

// What so many operations ask for, with what is prepared.
fn count_all<R: Wait + Drop + Copy>(
    rt: R,
    alloc: Global,
    benchmark: Benchmark,
    operations: u64,
) -> Result<Counted, Failure> {
    let counting = Counting::new(alloc);
    let operations = perform(benchmark, rt, &counting, operations)?;
    Ok(Counted {
        operations,
        allocations: counting.allocations(),
        bytes: counting.bytes(),
    })
}

// The part of one operation.
fn part_of_one(total: u64, operations: u64) -> Result<Hundredths, Failure> {
    let hundredths = total.saturating_mul(100).checked_div(operations);
    Ok(Hundredths(hundredths.ok_or(Failure::Unexpected)?))
}
