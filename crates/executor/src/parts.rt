//! The parts of a store and of a mail. Each has locks of its own, so that workers which take and fill places at the same time do not wait for one another.
ghost use Rattle.std.specs.Prelude.{◌≡◌, ◌<◌, ◌+◌, ◌*◌, ◌/◌, ◌%◌};

/// How many parts there are. A thread takes places of the part of its number, so no two of the first eight workers meet at a lock for it.
pub(crate) const PARTS: usize = 8;

// The part that serves a worker of this number, or that has the place of this number.
pub(crate) fn part_of(number: usize) -> usize
    ensures { result ≡ number % 8 }
{
    number % PARTS
}

// Which place of its part the place of this number is.
pub(crate) fn slot_of(number: usize) -> usize
    ensures { result ≡ number / 8 }
{
    number / PARTS
}

// The number of a place of a part. There are fewer places than bytes of memory, so it does not wrap.
pub(crate) fn number_of(part: usize, slot: usize) -> usize
    ensures number { slot * 8 + part < 18446744073709551616 → result ≡ slot * 8 + part }
    ensures part { part < 8 → result % 8 ≡ part }
{
    slot.wrapping_mul(PARTS).wrapping_add(part)
}
