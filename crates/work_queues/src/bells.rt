//! The bells of the workers: who sleeps, who searches, which queues show items, and the duties that follow. They name no item, so an awaiter can hold them.
//!
//! Each duty is a value without `Drop`. A seat that may owe a look ends in `leave`, which asks that it owes none.
//!
//! | value | made by | ended by |
//! |---|---|---|
//! | `Claim` | `claim` | `give_back` |
//! | `Search` | `begin_search` | `end_search` |
//! | `Sleeper` | `lie_down` | `get_up` |
//! | `Look` | `end_search`, `get_up`, `give_back` | `pay`, or the next search or sleep |
//! | `Woken` | the step by which that worker is no more asleep | `ring` |
//! | `Heard` | `hear` | `answer`, `pass_on` |
//!
//! What a call has done, it answers as a value that only the step makes: `Due`, `NotDue`, `Interrupted`, `NothingShown`, `Parked`, `Unparked`.
ghost use Rattle.std.specs.Prelude.{◌≡◌, ◌≢◌, ℕ, ◌+◌, ◌*◌, ◌<◌, ◌≤◌, [], IfOk, length, slice_index, min, max};
ghost use Rattle.work_queues.specs.Sleep.{blank, owing, searches, due, not_due, taken, flag_word, worker_word, searcher_word, sleepers_word, word_count};

mod claims;
mod flags;
mod interruptions;
mod kernel;
mod looks;
mod resting;
mod waking;

use crate::view::View;
use crate::watch::{Enter, Sleep};
use atomic_table::Table;
pub use interruptions::{Interrupted, NoneSince};
pub use kernel::{Parked, Unparked};
use std::alloc::{AllocError, Global};
use std::sync::atomic::AtomicU64;
pub use waking::Woken;

/// The most workers of a pool.
pub const MOST_WORKERS: usize = 1024;

// How far apart the words are, so that no cache line has two. It is 128 bytes, since some processors fetch lines of 64 bytes in pairs.
pub(crate) const PADDING: usize = 16;

const HIDDEN: u64 = 0;

const SHOWN: u64 = 1;

const AWAKE: u64 = 0;

const ASLEEP: u64 = 1;

const INTERRUPTED: u64 = 2;

const WOKEN: u64 = 3;

// Nobody has the right to a word that shows so.
const FREE: u64 = 4;

// More sleepers are not counted, so the count never wraps.
const MOST_SLEEPERS: u64 = 1 << 32;

type Seat = atomic_table::Seat<(), View>;

// A seat that may owe looks, or an answer. It has no `Drop`, so it ends in `leave`, which asks that it owes nothing.
struct Place {
    seat: Seat,
}

/// Who sleeps, who searches, which queues show items, whether an interruption is due, and which workers a thread has.
#[derive(Drop)]
pub struct Bells {
    table: Table<(), View, usize, Sleep, Global>,
    workers: usize,
    // How many interruptions there were.
    interruptions: AtomicU64,
    ghost sized: { (table.shared.table_id.words ≡ word_count workers) × (table.shared.key ≡ workers) × (0 < workers) × (workers ≤ 1024) },
}

/// The right to the flag of a queue. It lies beside the queue.
#[derive(Drop)]
pub struct Flag {
    queue: usize,
    shows: bool,
    seat: Seat,
}

/// The right to be the worker of a number, which no other claim has until this one is given back.
pub struct Claim {
    number: usize,
    place: Place,
}

/// Looks that are owed, at the flag of each queue.
pub struct Look {
    place: Place,
    ghost is: { place.seat.me ≡ (owing blank, []) },
}

/// A search that has begun.
pub struct Search {
    place: Place,
    ghost is: { place.seat.me ≡ (searches (owing blank) 1, []) },
}

/// At an instant each of the call that answers this, no flag of a queue showed an item.
#[derive(Drop)]
pub struct NothingShown {
    seat: Seat,
}

/// A worker that has lain down.
pub struct Sleeper {
    worker: usize,
    place: Place,
}

/// An interruption was due, at an instant of the call that answers this.
#[derive(Drop)]
pub struct Due {
    seat: Seat,
    ghost is: { seat.me.0.interruption ≡ due },
}

/// No interruption was due, at an instant of the call that answers this.
#[derive(Drop)]
pub struct NotDue {
    seat: Seat,
    ghost is: { seat.me.0.interruption ≡ not_due },
}

/// An interruption that a worker has heard: it looks once more.
pub struct Heard {
    place: Place,
    ghost is: { place.seat.me.0.interruption ≡ taken },
}

/// Each worker below a number was interrupted.
#[derive(Drop)]
pub struct AllInterrupted {
    next: usize,
}

// What a word of this number shows at first: flags of queues and workers are free.
fn first_word(number: usize, workers: usize) -> u64
    requires { workers ≤ 1024 }
    ensures { (result ≢ 1) × (searcher_word workers ≤ number → result ≡ 0) }
{
    if number < PADDING * (workers + workers + 2) && number != PADDING * (workers + 1) {
        FREE
    } else {
        HIDDEN
    }
}

fn first_words(alloc: Global, workers: usize) -> Result<Vec<u64>, AllocError>
    requires { workers ≤ 1024 }
    ensures { IfOk result (λ words. (length words.items ≡ word_count workers) × ((i : ℕ) → slice_index words.items i ≢ 1) × ((i : ℕ) → searcher_word workers ≤ i → slice_index words.items i ≡ 0)) }
{
    let mut words = Vec::new(alloc);
    for number in 0..PADDING * (workers + workers + 4) {
        words.push(first_word(number, workers))?;
    }
    Ok(words)
}

fn leave(place: Place)
    requires owes { (place.seat.me.0.owes ≡ 0) × (place.seat.me.0.right ≡ 0) × (place.seat.me.0.searching ≡ 0) × (place.seat.me.0.asleep ≡ 0) }
    requires heard { place.seat.me.0.interruption ≢ taken }
{
    let Place { seat } = place;
    drop(seat);
}

impl Bells {
    /// The bells of at least one worker and at most `MOST_WORKERS`, whatever `workers` is. No worker is asleep, and no thread has one. An error says that there was no memory.
    pub fn new(alloc: Global, workers: usize) -> Result<Bells, AllocError>
        ensures { IfOk result (λ bells. bells.workers ≡ min (max workers 1) 1024) }
    {
        let workers = workers.max(1).min(MOST_WORKERS);
        let words = first_words(alloc, workers)?;
        let (table, _seat) = Table::of_words(alloc, &words, &workers)?;
        Ok(Bells {
            table,
            workers,
            interruptions: AtomicU64::new(0),
        })
    }

    /// How many workers it has.
    pub fn workers(&self) -> usize
        ensures { result ≡ self.now.workers }
    {
        self.workers
    }

    // The word of a flag: those of queues have the numbers of these, and that of interruptions the next one.
    fn flag_word(&self, flag: usize) -> usize
        requires { flag ≤ self.now.workers + 1 }
        ensures { result ≡ flag_word flag }
    {
        PADDING * flag
    }

    fn worker_word(&self, worker: usize) -> usize
        requires { worker < self.now.workers }
        ensures { result ≡ worker_word self.now.workers worker }
    {
        PADDING * (self.workers + 2 + worker)
    }

    fn searcher_word(&self) -> usize
        ensures { result ≡ searcher_word self.now.workers }
    {
        PADDING * (self.workers + self.workers + 2)
    }

    fn sleepers_word(&self) -> usize
        ensures { result ≡ sleepers_word self.now.workers }
    {
        PADDING * (self.workers + self.workers + 3)
    }

    fn enter(&self) -> Place
        ensures { (result.seat.table_id ≡ self.now.table.shared.table_id) × (result.seat.me ≡ (blank, [])) }
    {
        let word = self.sleepers_word();
        let seat = self.table.shared.load_new_seat::<Enter>(word).1;
        Place { seat }
    }
}
