//! The rule of sleep, and the names of the steps on it.
ghost use Rattle.work_queues.specs.Sleep.{Watch, blank, Enters, EntersOwing, Takes, GivesBack, Shows, Hides, Interrupts, LooksWhetherDue, Hears, Permits, Rouses, LooksForSleepers, LooksForSearcher, LooksAtWorker, Wakes, LooksAtFlag, Settles, BeginsSearch, EndsSearch, Counts, LiesDown, GetsUp, CountsNot};

use crate::view::View;
use atomic_table::{Play, TableRule};

/// While a queue shows an item, or an interruption is due, and a worker sleeps: a wake is on its way to a worker, or one searches, or somebody owes a look.
#[derive(Clone, Copy)]
pub struct Sleep;

impl<S> TableRule<S, View, usize> for Sleep {
    ghost holds = { λ workers. Watch workers };

    ghost first = { λ _. blank };
}

/// A load that makes a seat, which owes nothing.
pub struct Enter;

impl<S> Play<S, View> for Enter {
    ghost then = { Enters };
}

/// A load that makes a seat, which owes all looks.
pub struct EnterOwing;

impl<S> Play<S, View> for EnterOwing {
    ghost then = { EntersOwing };
}

/// The right to a word that nobody has.
pub struct Take;

impl<S> Play<S, View> for Take {
    ghost then = { Takes };
}

/// The right to a word is given back.
pub struct GiveBack;

impl<S> Play<S, View> for GiveBack {
    ghost then = { GivesBack };
}

/// The flag of a queue shows an item.
pub struct Show;

impl<S> Play<S, View> for Show {
    ghost then = { Shows };
}

/// The flag of a queue shows none.
pub struct Hide;

impl<S> Play<S, View> for Hide {
    ghost then = { Hides };
}

/// An interruption is due.
pub struct Interrupt;

impl<S> Play<S, View> for Interrupt {
    ghost then = { Interrupts };
}

/// A look whether an interruption is due.
pub struct LookWhetherDue;

impl<S> Play<S, View> for LookWhetherDue {
    ghost then = { LooksWhetherDue };
}

/// The interruption that was due is taken.
pub struct Hear;

impl<S> Play<S, View> for Hear {
    ghost then = { Hears };
}

/// A worker that is awake is interrupted.
pub struct Permit;

impl<S> Play<S, View> for Permit {
    ghost then = { Permits };
}

/// A worker that was asleep is woken.
pub struct Rouse;

impl<S> Play<S, View> for Rouse {
    ghost then = { Rouses };
}

/// A look whether a worker sleeps.
pub struct LookForSleepers;

impl<S> Play<S, View> for LookForSleepers {
    ghost then = { LooksForSleepers };
}

/// A look whether a worker searches.
pub struct LookForSearcher;

impl<S> Play<S, View> for LookForSearcher {
    ghost then = { LooksForSearcher };
}

/// A look at a worker.
pub struct LookAtWorker;

impl<S> Play<S, View> for LookAtWorker {
    ghost then = { LooksAtWorker };
}

/// A sleeping worker is woken.
pub struct Wake;

impl<S> Play<S, View> for Wake {
    ghost then = { Wakes };
}

/// A look at a flag.
pub struct LookAtFlag;

impl<S> Play<S, View> for LookAtFlag {
    ghost then = { LooksAtFlag };
}

/// All looks are done.
pub struct Settle;

impl<S> Play<S, View> for Settle {
    ghost then = { Settles };
}

/// A worker is the searcher, where there is none.
pub struct BeginSearch;

impl<S> Play<S, View> for BeginSearch {
    ghost then = { BeginsSearch };
}

/// There is no searcher from here on.
pub struct EndSearch;

impl<S> Play<S, View> for EndSearch {
    ghost then = { EndsSearch };
}

/// A worker counts as a sleeper.
pub struct Count;

impl<S> Play<S, View> for Count {
    ghost then = { Counts };
}

/// A worker is asleep from here on.
pub struct LieDown;

impl<S> Play<S, View> for LieDown {
    ghost then = { LiesDown };
}

/// A worker is awake from here on.
pub struct GetUp;

impl<S> Play<S, View> for GetUp {
    ghost then = { GetsUp };
}

/// A worker counts as no sleeper from here on.
pub struct CountNot;

impl<S> Play<S, View> for CountNot {
    ghost then = { CountsNot };
}
