//! The word that an act writes, by its row.
ghost use Rattle.std.specs.Prelude.{◌≡◌, true, ◌<◌, ◌-◌, ◌^◌};
ghost use Rattle.task_core.specs.Rows.{found, written, row, row_of, mask_of, is_set, meets, and_meets, meets_all, edited, edit_all, counted, gains, gains_by};

use crate::acts::Act;
use crate::table::Count::*;
use crate::table::Edit::*;
use crate::table::Flag::*;
use crate::table::Test::*;
use crate::table::{Count, Edit, Flag, Row, Test, row_of};
use crate::word::{
    AWAITER, CLOSED, COMPLETED, NOTIFYING, REGISTERING, RUNNING, SCHEDULED, TASK, Word,
};

impl Flag {
    /// Its place in the number that memory holds.
    #[inline(always)]
    pub fn mask(self) -> u64
        ensures { result ≡ mask_of self }
    {
        match self {
            Scheduled => SCHEDULED,
            Running => RUNNING,
            Completed => COMPLETED,
            Closed => CLOSED,
            TaskExists => TASK,
            Awaiter => AWAITER,
            Registering => REGISTERING,
            Notifying => NOTIFYING,
        }
    }
}

/// Steps by rows. With an act that is known when the program is built, only the masks of its row are left.
impl Word {
    /// Whether a flag is set.
    #[inline(always)]
    pub fn has(self, flag: Flag) -> bool
        ensures { result ≡ is_set flag self }
    {
        match flag {
            Scheduled => self.scheduled(),
            Running => self.running(),
            Completed => self.completed(),
            Closed => self.closed(),
            TaskExists => self.task(),
            Awaiter => self.awaiter(),
            Registering => self.registering(),
            Notifying => self.notifying(),
        }
    }

    /// Whether the word meets a test, where up to `limit` references wakers are gained.
    #[inline(always)]
    pub fn meets(self, limit: u64, test: Test) -> bool
        ensures { result ≡ meets limit test self }
    {
        match test {
            Always => true,
            Is(flag) => self.has(flag),
            Not(flag) => !self.has(flag),
            Open => self.is_open(),
            Over => self.is_over(),
            Busy => self.scheduled() || self.running(),
            SlotBusy => self.notifying() || self.registering(),
            NoOutput => !(self.completed() && !self.closed()),
            BelowLimit => self.references() < limit,
            AtLimit => limit <= self.references(),
            OthersLeft => 1 < self.references() || self.task(),
            LastHandle => self.references() == 1 && !self.task(),
            NoReference => self.references() == 0,
            SomeReference => 0 < self.references(),
        }
    }

    /// The word with a flag edited.
    #[inline(always)]
    pub fn edited(self, edit: Edit) -> Word
        ensures word { result ≡ edited edit self }
        ensures count { result.references ≡ self.references }
    {
        match edit {
            Keeps => self,
            Sets(flag) => self.with(flag.mask()),
            Clears(flag) => self.without(flag.mask()),
        }
    }

    /// The word with its count edited.
    #[inline(always)]
    pub fn counted(self, count: Count) -> Word
        requires room { gains count ≡ true → self.references < 2 ^ 56 - 1 }
        ensures { result ≡ counted count self }
    {
        match count {
            Stays => self,
            Adds => self.with_reference(),
            Takes => self.without_reference(),
            Orphans => Word::orphan(),
        }
    }

    // Whether a fact holds, and the word meets a test too.
    #[inline(always)]
    fn also_meets(self, limit: u64, before: bool, test: Test) -> bool
        ensures { result ≡ and_meets limit before test self }
    {
        match test {
            Always => before,
            _ => before && self.meets(limit, test),
        }
    }

    // Whether the word meets what a row asks of it.
    #[inline(always)]
    fn meets_all(self, limit: u64, tests: (Test, Test, Test)) -> bool
        ensures { result ≡ meets_all limit tests self }
    {
        let first = self.meets(limit, tests.0);
        let second = self.also_meets(limit, first, tests.1);
        self.also_meets(limit, second, tests.2)
    }

    // The word with its flags edited.
    #[inline(always)]
    fn edited_all(self, edits: (Edit, Edit, Edit, Edit)) -> Word
        ensures word { result ≡ edit_all edits self }
        ensures count { result.references ≡ self.references }
    {
        self.edited(edits.0)
            .edited(edits.1)
            .edited(edits.2)
            .edited(edits.3)
    }

    /// Whether an act's row fits the word found. A load and a private act fit each word.
    #[inline(always)]
    pub fn fits(self, limit: u64, act: Act) -> bool
        ensures { result ≡ found limit act self }
    {
        match row_of(act) {
            Some(Row(_, finds, _, _)) => self.meets_all(limit, finds),
            None => true,
        }
    }

    /// The word that an act writes, where its row fits the word found. A load and a private act write nothing.
    #[inline(always)]
    pub fn written(self, act: Act) -> Word
        requires room { gains_by (row_of act) ≡ true → self.references < 2 ^ 56 - 1 }
        ensures { result ≡ written act self }
    {
        match row_of(act) {
            Some(Row(_, _, edits, count)) => self.edited_all(edits).counted(count),
            None => self,
        }
    }

    /// The word that an act writes, or `None` where its row does not fit the word found.
    #[inline(always)]
    pub fn by_row(self, limit: u64, act: Act) -> Option<Word>
        requires room { gains_by (row_of act) ≡ true → self.references < 2 ^ 56 - 1 }
        ensures { result ≡ row limit act self }
    {
        if self.fits(limit, act) {
            Some(self.written(act))
        } else {
            None
        }
    }
}
