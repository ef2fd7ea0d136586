//! The table of the word: what each row finds, and what it writes.
ghost use Rattle.std.specs.Prelude.{◌≡◌};
ghost use Rattle.task_core.specs.Rows.{row_of};

use crate::acts::Act;
use crate::acts::Act::*;
use crate::table::Count::*;
use crate::table::Edit::*;
use crate::table::Flag::*;
use crate::table::Test::*;

/// A flag of the word.
#[derive(Clone, Copy, Debug, PartialEq, Eq)]
pub enum Flag {
    /// A Runnable exists, or is due when the run ends.
    Scheduled,
    /// A run is polling the future.
    Running,
    /// The future answered Ready.
    Completed,
    /// Cancelled, or the output was claimed or given up.
    Closed,
    /// The Task exists.
    TaskExists,
    /// An awaiter is stored that must be woken.
    Awaiter,
    /// The Task is storing an awaiter.
    Registering,
    /// A party is taking the awaiter.
    Notifying,
}

/// What a row asks of the word that it finds.
#[derive(Clone, Copy, Debug, PartialEq, Eq)]
pub enum Test {
    /// Nothing.
    Always,
    /// The flag is set.
    Is(Flag),
    /// The flag is clear.
    Not(Flag),
    /// Neither completed nor closed.
    Open,
    /// Completed or closed.
    Over,
    /// Scheduled or running.
    Busy,
    /// A register or a notifier is at the awaiter's slot.
    SlotBusy,
    /// The output was not left for the Task.
    NoOutput,
    /// The count is below the limit.
    BelowLimit,
    /// The count is at the limit.
    AtLimit,
    /// Another handle is left.
    OthersLeft,
    /// No other handle is left.
    LastHandle,
    /// No reference is counted.
    NoReference,
    /// A reference is counted.
    SomeReference,
}

/// What a row does to the flags of the word.
#[derive(Clone, Copy, Debug, PartialEq, Eq)]
pub enum Edit {
    /// Nothing.
    Keeps,
    /// Sets the flag.
    Sets(Flag),
    /// Clears it.
    Clears(Flag),
}

/// What a row does to the count.
#[derive(Clone, Copy, Debug, PartialEq, Eq)]
pub enum Count {
    /// Nothing.
    Stays,
    /// One reference more.
    Adds,
    /// One reference less.
    Takes,
    /// The whole word becomes that of an orphan: closed, scheduled once more, and one reference.
    Orphans,
}

/// A row of the table: its act, what it asks of the word, and what it does to the flags and to the count.
#[derive(Clone, Copy, Debug)]
pub struct Row(
    pub Act,
    pub (Test, Test, Test),
    pub (Edit, Edit, Edit, Edit),
    pub Count,
);

/// The rows, in the order of the kinds.
#[rattlefmt::skip]
pub const ROWS: [Row; 38] = [
    Row(GainReference,       (BelowLimit, Always, Always),                 (Keeps, Keeps, Keeps, Keeps),            Adds),
    Row(FindLimit,           (AtLimit, Always, Always),                    (Keeps, Keeps, Keeps, Keeps),            Stays),
    Row(DropWaker,           (OthersLeft, Always, Always),                 (Keeps, Keeps, Keeps, Keeps),            Takes),
    Row(DropLastWaker,       (LastHandle, Over, Always),                   (Keeps, Keeps, Keeps, Keeps),            Takes),
    Row(OrphanTask,          (LastHandle, Open, Always),                   (Keeps, Keeps, Keeps, Keeps),            Takes),
    Row(CloseOrphan,         (Always, Always, Always),                     (Keeps, Keeps, Keeps, Keeps),            Orphans),
    Row(GiveUpReference,     (OthersLeft, Always, Always),                 (Keeps, Keeps, Keeps, Keeps),            Takes),
    Row(GiveUpLastReference, (LastHandle, Always, Always),                 (Keeps, Keeps, Keeps, Keeps),            Takes),
    Row(WakeOver,            (Over, Always, Always),                       (Keeps, Keeps, Keeps, Keeps),            Stays),
    Row(WakeScheduled,       (Open, Is(Scheduled), Always),                (Keeps, Keeps, Keeps, Keeps),            Stays),
    Row(WakeRunning,         (Open, Not(Scheduled), Is(Running)),          (Sets(Scheduled), Keeps, Keeps, Keeps),  Stays),
    Row(WakeIdle,            (Open, Not(Scheduled), Not(Running)),         (Sets(Scheduled), Keeps, Keeps, Keeps),  Adds),
    Row(DiscardOpen,         (Not(Closed), Always, Always),                (Sets(Closed), Keeps, Keeps, Keeps),     Stays),
    Row(DiscardClosed,       (Is(Closed), Always, Always),                 (Keeps, Keeps, Keeps, Keeps),            Stays),
    Row(CancelOver,          (Over, Always, Always),                       (Keeps, Keeps, Keeps, Keeps),            Stays),
    Row(CancelBusy,          (Open, Busy, Always),                         (Sets(Closed), Keeps, Keeps, Keeps),     Stays),
    Row(CancelIdle,          (Open, Not(Scheduled), Not(Running)),         (Sets(Scheduled), Sets(Closed), Keeps, Keeps), Adds),
    Row(ClaimOutput,         (Is(Completed), Not(Closed), Always),         (Sets(Closed), Keeps, Keeps, Keeps),     Stays),
    Row(GiveUpOutput,        (Is(Completed), Not(Closed), Always),         (Sets(Closed), Keeps, Keeps, Keeps),     Stays),
    Row(DetachOrphan,        (NoReference, Open, Always),                  (Keeps, Keeps, Keeps, Keeps),            Orphans),
    Row(DetachLast,          (NoReference, Is(Closed), Always),            (Clears(TaskExists), Keeps, Keeps, Keeps), Stays),
    Row(Detach,              (SomeReference, NoOutput, Always),            (Clears(TaskExists), Keeps, Keeps, Keeps), Stays),
    Row(TakeUpClosed,        (Is(Closed), Always, Always),                 (Keeps, Keeps, Keeps, Keeps),            Stays),
    Row(StartRun,            (Not(Closed), Always, Always),                (Clears(Scheduled), Sets(Running), Keeps, Keeps), Stays),
    Row(Unschedule,          (Always, Always, Always),                     (Clears(Scheduled), Keeps, Keeps, Keeps), Stays),
    Row(Complete,            (Is(TaskExists), Always, Always),             (Clears(Running), Clears(Scheduled), Sets(Completed), Keeps), Stays),
    Row(CompleteDetached,    (Not(TaskExists), Always, Always),            (Clears(Running), Clears(Scheduled), Sets(Completed), Sets(Closed)), Stays),
    Row(EndClosed,           (Is(Closed), Always, Always),                 (Clears(Running), Clears(Scheduled), Keeps, Keeps), Stays),
    Row(Reschedule,          (Not(Closed), Is(Scheduled), Always),         (Clears(Running), Keeps, Keeps, Keeps),  Stays),
    Row(EndIdle,             (Not(Closed), Not(Scheduled), OthersLeft),    (Clears(Running), Keeps, Keeps, Keeps),  Takes),
    Row(EndOrphaned,         (Not(Closed), Not(Scheduled), LastHandle),    (Keeps, Keeps, Keeps, Keeps),            Orphans),
    Row(BeginNotify,         (Not(Notifying), Not(Registering), Always),   (Sets(Notifying), Keeps, Keeps, Keeps),  Stays),
    Row(MissNotify,          (SlotBusy, Always, Always),                   (Sets(Notifying), Keeps, Keeps, Keeps),  Stays),
    Row(FindNotify,          (Is(Notifying), Always, Always),              (Keeps, Keeps, Keeps, Keeps),            Stays),
    Row(BeginRegister,       (Not(Notifying), Always, Always),             (Sets(Registering), Keeps, Keeps, Keeps), Stays),
    Row(EndNotify,           (Always, Always, Always),                     (Clears(Notifying), Clears(Awaiter), Keeps, Keeps), Stays),
    Row(EndRegister,         (Not(Notifying), Always, Always),             (Clears(Registering), Sets(Awaiter), Keeps, Keeps), Stays),
    Row(EndRegisterNotified, (Is(Notifying), Always, Always),              (Clears(Registering), Clears(Notifying), Clears(Awaiter), Keeps), Stays),
];

/// The row of an act. `None` for a load and a private act.
#[inline(always)]
pub fn row_of(act: Act) -> Option<Row>
    ensures { result ≡ row_of act }
{
    ROWS.iter().copied().find(|row| row.0 == act)
}
