//! What a party does: the rows of the table of moves, loads and private acts.

/// A row of the table of moves, a load of the word, or a private act of one party.
#[derive(Clone, Copy, Debug, PartialEq, Eq)]
pub enum Act {
    /// A reference is gained below the limit.
    GainReference,
    /// A reference is refused at the limit.
    FindLimit,
    /// A waker is dropped while another handle is left.
    DropWaker,
    /// The last handle, a waker, is dropped, and the task is over.
    DropLastWaker,
    /// The last handle, a waker, is dropped, and the task is open.
    OrphanTask,
    /// The task that was left open is closed and scheduled.
    CloseOrphan,
    /// A run or a Runnable's drop gives its reference up while another handle is left.
    GiveUpReference,
    /// A run or a Runnable's drop gives the last reference up.
    GiveUpLastReference,
    /// A wake of a task that is over.
    WakeOver,
    /// A wake of a scheduled task.
    WakeScheduled,
    /// A wake of a running task.
    WakeRunning,
    /// A wake of an idle task, which makes a Runnable.
    WakeIdle,
    /// The drop of a Runnable closes the task.
    DiscardOpen,
    /// The drop of a Runnable finds the task closed.
    DiscardClosed,
    /// A cancel of a task that is over.
    CancelOver,
    /// A cancel of a scheduled or running task.
    CancelBusy,
    /// A cancel of an idle task, which makes a Runnable.
    CancelIdle,
    /// A poll takes the output of a completed task.
    ClaimOutput,
    /// A detach takes the output of a completed task.
    GiveUpOutput,
    /// A detach of an open task without references, which makes a Runnable.
    DetachOrphan,
    /// A detach without references.
    DetachLast,
    /// A detach with references left.
    Detach,
    /// A run finds the task closed.
    TakeUpClosed,
    /// A run starts.
    StartRun,
    /// A run of a closed task, or a Runnable's drop, clears SCHEDULED.
    Unschedule,
    /// A run ends Ready while the Task exists.
    Complete,
    /// A run ends Ready after the Task has gone.
    CompleteDetached,
    /// A run ends Pending on a closed task.
    EndClosed,
    /// A run ends Pending on a task that was woken meanwhile.
    Reschedule,
    /// A run ends Pending.
    EndIdle,
    /// A run ends Pending with the last reference of a detached open task.
    EndOrphaned,
    /// The awaiter slot is taken by a notifier.
    BeginNotify,
    /// The awaiter slot is not free.
    MissNotify,
    /// A register finds a notifier.
    FindNotify,
    /// The awaiter slot is taken by a register.
    BeginRegister,
    /// A notifier releases the awaiter slot.
    EndNotify,
    /// A register releases the awaiter slot.
    EndRegister,
    /// A register releases the awaiter slot, since a notifier came meanwhile.
    EndRegisterNotified,
    /// A load of a poll.
    Look,
    /// The load of `is_finished`.
    LookFinished,
    /// The poll of the future starts.
    StartPoll,
    /// The poll of the future answers Pending.
    AnswerPending,
    /// The poll of the future answers Ready.
    AnswerReady,
    /// The future is dropped.
    DropFuture,
    /// The output is stored.
    StoreOutput,
    /// The output is dropped.
    DropOutput,
    /// The output is handed out.
    HandOutOutput,
    /// The caller's awaiter is cloned.
    CloneAwaiter,
    /// The caller's awaiter refuses to be cloned.
    RefuseClone,
    /// The clone is stored.
    StoreAwaiter,
    /// The awaiter is taken out of its slot.
    TakeAwaiter,
    /// The awaiter in hand is woken.
    WakeAwaiter,
    /// The awaiter in hand is dropped.
    DropAwaiter,
    /// A Runnable is handed to the schedule value.
    HandOver,
    /// The slots are emptied.
    EmptySlots,
    /// A reference is refused for want of memory.
    RefuseGain,
    /// The call ends.
    EndCall,
}

/// How each act is written: the name of its variant in lower case, the words joined by hyphens. In the order of the table of moves.
pub const NAMES: [(Act, &str); 57] = [
    (Act::GainReference, "gain-reference"),
    (Act::FindLimit, "find-limit"),
    (Act::DropWaker, "drop-waker"),
    (Act::DropLastWaker, "drop-last-waker"),
    (Act::OrphanTask, "orphan-task"),
    (Act::CloseOrphan, "close-orphan"),
    (Act::GiveUpReference, "give-up-reference"),
    (Act::GiveUpLastReference, "give-up-last-reference"),
    (Act::WakeOver, "wake-over"),
    (Act::WakeScheduled, "wake-scheduled"),
    (Act::WakeRunning, "wake-running"),
    (Act::WakeIdle, "wake-idle"),
    (Act::DiscardOpen, "discard-open"),
    (Act::DiscardClosed, "discard-closed"),
    (Act::CancelOver, "cancel-over"),
    (Act::CancelBusy, "cancel-busy"),
    (Act::CancelIdle, "cancel-idle"),
    (Act::ClaimOutput, "claim-output"),
    (Act::GiveUpOutput, "give-up-output"),
    (Act::DetachOrphan, "detach-orphan"),
    (Act::DetachLast, "detach-last"),
    (Act::Detach, "detach"),
    (Act::TakeUpClosed, "take-up-closed"),
    (Act::StartRun, "start-run"),
    (Act::Unschedule, "unschedule"),
    (Act::Complete, "complete"),
    (Act::CompleteDetached, "complete-detached"),
    (Act::EndClosed, "end-closed"),
    (Act::Reschedule, "reschedule"),
    (Act::EndIdle, "end-idle"),
    (Act::EndOrphaned, "end-orphaned"),
    (Act::BeginNotify, "begin-notify"),
    (Act::MissNotify, "miss-notify"),
    (Act::FindNotify, "find-notify"),
    (Act::BeginRegister, "begin-register"),
    (Act::EndNotify, "end-notify"),
    (Act::EndRegister, "end-register"),
    (Act::EndRegisterNotified, "end-register-notified"),
    (Act::Look, "look"),
    (Act::LookFinished, "look-finished"),
    (Act::StartPoll, "start-poll"),
    (Act::AnswerPending, "answer-pending"),
    (Act::AnswerReady, "answer-ready"),
    (Act::DropFuture, "drop-future"),
    (Act::StoreOutput, "store-output"),
    (Act::DropOutput, "drop-output"),
    (Act::HandOutOutput, "hand-out-output"),
    (Act::CloneAwaiter, "clone-awaiter"),
    (Act::RefuseClone, "refuse-clone"),
    (Act::StoreAwaiter, "store-awaiter"),
    (Act::TakeAwaiter, "take-awaiter"),
    (Act::WakeAwaiter, "wake-awaiter"),
    (Act::DropAwaiter, "drop-awaiter"),
    (Act::HandOver, "hand-over"),
    (Act::EmptySlots, "empty-slots"),
    (Act::RefuseGain, "refuse-gain"),
    (Act::EndCall, "end-call"),
];
