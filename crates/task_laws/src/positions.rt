//! Where a party stands in its call, and what calls answer.

/// What a poll of the Task answers.
#[derive(Clone, Copy, Debug, PartialEq, Eq)]
pub enum PollAnswer {
    /// The task is not over, or its future is still held by a Runnable.
    IsPending,
    /// The task is closed, and has no output.
    IsClosed,
    /// The task is completed, and its output is handed out.
    HasOutput,
    /// The awaiter's clone was refused.
    IsRefused,
}

/// What any other call answers.
#[derive(Clone, Copy, Debug, PartialEq, Eq)]
pub enum Answer {
    /// The call answers nothing.
    Nothing,
    /// A run: whether the task was woken while it ran.
    Ran(bool),
    /// A reference was asked for: whether it was gained.
    Gained(bool),
    /// Whether the task is completed or closed.
    Finished(bool),
}

/// A party between two calls.
#[derive(Clone, Copy, Debug, PartialEq, Eq)]
pub enum Rest {
    /// A Runnable, which holds a reference.
    Runnable,
    /// A waker, which holds a reference.
    Waker,
    /// A waker that a call has by reference, which holds none.
    Lent,
    /// A party that has given up all that it had.
    Ended,
    /// The Task, with how many polls it has begun.
    Task(u64),
}

/// Who took the future over without a poll.
#[derive(Clone, Copy, Debug, PartialEq, Eq)]
pub enum WithoutPoll {
    /// A run of a task that was closed before it was taken up.
    ClosedRun,
    /// A Runnable that is dropped.
    DroppedRunnable,
}

/// In which call an awaiter is taken.
#[derive(Clone, Copy, Debug, PartialEq, Eq)]
pub enum NotifyingCall {
    /// In a run.
    OfRun,
    /// In the drop of a Runnable.
    OfDrop,
    /// In a cancel, by a Task, with how many polls that has begun.
    OfCancel(u64),
    /// In the poll of this number, which answers ready without output.
    OfPoll(u64),
    /// In the poll of this number, which hands the output out.
    OfClaim(u64),
}

/// What a deliverer does when it has handed the Runnable over.
#[derive(Clone, Copy, Debug, PartialEq, Eq)]
pub enum OnceDelivered {
    /// Its call ends with this answer, and the party with it.
    ThenEnds(Answer),
    /// Its call ends, and the party is the Task, with how many polls that has begun.
    ThenTask(u64),
    /// The Task takes the awaiter, with how many polls it has begun.
    ThenNotifies(u64),
}

/// Where a party stands in its call. Polls of the Task, and the awaiters that they clone, go by number, from 1 on.
#[derive(Clone, Copy, Debug, PartialEq, Eq)]
pub enum Position {
    /// Between two calls.
    At(Rest),
    /// The call is about to end with this answer.
    CallEnding(Answer, Rest),
    /// About to hand a Runnable over, with `woken_while_running` as told.
    Deliverer(bool, OnceDelivered),
    /// A run that has started, before its poll.
    Starting,
    /// A run that polls the future.
    Polling,
    /// A run whose poll answered Pending.
    Pending,
    /// A run whose poll answered Ready.
    Ready,
    /// A run whose poll answered Ready, and which has dropped the future.
    ReadyFutureDropped,
    /// A run whose poll answered Ready, and which has stored the output.
    OutputStored,
    /// A run whose poll answered Pending, and which has dropped the future of a closed task.
    PendingFutureDropped,
    /// The future is in hand, to be dropped.
    FutureInHand(WithoutPoll),
    /// The future was dropped.
    FutureGone(WithoutPoll),
    /// A run after its end step, with the output to be dropped; whether an awaiter is to be taken then.
    OutputInHand(bool),
    /// About to give the reference up, with the awaiter that was taken.
    GivingUp(Option<u64>, Answer),
    /// The last party, about to empty the slots.
    Emptier(Option<u64>, Answer),
    /// An awaiter is to be taken.
    Notifier(NotifyingCall),
    /// The awaiter slot is owned, to be emptied.
    Taker(NotifyingCall),
    /// The awaiter slot was emptied, and is to be released.
    Releaser(Option<u64>, NotifyingCall),
    /// The awaiter that was taken is in hand, to be woken or dropped.
    AwaiterInHand(u64, NotifyingCall),
    /// The last waker of a detached open task has given its reference up.
    OrphanHolder,
    /// A poll that is to clone the caller's awaiter.
    Registrar(u64),
    /// A poll with the clone in hand.
    HasClone(u64),
    /// A poll that found a notifier and has woken the caller, with the clone to be dropped.
    UnusedClone(u64),
    /// A poll that owns the awaiter slot.
    Storing(u64),
    /// A poll that has stored its clone.
    Registered(u64),
    /// A poll that has taken its clone out again.
    TookBack(u64),
    /// A poll with its own clone in hand, to be woken.
    CloneInHand(u64),
    /// A poll that has registered, and is to look at the word again.
    Looking(u64),
    /// A poll that found the task completed and open.
    SawOutput(u64),
    /// A poll that has the output.
    TookOutput(u64),
    /// A poll that has stored its clone, with the awaiter of an older poll in hand.
    OldAwaiterInHand(u64, u64),
    /// A poll that is about to answer.
    Answering(u64, PollAnswer),
    /// A detach that has the output, to be dropped.
    OutputCloser,
    /// A detach that has dropped the output.
    Detacher,
}
