//! How a party goes on, where that depends on more than its position: the small definitions of the table of moves.
ghost use Rattle.std.specs.Prelude.{◌≡◌};
ghost use Rattle.task_laws.specs.Table as table;

use task_laws::positions::{Answer, NotifyingCall, OnceDelivered, PollAnswer, Position, Rest};

/// The way on once an awaiter was taken, or was not.
pub(crate) fn after_taking(hand: Option<u64>, way: NotifyingCall) -> Position
    ensures { result ≡ table.after_taking hand way }
{
    match way {
        NotifyingCall::OfRun => Position::GivingUp(hand, Answer::Ran(false)),
        _ => match hand {
            Some(i) => Position::AwaiterInHand(i, way),
            None => after_waking(way),
        },
    }
}

/// An awaiter is to be taken where AWAITER was found.
pub(crate) fn notifies(awaiter: bool, way: NotifyingCall) -> Position
    ensures { result ≡ table.notifies awaiter way }
{
    if awaiter {
        Position::Notifier(way)
    } else {
        after_taking(None, way)
    }
}

/// The way on once the Runnable was handed over.
pub(crate) fn after_handing_over(after: OnceDelivered) -> Position
    ensures { result ≡ table.after_handing_over after }
{
    match after {
        OnceDelivered::ThenEnds(answer) => Position::CallEnding(answer, Rest::Ended),
        OnceDelivered::ThenTask(n) => Position::CallEnding(Answer::Nothing, Rest::Task(n)),
        OnceDelivered::ThenNotifies(n) => Position::Notifier(NotifyingCall::OfCancel(n)),
    }
}

/// The way on once the awaiter in hand was woken or dropped.
pub(crate) fn after_waking(way: NotifyingCall) -> Position
    ensures { result ≡ table.after_waking way }
{
    match way {
        NotifyingCall::OfRun => Position::CallEnding(Answer::Ran(false), Rest::Ended),
        NotifyingCall::OfDrop => Position::GivingUp(None, Answer::Nothing),
        NotifyingCall::OfCancel(n) => Position::CallEnding(Answer::Nothing, Rest::Task(n)),
        NotifyingCall::OfPoll(n) => Position::Answering(n, PollAnswer::IsClosed),
        NotifyingCall::OfClaim(n) => Position::TookOutput(n),
    }
}

/// The way on once the reference was given up, with that awaiter in hand.
pub(crate) fn after_giving_up(hand: Option<u64>, answer: Answer) -> Position
    ensures { result ≡ table.after_giving_up hand answer }
{
    match hand {
        Some(i) => Position::AwaiterInHand(i, NotifyingCall::OfRun),
        None => Position::CallEnding(answer, Rest::Ended),
    }
}
