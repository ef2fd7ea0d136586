//! What the futures of the rows do.
ghost use Rattle.std.specs.Prelude.{◌≡◌, Some, IfSome};
ghost use Rattle.rows_fixtures.specs.Behaviour.{answer_of};

use crate::words::Words;

/// What a future of the rows does when it is polled.
#[derive(Clone, Copy, Debug, PartialEq, Eq)]
pub enum Behaviour {
    /// It answers ready at once, with this number.
    Ready(u64),
    /// It always answers pending, and keeps no waker.
    Pending,
    /// It answers ready at once, with the sum of these numbers.
    Sum(u32, u32),
    /// At each poll it keeps a clone of the waker. It answers pending first, and then ready, with this number.
    Keep(u64),
    /// At each poll it keeps a clone of the waker. It always answers pending.
    KeepPending,
    /// It drops the Task that was kept, and answers ready, with this number.
    DropTask(u64),
    /// It wakes the waker that it is lent and answers pending first, and then ready, with this number.
    Yield(u64),
    /// At each poll it wakes the waker that it is lent, drops the Task that was kept, and answers pending.
    Cancel,
}

impl Behaviour {
    /// The behaviour that these words of a step tell.
    pub fn read(words: &mut Words<'_>) -> Option<Behaviour> {
        let behaviour = match words.next() {
            "ready" => Behaviour::Ready(words.number()?),
            "pending" => Behaviour::Pending,
            "sum" => {
                let first = u32::try_from(words.number()?).ok()?;
                Behaviour::Sum(first, u32::try_from(words.number()?).ok()?)
            }
            "keep" => Behaviour::Keep(words.number()?),
            "keep_pending" => Behaviour::KeepPending,
            "drop_task" => Behaviour::DropTask(words.number()?),
            "yield" => Behaviour::Yield(words.number()?),
            "cancel" => Behaviour::Cancel,
            _ => return None,
        };
        Some(behaviour)
    }

    /// The number that a poll answers, or `None` where it is pending; `again` where the future was polled before.
    pub fn answer(self, again: bool) -> Option<u64>
        ensures { IfSome result (λ number. answer_of self ≡ Some number) }
    {
        match self {
            Behaviour::Ready(number) | Behaviour::DropTask(number) => Some(number),
            Behaviour::Sum(first, second) => Some(u64::from(first) + u64::from(second)),
            Behaviour::Yield(number) | Behaviour::Keep(number) if again => Some(number),
            Behaviour::Pending
            | Behaviour::Keep(_)
            | Behaviour::KeepPending
            | Behaviour::Yield(_)
            | Behaviour::Cancel => None,
        }
    }

    /// Whether each poll keeps a clone of the waker.
    pub fn keeps_waker(self) -> bool {
        matches!(self, Behaviour::Keep(_) | Behaviour::KeepPending)
    }

    /// Whether each poll drops the Task that was kept.
    pub fn drops_task(self) -> bool {
        matches!(self, Behaviour::DropTask(_) | Behaviour::Cancel)
    }

    /// Whether a poll that answers pending wakes the waker that it is lent.
    pub fn yields(self) -> bool {
        matches!(self, Behaviour::Yield(_) | Behaviour::Cancel)
    }
}
