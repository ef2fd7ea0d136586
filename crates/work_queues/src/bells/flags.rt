//! The flags of queues.
ghost use Rattle.std.specs.Prelude.{◌≡◌, ◌≤◌, ◌<◌, false, IfSome};
ghost use Rattle.work_queues.specs.Duties.{IsFlag, SawNothing};

use super::{Bells, Flag, HIDDEN, NothingShown, Place, SHOWN, Woken};
use crate::watch::{Hide, LookAtFlag, Show};

impl Bells {
    // The right to the flag of a queue, which shows nothing. `None` where somebody has it.
    pub(crate) fn take_flag(&self, queue: usize) -> Option<Flag>
        requires { queue ≤ self.now.workers }
        ensures { IfSome result (λ flag. IsFlag self.now flag × (flag.queue ≡ queue) × (flag.shows ≡ false)) }
    {
        let Place { seat } = self.take(self.flag_word(queue))?;
        Some(Flag {
            queue,
            shows: false,
            seat,
        })
    }

    // The flag shows whether its queue has items. Where it has, a worker is woken, if one sleeps and none searches.
    pub(crate) fn publish(&self, flag: &mut Flag, has_items: bool) -> Option<Woken>
        requires { IsFlag self.now flag.old × (flag.old.queue ≤ self.now.workers) }
        ensures flag { IsFlag self.now flag.new × (flag.new.queue ≡ flag.old.queue) }
        ensures shows { flag.new.shows ≡ has_items }
        ensures woken { IfSome result (λ woken. woken.worker < self.now.workers) }
    {
        let word = self.flag_word(flag.queue);
        let shared = &self.table.shared;
        if has_items {
            if !flag.shows {
                shared.store::<Show>(&mut flag.seat, word, SHOWN);
                flag.shows = true;
            }
            return self.wake_first(&mut flag.seat);
        }
        if flag.shows {
            shared.store::<Hide>(&mut flag.seat, word, HIDDEN);
            flag.shows = false;
        }
        None
    }

    /// Looks at the flag of each queue. `None` where one shows items.
    pub fn shows_none(&self) -> Option<NothingShown>
        ensures { IfSome result (λ none. SawNothing self.now none) }
    {
        let Place { mut seat } = self.enter();
        for queue in 0..self.workers + 1 {
            let word = self.flag_word(queue);
            if self.table.shared.load::<LookAtFlag>(&mut seat, word) == SHOWN {
                return None;
            }
        }
        Some(NothingShown { seat })
    }

    /// Whether the flag of a queue shows items. Nothing is claimed of a look that is over, so it needs no seat.
    pub fn shows(&self, queue: usize) -> bool
        requires { queue ≤ self.now.workers }
    {
        self.table.shared.peek(self.flag_word(queue)) == SHOWN
    }
}
