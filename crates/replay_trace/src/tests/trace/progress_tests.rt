//! How far each party is in its call: how many steps it has left at most, and an act that it may make now.
//! Of what is only tested (crates/task_replay/README.md): Text.

use crate::tests::trace::trace_tests::{READY, prints};
use task_replay::row::Shown;

// The rows of a run whose poll answers Ready, and of the Task that drops afterwards.
const READY_ROWS: &str = "\
| 1 | 0 start-run | 0x112 | RUNNING TASK | 1 | party 0 | empty | empty | 0 Starting (13 left, may start-poll), 1 At(Task(0)), 2 At(Lent) |
| 2 | 0 start-poll | 0x112 | RUNNING TASK | 1 | party 0 | empty | empty | 0 Polling (12 left, may answer-pending), 1 At(Task(0)), 2 At(Lent) |
| 3 | 0 answer-ready | 0x112 | RUNNING TASK | 1 | party 0 | empty | empty | 0 Ready (11 left, may drop-future), 1 At(Task(0)), 2 At(Lent) |
| 4 | 0 drop-future | 0x112 | RUNNING TASK | 1 | empty | empty | empty | 0 ReadyFutureDropped (10 left, may store-output), 1 At(Task(0)), 2 At(Lent) |
| 5 | 0 store-output | 0x112 | RUNNING TASK | 1 | empty | party 0 | empty | 0 OutputStored (9 left, may complete), 1 At(Task(0)), 2 At(Lent) |
| 6 | 0 complete | 0x114 | COMPLETED TASK | 1 | empty | cell | empty | 0 GivingUp(None, Ran(false)) (3 left, may give-up-reference), 1 At(Task(0)), 2 At(Lent) |
| 7 | 0 give-up-reference | 0x014 | COMPLETED TASK | 0 | empty | cell | empty | 0 CallEnding(Ran(false), Ended) (1 left, may end-call), 1 At(Task(0)), 2 At(Lent) |
| 8 | 0 end-call | 0x014 | COMPLETED TASK | 0 | empty | cell | empty | 1 At(Task(0)), 2 At(Lent) |
| 9 | 1 claim-output | 0x01C | COMPLETED CLOSED TASK | 0 | empty | party 1 | empty | 1 TookOutput(1) (2 left, may hand-out-output), 2 At(Lent) |
";

// A second poll registers while the Runnable is dropped: the notifier goes on, and the Task takes its clone back.
const DROPPED: &str = "limit 4
1 look
1 clone-awaiter
1 begin-register
1 store-awaiter
1 end-register
1 look
1 end-call
1 look
1 clone-awaiter
1 begin-register
0 discard-open
0 drop-future
0 unschedule
0 miss-notify
1 store-awaiter
1 drop-awaiter
";

const DROPPED_ROWS: &str = "\
| 1 | 1 look | 0x111 | SCHEDULED TASK | 1 | cell | empty | empty | 0 At(Runnable), 1 Registrar(1) (15 left, may clone-awaiter), 2 At(Lent) |
| 2 | 1 clone-awaiter | 0x111 | SCHEDULED TASK | 1 | cell | empty | empty | 0 At(Runnable), 1 HasClone(1) (14 left, may begin-register), 2 At(Lent) |
| 3 | 1 begin-register | 0x151 | SCHEDULED TASK REGISTERING | 1 | cell | empty | empty | 0 At(Runnable), 1 Storing(1) (13 left, may store-awaiter), 2 At(Lent) |
| 4 | 1 store-awaiter | 0x151 | SCHEDULED TASK REGISTERING | 1 | cell | empty | party 1, of poll 1 | 0 At(Runnable), 1 Registered(1) (11 left, may end-register), 2 At(Lent) |
| 5 | 1 end-register | 0x131 | SCHEDULED TASK AWAITER | 1 | cell | empty | cell, of poll 1 | 0 At(Runnable), 1 Looking(1) (8 left, may look), 2 At(Lent) |
| 6 | 1 look | 0x131 | SCHEDULED TASK AWAITER | 1 | cell | empty | cell, of poll 1 | 0 At(Runnable), 1 Answering(1, IsPending) (1 left, may end-call), 2 At(Lent) |
| 7 | 1 end-call | 0x131 | SCHEDULED TASK AWAITER | 1 | cell | empty | cell, of poll 1 | 0 At(Runnable), 1 At(Task(1)), 2 At(Lent) |
| 8 | 1 look | 0x131 | SCHEDULED TASK AWAITER | 1 | cell | empty | cell, of poll 1 | 0 At(Runnable), 1 Registrar(2) (15 left, may clone-awaiter), 2 At(Lent) |
| 9 | 1 clone-awaiter | 0x131 | SCHEDULED TASK AWAITER | 1 | cell | empty | cell, of poll 1 | 0 At(Runnable), 1 HasClone(2) (14 left, may begin-register), 2 At(Lent) |
| 10 | 1 begin-register | 0x171 | SCHEDULED TASK AWAITER REGISTERING | 1 | cell | empty | party 1, of poll 1 | 0 At(Runnable), 1 Storing(2) (13 left, may store-awaiter), 2 At(Lent) |
| 11 | 0 discard-open | 0x179 | SCHEDULED CLOSED TASK AWAITER REGISTERING | 1 | party 0 | empty | party 1, of poll 1 | 0 FutureInHand(DroppedRunnable) (9 left, may drop-future), 1 Storing(2) (13 left, may store-awaiter), 2 At(Lent) |
| 12 | 0 drop-future | 0x179 | SCHEDULED CLOSED TASK AWAITER REGISTERING | 1 | empty | empty | party 1, of poll 1 | 0 FutureGone(DroppedRunnable) (8 left, may unschedule), 1 Storing(2) (13 left, may store-awaiter), 2 At(Lent) |
| 13 | 0 unschedule | 0x178 | CLOSED TASK AWAITER REGISTERING | 1 | empty | empty | party 1, of poll 1 | 0 Notifier(OfDrop) (7 left, may miss-notify), 1 Storing(2) (13 left, may store-awaiter), 2 At(Lent) |
| 14 | 0 miss-notify | 0x1F8 | CLOSED TASK AWAITER REGISTERING NOTIFYING | 1 | empty | empty | party 1, of poll 1 | 0 GivingUp(None, Nothing) (3 left, may give-up-reference), 1 Storing(2) (13 left, may store-awaiter), 2 At(Lent) |
| 15 | 1 store-awaiter | 0x1F8 | CLOSED TASK AWAITER REGISTERING NOTIFYING | 1 | empty | empty | party 1, of poll 2 | 0 GivingUp(None, Nothing) (3 left, may give-up-reference), 1 OldAwaiterInHand(2, 1) (12 left, may drop-awaiter), 2 At(Lent) |
| 16 | 1 drop-awaiter | 0x1F8 | CLOSED TASK AWAITER REGISTERING NOTIFYING | 1 | empty | empty | party 1, of poll 2 | 0 GivingUp(None, Nothing) (3 left, may give-up-reference), 1 Registered(2) (11 left, may take-awaiter), 2 At(Lent) |
";

#[test]
fn a_row_shows_how_far_each_party_is(rt: HostRuntime) {
    prints(&rt, rt.alloc(), Shown::Progress, READY, READY_ROWS);
    prints(&rt, rt.alloc(), Shown::Progress, DROPPED, DROPPED_ROWS);
}
