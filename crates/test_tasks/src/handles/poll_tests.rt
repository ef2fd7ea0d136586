//! Tests of calls that a second thread makes while the future is polled, or while a Task registers: the drop of the older awaiter is the one place for that.
//! Of what is only tested (docs/PROOFS.md): Threads.

use crate::handles::check::check_script;
use async_task::{TaskClosed, TaskPoll};
use rows_fixtures::behaviour::Behaviour;
use rows_fixtures::counters::Counts;
use rows_fixtures::counting::Counting;
use rows_fixtures::fixture::Fixture;
use rows_fixtures::flag::Flag;
use rows_fixtures::output::is_ready_with;
use rows_fixtures::rendezvous::Rendezvous;
use rows_fixtures::surroundings::{RowTask, SentRunnable};
use std::alloc::Global;
use std::process::Abort;
use std::sync::Wait;
use std::thread;
use std::thread::Threads;

// The run answers true, and hands over with true.
#[test]
fn a_wake_by_value_during_the_poll_reschedules(rt: HostRuntime) {
    check_script(
        rt,
        rt.alloc(),
        "spawn pending; waker | run again | shows 212; wake; shows 113 | \
         shows 111; queued 1; drop_task; receive; run; told true; counted 1 1 1 1",
    );
}

// It waits as long as the future is polled, and no output comes of it, whatever the poll answers.
#[test]
fn a_cancel_waits_for_the_poll_of_the_future(rt: HostRuntime) {
    check_script(
        rt,
        rt.alloc(),
        "spawn pending; cancel | run | poll 1 waits; woken 1 0 | ends 1 1 1 0; poll 1 closed; counted 1 0 1 0; drop_task; \
         ends 1 1 1 0; outputs 0; counted 1 0 1 1",
    );
    check_script(
        rt,
        rt.alloc(),
        "spawn ready 1; cancel | run | poll 1 waits; woken 1 0 | ends 1 1 1 0; poll 1 closed; counted 1 0 1 0; drop_task; \
         ends 1 1 1 0; outputs 1; counted 1 0 1 1",
    );
}

// What a poll answered: whether it is pending, ready with the number 6, or closed.
type Polled = [bool; 3];

fn poll<R: Wait + Drop + Copy>(task: &mut RowTask<'_, '_, R>, awaiter: &Flag) -> Polled {
    let polled = task.poll(awaiter);
    [
        matches!(&polled, TaskPoll::Pending),
        is_ready_with(&polled, 6),
        matches!(&polled, TaskPoll::Ready(Err(TaskClosed))),
    ]
}

// Ends a Runnable during that meeting, by a run or by its drop: whether the other thread came, and whether the Runnable showed the word before.
fn end_at<R: Wait + Drop + Copy>(
    fixture: &Fixture<'_, R>,
    meeting: &Rendezvous,
    sent: SentRunnable<'_, '_, R>,
    runs: bool,
) -> [bool; 2] {
    let came = meeting.await_poll();
    let shown = matches!(fixture.shows(&sent.runnable, "Runnable", 0x131), Ok(true));
    if runs {
        sent.run();
    } else {
        drop(sent);
    }
    meeting.release();
    [came, shown]
}

// Polls a Task with a newer awaiter. While the older one is dropped, a second thread ends the Runnable: what the poll answered, and what that thread saw.
// Stops where there is no thread.
fn poll_beside<'x, 'm, R>(
    fixture: &'x Fixture<'m, R>,
    sent: SentRunnable<'x, 'm, R>,
    task: &mut RowTask<'x, 'm, R>,
    awaiters: &[Flag; 2],
    runs: bool,
) -> (Polled, [bool; 2])
where
    R: Wait + Threads + Abort + Drop + Copy + Send + Sync,
{
    let rt = fixture.rt;
    let [older, newer] = awaiters;
    let meeting = older.meeting();
    meeting.arm();
    thread::scope(thread::scope_env(), &rt, |scope| {
        let second = scope.spawn(move || end_at(fixture, meeting, sent, runs));
        let Ok(second) = second else {
            panic!(rt; "no thread");
        };
        let polled = poll(task, newer);
        (polled, second.join(&rt))
    })
}

// What is seen of two polls: what they answered; what a second thread saw during the second one, and whether the older awaiter's drop met that; whether the Task
// showed the stated word at last; how the awaiters ended; and what was counted.
type Registered = ([Polled; 2], [bool; 4], [(u64, u64, u64); 2], Counts);

// Polls twice, and lets the task end while the second poll registers.
fn poll_twice<R>(rt: R, alloc: Global, runs: bool, word: u64) -> Registered
where
    R: Wait + Threads + Abort + Drop + Copy + Send + Sync,
{
    let counting = Counting::new(alloc);
    let fixture = Fixture::new(rt, alloc, &counting).expect(&rt, "refused");
    let awaiters = [
        fixture.flag(1).expect(&rt, "refused"),
        fixture.flag(2).expect(&rt, "refused"),
    ];
    let spawned = fixture.spawn(Behaviour::Ready(6), u64::MAX);
    let (runnable, mut task) = spawned.expect(&rt, "refused");
    let first = poll(&mut task, &awaiters[0]);
    let sent = SentRunnable { runnable };
    let (second, [came, running]) = poll_beside(&fixture, sent, &mut task, &awaiters, runs);
    let shown = matches!(fixture.shows(&task, "Task", word), Ok(true));
    drop(task);
    (
        [first, second],
        [came, running, awaiters[0].meeting().met(), shown],
        [awaiters[0].ends(), awaiters[1].ends()],
        fixture.counts(),
    )
}

// While a Task registers once more, AWAITER stays set, and REGISTERING is not shown. After a run the poll is ready by its second look, and after the drop of the
// Runnable it is closed. Either way it wakes its own awaiter, which the other thread could not take.
#[test]
fn an_end_while_a_task_registers_is_seen_by_its_poll(rt: HostRuntime) {
    let ran = poll_twice(rt, rt.alloc(), true, 0x01C);
    let dropped = poll_twice(rt, rt.alloc(), false, 0x018);
    let waits = [true, false, false];
    let ends = [(1, 0, 1), (1, 1, 0)];
    let ready = [false, true, false];
    assert!(rt; ran == ([waits, ready], [true; 4], ends, Counts(1, 0, 1, 1)));
    let closed = [false, false, true];
    assert!(rt; dropped == ([waits, closed], [true; 4], ends, Counts(0, 0, 1, 1)));
}
