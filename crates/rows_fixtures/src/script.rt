//! A script: a text of steps with `;` between them, in at most four parts with `|` between them.
//! A second thread makes the run of the second part. The steps of the third part are made during the poll of the future.

use crate::counters::Counts;
use crate::counting::Counting;
use crate::fixture::Fixture;
use crate::flag::Flag;
use crate::outcome::Missing;
use crate::player::Player;
use crate::rendezvous::Rendezvous;
use crate::surroundings::SentRunnable;
use std::alloc::{AllocError, Global};
use std::sync::Wait;
use std::thread;
use std::thread::{JoinHandle, Scope, Threads};

/// How a script ended.
#[derive(Clone, Copy)]
pub struct Played {
    /// The place of the first step that was not as it says, if one was not.
    pub failed: Option<usize>,
    /// The counters, before the handles that are left are dropped.
    pub counts: Counts,
}

/// Plays a script: an error where there is no memory for a step, or no second thread.
pub fn play<R>(fixture: &Fixture<'_, R>, alloc: Global, text: &str) -> Result<Played, Missing>
where
    R: Wait + Threads + Drop + Copy + Send + Sync,
{
    let awaiters = awaiters_of(fixture)?;
    let mut player = Player::new(fixture, alloc, &awaiters[..]);
    play_parts(&mut player, text)?;
    end(player)
}

// The awaiters of a script.
fn awaiters_of<R: Wait + Drop + Copy>(fixture: &Fixture<'_, R>) -> Result<[Flag; 4], AllocError> {
    Ok([
        fixture.flag(0)?,
        fixture.flag(1)?,
        fixture.flag(2)?,
        fixture.flag(3)?,
    ])
}

// How a script ended: an error where there was no memory for a step.
fn end<R: Wait + Drop + Copy>(player: Player<'_, '_, R>) -> Result<Played, Missing> {
    let played = Played {
        failed: player.failed(),
        counts: player.fixture.counts(),
    };
    let is_refused = player.is_refused;
    drop(player);
    if is_refused {
        return Err(Missing::Memory);
    }
    Ok(played)
}

fn play_parts<R>(player: &mut Player<'_, '_, R>, text: &str) -> Result<(), Missing>
where
    R: Wait + Threads + Drop + Copy + Send + Sync,
{
    let mut parts = text.split('|');
    player.play(parts.next().unwrap_or(""));
    if let Some(call) = parts.next() {
        let beside = parts.next().unwrap_or("");
        let answer = call.trim() == "run again";
        player.has_failed |= !answer && call.trim() != "run";
        run_beside(player, answer, beside)?;
    }
    player.play(parts.next().unwrap_or(""));
    Ok(())
}

// Has a second thread run, which answers that, and makes the steps beside it.
fn run_beside<R>(player: &mut Player<'_, '_, R>, answer: bool, beside: &str) -> Result<(), Missing>
where
    R: Wait + Threads + Drop + Copy + Send + Sync,
{
    let Some(runnable) = player.runnable.take() else {
        player.has_failed = true;
        return Ok(());
    };
    let sent = SentRunnable { runnable };
    let fixture = player.fixture;
    let rt = fixture.rt;
    let rendezvous = &fixture.surroundings.rendezvous;
    rendezvous.arm();
    thread::scope(thread::scope_env(), &rt, |scope| {
        let Ok(second) = start(scope, sent) else {
            return Err(Missing::Thread);
        };
        meet(player, rendezvous, beside);
        let answered = second.join(&rt);
        player.has_failed |= answered != answer || !rendezvous.met();
        Ok(())
    })
}

// Has a second thread run. That a Runnable may cross is long to prove: here few facts are at hand.
fn start<'s, 'x: 's, 'm: 's, E, R>(
    scope: &Scope<'s, E>,
    sent: SentRunnable<'x, 'm, R>,
) -> Result<JoinHandle<bool>, Missing>
where
    R: Wait + Drop + Copy + Send + Sync + 's,
{
    scope.spawn(move || sent.run()).map_err(|_| Missing::Thread)
}

// What is done beside a run.
fn meet<R: Wait + Drop + Copy>(player: &mut Player<'_, '_, R>, meeting: &Rendezvous, steps: &str) {
    player.has_failed |= !meeting.await_poll();
    player.play(steps);
    meeting.release();
}

/// Plays a script in surroundings of its own, as `play` does.
pub fn play_alone<R>(rt: R, alloc: Global, text: &str) -> Result<Played, Missing>
where
    R: Wait + Threads + Drop + Copy + Send + Sync,
{
    let counting = Counting::new(alloc);
    let fixture = Fixture::new(rt, alloc, &counting)?;
    play(&fixture, alloc, text)
}
