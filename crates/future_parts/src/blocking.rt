//! Jobs that block, which threads of their own run while a future waits.
ghost use Rattle.std.specs.Prelude.{◌≡◌, IfErr};

use crate::oneshots::{OneReceiver, OneSender, oneshot};
use crossbeam_channel::{Receiver, Sender, unbounded};
use std::alloc::{AllocError, Global};
use std::sync::Wait;
use task_core::Wake;

/// What a thread runs that may block.
pub trait Job: Drop {
    /// What the job answers.
    type Output: Drop;

    /// Runs the job, on the thread that calls `BlockingThread::work`.
    fn run(self) -> Self::Output;
}

// A job, and where its output goes.
#[derive(Drop)]
struct Asked<R: Wait + Drop + Copy, J: Job, W: Wake> {
    job: J,
    answer: OneSender<R, J::Output, W>,
}

/// The two ends of a queue of jobs, without a bound. `rt` is what its calls wait by, `alloc` where its memory comes from. `W` is the waker of the futures that wait for outputs.
///
/// An error says that memory was refused.
pub fn blocking_jobs<R: Wait + Drop + Copy, J: Job, W: Wake>(
    rt: R,
    alloc: Global,
) -> Result<(BlockingJobs<R, J, W>, BlockingThread<R, J, W>), AllocError> {
    let (sender, receiver) = unbounded(alloc)?;
    let jobs = BlockingJobs {
        rt,
        alloc,
        jobs: sender,
    };
    Ok((jobs, BlockingThread { rt, jobs: receiver }))
}

/// Hands jobs to threads. Drop each one to end the threads, once they have run all jobs.
#[derive(Drop)]
pub struct BlockingJobs<R: Wait + Drop + Copy, J: Job, W: Wake> {
    rt: R,
    alloc: Global,
    jobs: Sender<Asked<R, J, W>>,
}

impl<R: Wait + Drop + Copy, J: Job, W: Wake> BlockingJobs<R, J, W> {
    /// Hands a job to whichever thread is free first. The future answers its output; it answers `None` where the job was dropped, since no thread was left.
    ///
    /// An error hands the job back: memory was refused, or no thread is left. That a thread runs the job has no clause, since no contract sees through the queue's lock.
    pub fn start(&self, job: J) -> Result<OneReceiver<R, J::Output, W>, J>
        ensures back { IfErr result (λ back. back ≡ job) }
    {
        let Ok((answer, output)) = oneshot(self.rt, self.alloc) else {
            return Err(job);
        };
        match self.jobs.send(&self.rt, Asked { job, answer }) {
            Ok(()) => Ok(output),
            Err(refused) => Err(refused.into_inner().job),
        }
    }
}

/// What a thread has that runs jobs.
#[derive(Drop)]
pub struct BlockingThread<R: Wait + Drop + Copy, J: Job, W: Wake> {
    rt: R,
    jobs: Receiver<Asked<R, J, W>>,
}

impl<R: Wait + Drop + Copy, J: Job, W: Wake> BlockingThread<R, J, W> {
    /// Runs one job after the other on this thread, and sleeps where there is none. It ends once each `BlockingJobs` is gone and no job is left. Several threads may call it at a time. It has no clause, as `start`.
    pub fn work(&self) {
        for _ in self.rt.forever() {
            let Ok(asked) = self.jobs.recv(&self.rt) else {
                return;
            };
            let Asked { job, answer } = asked;
            // Where the future is gone nobody waits for the output.
            drop(answer.send(job.run()));
        }
        unreachable!()
    }
}
