//! Spawning a task.
ghost use Rattle.std.specs.Prelude.{◌≡◌, ◌<◌, [], min, IfOk, IfErr};
ghost use Rattle.std.specs.Fn.{FnOnceReturnsAt};
ghost use Rattle.task_steps.specs.Standing.{as_task};
ghost use Rattle.task_cell.specs.Belongs.{cell_of, limit_in, spawned_in};
ghost use Rattle.task_cell.specs.Calls.{Stands, deeds};

use crate::task::{Task, TaskParty};
use std::alloc::{AllocError, Allocator};
use std::sync::Wait;
use std::{fmt, io};
use task_cell::{LaidCell, Runnable};
use task_core::word::LIMIT;
use task_core::{Schedule, Wake, Yields};
use thiserror::Error;

/// What a spawn is given beside the future and the schedule value: the metadata, and the limit of references.
#[derive(Debug, Drop)]
pub struct Builder<M> {
    metadata: M,
    limit: u64,
    ghost limited: { limit < 36028797018963968 },
}

/// A spawn was refused for want of memory: what it was given.
#[derive(Drop, Error)]
#[error("no memory for the task")]
pub struct SpawnError<M, G, Q> {
    /// The builder.
    pub builder: Builder<M>,
    /// What makes the future; of the free `spawn`, the future.
    pub maker: G,
    /// The schedule value.
    pub schedule: Q,
}

impl<M, G, Q> fmt::Debug for SpawnError<M, G, Q> {
    fn fmt<W: fmt::Write>(&self, f: &mut fmt::Formatter<W>) -> fmt::Result {
        f.write_str("SpawnError")
    }
}

impl<M: Drop, G: Drop, Q: Drop> From<SpawnError<M, G, Q>> for AllocError {
    fn from(_error: SpawnError<M, G, Q>) -> AllocError {
        AllocError
    }
}

impl<M: Drop, G: Drop, Q: Drop> From<SpawnError<M, G, Q>> for io::Error {
    fn from(_error: SpawnError<M, G, Q>) -> io::Error {
        io::Error::from(AllocError)
    }
}

impl Builder<()> {
    /// A builder without metadata, whose tasks may have `LIMIT` references.
    pub fn new() -> Builder<()>
        ensures metadata { result.metadata ≡ tt }
        ensures limit { result.limit ≡ LIMIT }
    {
        Builder {
            metadata: (),
            limit: LIMIT,
        }
    }

    /// The same builder with this metadata, which the handles will show. The limit stays.
    pub fn metadata<M>(self, metadata: M) -> Builder<M>
        ensures metadata { result.metadata ≡ metadata }
        ensures limit { result.limit ≡ self.limit }
    {
        Builder {
            metadata,
            limit: self.limit,
        }
    }
}

impl<M: Default> Default for Builder<M> {
    ghost use Rattle.task_core.specs.declared.word.TheConstants.{LIMIT};

    ghost is_default = { λ builder. M.is_default builder.metadata × (builder.limit ≡ LIMIT) };

    /// A builder with the default metadata, whose tasks may have `LIMIT` references.
    fn default() -> Builder<M> {
        Builder {
            metadata: M::default(),
            limit: LIMIT,
        }
    }
}

impl<M> Builder<M> {
    /// The same builder for tasks that may have this many references. A number above `LIMIT` is taken as `LIMIT`; at 0 every `try_clone` and `waker` is refused.
    pub fn reference_limit(self, references: u64) -> Builder<M>
        ensures metadata { result.metadata ≡ self.metadata }
        ensures limit { result.limit ≡ min references LIMIT }
    {
        let Builder { metadata, limit: _ } = self;
        Builder {
            metadata,
            limit: references.min(LIMIT),
        }
    }
}

impl<M: Drop> Builder<M> {
    /// Spawns the future that `maker` makes of the metadata: its Runnable, which is due, and its Task.
    ///
    /// The maker is called once, after all memory was found. `rt` is what the handles may wait by, `alloc` where the memory comes from,
    /// `schedule` what Runnables are handed to, and `around` what each handle carries.
    /// An `Err` says that memory was refused. It hands builder, maker and schedule value back as they were given; the maker was not called then, and nothing stays allocated.
    pub fn spawn<R, F, A, X, B, G, Q>(
        self,
        rt: R,
        alloc: B,
        maker: G,
        schedule: Q,
        around: X,
    ) -> Result<(Runnable<R, F, Q, M, A, X, B>, Task<R, F, Q, M, A, X, B>), SpawnError<M, G, Q>>
    where
        R: Wait + Drop + Copy,
        F: Yields,
        A: Wake,
        X: Copy,
        B: Allocator + Copy,
        G: FnOnce(&M) -> F,
        Q: Schedule<Runnable<R, F, Q, M, A, X, B>> + Drop,
        requires { G.IsAlwaysCallable maker }
        ensures shares { IfOk result (λ handles. cell_of handles.1.inner.share ≡ cell_of handles.0.inner.share) }
        ensures opening { IfOk result (λ handles. Stands (as_task 0) handles.1.inner.party × (deeds handles.1.inner.party ≡ [])) }
        ensures around { IfOk result (λ handles. (handles.0.around ≡ around) × (handles.1.around ≡ around)) }
        ensures given { IfOk result (λ handles. let block = handles.0.inner.share.block in (block.value.metadata ≡ self.metadata) × (block.key.limit ≡ self.limit) × (block.value.schedule ≡ schedule)) }
        ensures made { IfOk result (λ handles. FnOnceReturnsAt G.FnOnce maker self.metadata (spawned_in handles.1.inner.share)) }
        ensures refused { IfErr result (λ e. (e.builder ≡ self) × (e.maker ≡ maker) × (e.schedule ≡ schedule)) }
    {
        let Builder { metadata, limit } = self;
        match LaidCell::make(rt, alloc, schedule, metadata, limit) {
            Ok(laid) => {
                let future = maker(laid.metadata());
                Ok(handles_of(laid, future, around))
            }
            Err((schedule, metadata)) => Err(SpawnError {
                builder: Builder { metadata, limit },
                maker,
                schedule,
            }),
        }
    }
}

// The handles of a task whose memory was found: the future is put in.
fn handles_of<R, F, Q, M, A, X, B>(
    laid: LaidCell<R, F, Q, M, A, B>,
    future: F,
    around: X,
) -> (Runnable<R, F, Q, M, A, X, B>, Task<R, F, Q, M, A, X, B>)
where
    R: Wait + Drop + Copy,
    F: Yields,
    M: Drop,
    A: Wake,
    X: Copy,
    B: Allocator + Copy,
    Q: Schedule<Runnable<R, F, Q, M, A, X, B>> + Drop,
    ensures shares { cell_of result.1.inner.share ≡ cell_of result.0.inner.share }
    ensures given { (result.0.inner.share.block.value ≡ laid.laid.whole.value.value) × (limit_in result.0.inner.share ≡ laid.laid.whole.value.value.limit) }
    ensures spawned { spawned_in result.1.inner.share ≡ future }
    ensures opening { Stands (as_task 0) result.1.inner.party × (deeds result.1.inner.party ≡ []) }
    ensures around { (result.0.around ≡ around) × (result.1.around ≡ around) }
{
    let (first, second, runnable, task) = laid.fill(future);
    let runnable = Runnable::new(first, runnable, around);
    let task = TaskParty {
        share: second,
        party: task,
    };
    (
        runnable,
        Task {
            inner: task,
            around,
        },
    )
}

/// Spawns a future: its Runnable, which is due, and its Task. The memory is found before anything else is done.
///
/// `rt` is what the handles may wait by, `alloc` where the memory comes from, `schedule` what Runnables are handed to,
/// and `around` what each handle carries. An `Err` hands everything back as it was given.
pub fn spawn<R, F, Q, A, X, B>(
    rt: R,
    alloc: B,
    future: F,
    schedule: Q,
    around: X,
) -> Result<(Runnable<R, F, Q, (), A, X, B>, Task<R, F, Q, (), A, X, B>), SpawnError<(), F, Q>>
where
    R: Wait + Drop + Copy,
    F: Yields,
    A: Wake,
    X: Copy,
    B: Allocator + Copy,
    Q: Schedule<Runnable<R, F, Q, (), A, X, B>> + Drop,
    ensures shares { IfOk result (λ handles. cell_of handles.1.inner.share ≡ cell_of handles.0.inner.share) }
    ensures opening { IfOk result (λ handles. Stands (as_task 0) handles.1.inner.party × (deeds handles.1.inner.party ≡ [])) }
    ensures around { IfOk result (λ handles. (handles.0.around ≡ around) × (handles.1.around ≡ around)) }
    ensures given { IfOk result (λ handles. let block = handles.0.inner.share.block in (block.key.limit ≡ LIMIT) × (block.value.schedule ≡ schedule)) }
    ensures spawned { IfOk result (λ handles. spawned_in handles.1.inner.share ≡ future) }
    ensures refused { IfErr result (λ e. (e.builder.limit ≡ LIMIT) × (e.maker ≡ future) × (e.schedule ≡ schedule)) }
{
    match LaidCell::make(rt, alloc, schedule, (), LIMIT) {
        Ok(laid) => Ok(handles_of(laid, future, around)),
        Err((schedule, metadata)) => Err(SpawnError {
            builder: Builder {
                metadata,
                limit: LIMIT,
            },
            maker: future,
            schedule,
        }),
    }
}
