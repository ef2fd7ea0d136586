//! A pool that carries a value of the user's, which its futures reach.
ghost use Rattle.std.specs.Prelude.{◌≡◌, IfOk, max, min};
ghost use Rattle.std.specs.Arc.{arc_value};

use crate::pool::Pool;
use async_task::{Wake, Yields};
use std::alloc::{AllocError, Allocator, Global};
use std::io;
use std::sync::Wait;
use std::time::{Clock, Duration};

/// A runtime with a value of the user's beside it: what the threads of a pool wait by, and what its futures share.
#[derive(Clone, Copy, Drop)]
pub struct WithShared<R, S> {
    rt: R,
    shared: S,
}

impl<R: Wait, S> Wait for WithShared<R, S> {}

/// The clocks of the runtime. No clause says what they show: only the runtime knows.
impl<R: Clock, S> Clock for WithShared<R, S> {
    fn monotonic(&self) -> io::Result<Duration> {
        self.rt.monotonic()
    }

    fn since_1970(&self) -> io::Result<Duration> {
        self.rt.since_1970()
    }

    fn sleep(&self, duration: Duration) {
        self.rt.sleep(duration)
    }
}

impl<R: Wait + Drop + Copy, S: Drop + Copy, F: Yields, A: Wake, M: Drop> Pool<
    WithShared<R, S>,
    F,
    A,
    Global,
    M,
> {
    /// A pool as `new` makes it, which carries `shared`: mostly a reference to what its futures share, which outlives the pool. A future reaches it by `waker.around().0.shared()`.
    pub fn with_shared(
        rt: R,
        alloc: Global,
        workers: usize,
        shared: S,
    ) -> Result<Pool<WithShared<R, S>, F, A, Global, M>, AllocError>
        ensures workers { IfOk result (λ pool. (arc_value pool.crew.bells).workers ≡ min (max workers 1) 1024) }
        ensures given { IfOk result (λ pool. (pool.rt.rt ≡ rt) × (pool.rt.shared ≡ shared) × (pool.alloc ≡ alloc)) }
    {
        Pool::new(WithShared { rt, shared }, alloc, workers)
    }
}

impl<R: Wait + Drop + Copy, S: Drop + Copy, F: Yields, A: Wake, B: Allocator + Copy, M: Drop> Pool<
    WithShared<R, S>,
    F,
    A,
    B,
    M,
> {
    /// What the pool carries.
    pub fn shared(&self) -> S
        ensures { result ≡ self.now.rt.shared }
    {
        self.rt.shared
    }
}
