// The locks that a thread holds: bit b of its lock set is for lock b.
ghost use Rattle.std.specs.Prelude.{◌^◌, ◌<◌};
ghost use Rattle.std.specs.Int.Bits.{bit_or};
ghost use Rattle.rules.specs.Sizes.{lock_count};
ghost use Rattle.state_thread.specs.Threads.{Running, Runs, job_of};

use crate::thread::ThreadState;
use bytes_lock_set::sets::BitSet;
use rules::sorts::{Lock, lock_number};

impl ThreadState {
    // One lock more is held.
    pub fn hold(mut self, lock: Lock) -> Self
        requires { Running self × (lock.0 < lock_count) }
        ensures { Runs result (bit_or self.locks (2 ^ lock.0)) (job_of self) }
    {
        self.locks = self.locks.with(usize::from(lock_number(lock)));
        self
    }
}
