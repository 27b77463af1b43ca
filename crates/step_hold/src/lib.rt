// A thread goes back into the state with one lock more.
#![tactic(auto)]

ghost use Rattle.std.specs.Prelude.{◌<◌};
ghost use Rattle.rules.specs.Sizes.{lock_count, thread_count};
ghost use Rattle.rules.specs.Encoding.{machine_from};
ghost use Rattle.lemmas_encoding.specs.Encoded.{Canonical, Encodes};
ghost use Rattle.state_thread.specs.Threads.{Running};
ghost use Rattle.step_hold.specs.Holding.{holding};

use rules::sorts::{Lock, Thread};
use state_thread::thread::ThreadState;
use state_thread_record::write_thread;

pub fn write_holding(state: &mut [u8], t: Thread, w: ThreadState, lock: Lock)
    requires { Canonical state.old × (t.0 < thread_count) × Running w × (lock.0 < lock_count) }
    ensures { Encodes state.new (holding (machine_from state.old) t.0 w lock) }
{
    write_thread(state, t, w.hold(lock));
}
