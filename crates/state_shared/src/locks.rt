// The locks that threads hold: of each thread record only the lock set is read.
ghost use Rattle.std.specs.Prelude.{◌≡◌, ◌<◌, length, set, option_map};
ghost use Rattle.rules.specs.Sizes.{thread_count, lock_count, state_size};
ghost use Rattle.rules.specs.Sorts.{thread};
ghost use Rattle.rules.specs.Machine.{idle};
ghost use Rattle.rules.specs.Walk.{holder};
ghost use Rattle.rules.specs.Encoding.{machine_from};
ghost use Rattle.bytes_fields.specs.Found.{found_below};
ghost use Rattle.lemmas_encoding.specs.Encoded.{Canonical};
ghost use Rattle.state_shared.specs.Locks.{passes};

use bytes_fields::read::{get16, wide};
use bytes_lock_set::held::holds;
use rules::layout::{LOCKS_PLACE, THREAD_SIZE, THREADS_PLACE};
use rules::sorts::{Lock, Thread, thread_number};

// Whether the search for a holder passes thread t: it is the thread left out, or does not hold the lock.
fn passed(state: &[u8], lock: Lock, out: Thread, t: Thread) -> bool
    requires { (length state.now ≡ state_size) × (lock.0 < lock_count) × (t.0 < thread_count) }
    ensures { result ≡ passes state.now lock.0 out.0 t.0 }
{
    if t == out {
        return true;
    }
    let locks = get16(
        state,
        THREADS_PLACE + THREAD_SIZE * wide(thread_number(t)) + LOCKS_PLACE,
    );
    !holds(locks, lock)
}

// The first thread but t that holds a lock, if there is one. Nobody needs to be asked for a lock that t has (`Alone`).
pub fn other_holder(state: &[u8], lock: Lock, t: Thread) -> Option<Thread>
    requires { Canonical state.now × (lock.0 < lock_count) }
    ensures { result ≡ option_map thread
        (found_below thread_count (holder lock.0 (set (machine_from state.now).threads t.0 idle))) }
{
    for i in 0..Thread::COUNT {
        let u = Thread::from(i as u8);
        if !passed(state, lock, t, u) {
            return Some(u);
        }
    }
    None
}
