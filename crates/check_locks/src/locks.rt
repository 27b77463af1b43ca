// The lock sets of the threads.
ghost use Rattle.std.specs.Prelude.{◌≡◌, ◌+◌, ◌<◌, ◌≤◌, eqb, length, drop};
ghost use Rattle.std.specs.Int.Bits.{bit_and};
ghost use Rattle.rules.specs.Sizes.{thread_count, thread_size, words_size};
ghost use Rattle.rules.specs.Bytes.{chunks};
ghost use Rattle.rules.specs.Machine.{locks_of};
ghost use Rattle.rules.specs.Encoding.{thread_from};
ghost use Rattle.rules.specs.WellFormed.{apart};

use bytes_fields::read::get16;
use bytes_lock_set::held::lowest_held;
use rules::layout::{LOCKS_PLACE, STATE_SIZE, THREAD_SIZE, THREADS_PLACE};
use rules::sorts::{Label, Thread};

// The locks that a thread holds, none where it is idle.
pub fn locks_at(s: &[u8], at: usize) -> u16
    requires { at + thread_size ≤ length s.now }
    ensures { result ≡ locks_of (thread_from (drop at s.now)) }
{
    let label = get16(s, at);
    let locks = get16(s, at + LOCKS_PLACE);
    if label == Label::IDLE { 0 } else { locks }
}

// No lock is in both sets.
pub fn none_in_both(a: u16, b: u16) -> bool
    ensures { result ≡ eqb (bit_and a b) 0 }
{
    lowest_held(a & b).is_none()
}

// No lock is in two sets.
pub fn locks_apart(state: &[u8; STATE_SIZE]) -> bool
    ensures { result ≡ apart (chunks thread_from thread_size thread_count (drop words_size state.now)) }
{
    let mut taken: u16 = 0;
    let mut ok = true;
    for t in 0..Thread::COUNT {
        let locks = locks_at(state, THREADS_PLACE + THREAD_SIZE * t);
        ok &= none_in_both(taken, locks);
        taken |= locks;
    }
    ok
}
