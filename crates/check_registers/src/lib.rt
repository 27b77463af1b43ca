// The bytes of a running thread's record: counts within limits, unused bytes zero.
#![tactic(auto)]

ghost use Rattle.std.specs.Prelude.{◌≡◌, ◌+◌, ◌≤◌, length, drop};
ghost use Rattle.rules.specs.Sizes.{register_count, thread_size};
ghost use Rattle.rules.specs.Bytes.{all_from};
ghost use Rattle.rules.specs.WellFormed.{absent_zero, running_tidy};

use bytes_fields::read::{all_zero, get8, get16, get32};
use bytes_lock_set::sets::BitSet;
use rules::layout::{PRESENCE_PLACE, REGISTERS_PLACE, RETURN_COUNT_PLACE, RETURNS_PLACE};
use rules::sorts::Thread;

// A presence set has bits 0 to 24 only.
const PRESENCE_END: u32 = 33554432;

// Whether the values of absent registers are zero.
pub fn absent_zero(s: &[u8], at: usize) -> bool
    requires { at + thread_size ≤ length s.now }
    ensures { result ≡ all_from (absent_zero (drop at s.now)) 0 register_count }
{
    let set = get32(s, at + PRESENCE_PLACE);
    let mut ok = true;
    for r in 0..Thread::REGISTERS {
        ok &= set.has(r) | (get16(s, at + REGISTERS_PLACE + 2 * r) == 0);
    }
    ok
}

pub fn running_tidy(s: &[u8], at: usize) -> bool
    requires { at + thread_size ≤ length s.now }
    ensures { result ≡ running_tidy (drop at s.now) }
{
    let n = get8(s, at + RETURN_COUNT_PLACE);
    if Thread::RETURNS < n {
        return false;
    }
    let unused = all_zero(s, at + RETURNS_PLACE + 2 * n, 2 * (Thread::RETURNS - n));
    unused & (get32(s, at + PRESENCE_PLACE) < PRESENCE_END) & absent_zero(s, at)
}
