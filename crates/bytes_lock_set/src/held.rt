// Whether a lock is in a set, the number of locks in it, and the lowest of them.
ghost use Rattle.std.specs.Prelude.{◌≡◌, ◌<◌};
ghost use Rattle.rules.specs.Sizes.{lock_count};
ghost use Rattle.rules.specs.Bytes.{has};
ghost use Rattle.rules.specs.Machine.{locks_held, lowest_held};
ghost use Rattle.bytes_lock_set.specs.Lowest.{lowest_by};

use crate::sets::BitSet;
use rules::sorts::{Lock, lock_number};

pub fn holds(set: u16, lock: Lock) -> bool
    requires { lock.0 < lock_count }
    ensures { result ≡ has lock.0 set }
{
    set.has(usize::from(lock_number(lock)))
}

pub fn number_held(set: u16) -> u32
    ensures { result ≡ locks_held set }
{
    u16::count_ones(set)
}

pub fn lowest_held(set: u16) -> Option<Lock>
    ensures { result ≡ lowest_by (lowest_held set) }
{
    let zeros = u16::trailing_zeros(set);
    if zeros < Lock::COUNT as u32 {
        Some(Lock::from(zeros as u8))
    } else {
        None
    }
}
