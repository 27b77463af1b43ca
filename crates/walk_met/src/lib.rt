// The threads that the walk has met, in the buffer that it writes them to.
#![tactic(auto)]

ghost use Rattle.std.specs.Prelude.{◌≡◌, length, replicate};
ghost use Rattle.rules.specs.Sizes.{thread_count};
ghost use Rattle.walk_met.specs.Met.{unused_byte, among};

use rules::sorts::{Thread, thread_number};

// A byte of the buffer that no thread is written to.
const UNUSED: u8 = 255;

// Every byte is unused.
pub fn blank(met: &mut [u8])
    requires { length met.old ≡ thread_count }
    ensures { met.new ≡ replicate thread_count unused_byte }
{
    met.fill(UNUSED);
}

// A thread is one of those written.
pub fn is_met(met: &[u8], t: Thread) -> bool
    ensures { result ≡ among t.0 met.now }
{
    met.contains(&thread_number(t))
}
