// The walk along waits: each thread met is written, first to last, until one that does not wait, or one already written.
#![tactic(auto)]

ghost use Rattle.std.specs.Prelude.{◌≡◌, ◌<◌, ◌≤◌, length};
ghost use Rattle.rules.specs.Sizes.{thread_count};
ghost use Rattle.rules.specs.Encoding.{machine_from};
ghost use Rattle.rules.specs.Steps.{rules_by};
ghost use Rattle.rules.specs.Walk.{awaits, walk_from, met_bytes, met_count};
ghost use Rattle.step_contract.specs.Ready.{Ready};
ghost use Rattle.walk_threads.specs.Laid.{laid_behind, counted, walk_rest};

use rules::sorts::{Thread, thread_number};
use walk_met::{blank, is_met};
use walk_waits::awaited;

// What a closed ring adds to the count.
const RING: u32 = 256;

// The walk comes to t, n threads met so far: it calls itself on the next thread, the threads not yet met falling.
// Kept: one number for a count and a ring, as the compiled recursion is no loop if it answers a struct of the two.
fn walk_on(image: &[u8], table: &[u8], state: &[u8], met: &mut [u8], n: usize, t: Thread) -> u32
    requires { Ready image.now table.now state.now × (n ≤ thread_count) × (length met.old ≡ thread_count)
        × (t.0 < thread_count) }
    ensures count { result ≡ counted n (walk_rest (awaits (rules_by image.now table.now)
        (machine_from state.now)) n met.old t.0) }
    ensures bytes { met.new ≡ laid_behind n met.old
        (walk_rest (awaits (rules_by image.now table.now) (machine_from state.now))
        n met.old t.0) }
{
    if n == Thread::COUNT {
        return n as u32 + RING;
    }
    if is_met(&met[..n], t) {
        return n as u32 + RING;
    }
    met[n] = thread_number(t);
    match awaited(image, table, state, t) {
        Some(next) => walk_on(image, table, state, met, n + 1, next),
        None => (n + 1) as u32,
    }
}

// The walk from a thread: the count of threads written, and 256 more if a ring closed.
pub fn walk(image: &[u8], table: &[u8], state: &[u8], t: Thread, met: &mut [u8]) -> u32
    requires { Ready image.now table.now state.now × (length met.old ≡ thread_count) × (t.0 < thread_count) }
    ensures count { result ≡ met_count (walk_from (rules_by image.now table.now)
        (machine_from state.now) t.0) }
    ensures bytes { met.new ≡ met_bytes (walk_from (rules_by image.now table.now)
        (machine_from state.now) t.0) }
{
    blank(met);
    walk_on(image, table, state, met, 0, t)
}
