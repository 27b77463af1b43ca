// A step of an idle thread: the oldest signal of its first tree starts a job, if its block's lock can be taken.
#![tactic(auto)]

ghost use Rattle.std.specs.Prelude.{◌≡◌, ◌<◌};
ghost use Rattle.rules.specs.Sizes.{thread_count};
ghost use Rattle.rules.specs.Machine.{idle, thread_at};
ghost use Rattle.rules.specs.Encoding.{machine_from};
ghost use Rattle.rules.specs.Steps.{begin};
ghost use Rattle.lemmas_encoding.specs.Encoded.{Encodes};
ghost use Rattle.state_thread.specs.Threads.{Runs};
ghost use Rattle.step_contract.specs.Ready.{Ready, Recorded, Stepped};
ghost use Rattle.step_start.specs.Starting.{FirstOf, oldest_at, CanTake, CanBegin, begun};

use image_record::records::block_at;
use image_table::lock_at;
use rules::answer::Answer;
use rules::sorts::{Lock, Thread};
use state_pending::{oldest, oldest_label, take_oldest};
use state_shared::locks::other_holder;
use state_signal::Signal;
use state_thread::thread::ThreadState;
use state_trees::list::first_tree;
use step_hold::write_holding;

// The oldest signal of an idle thread's first tree: the lock that it asks for, with the other thread that holds it; or the tree, by its
// place in the list, with that lock.
#[derive(Clone, Copy)]
pub enum First {
    Wait(Lock, Thread),
    Go(usize, Lock),
}

// Asked by the step and by the walk; nothing is changed. None where the thread has no tree.
#[tactic(auto, using(crate::specs::Starting::found_waits), unfolding(bytes_fields::specs::Found::found_below))]
pub fn first_signal(image: &[u8], table: &[u8], state: &[u8], t: Thread) -> Option<First>
    requires { Ready image.now table.now state.now × (thread_at (machine_from state.now) t.0 ≡ idle) }
    ensures { FirstOf image.now table.now (machine_from state.now) t.0 result }
{
    let i = first_tree(state, t)?;
    let lock = lock_at(table, block_at(image, oldest_label(state, i)));
    match other_holder(state, lock, t) {
        Some(holder) => Some(First::Wait(lock, holder)),
        None => Some(First::Go(i, lock)),
    }
}

// The thread that the oldest signal of tree i makes of w, which is idle: it takes the signal's label, and the values fill registers 0
// upward.
fn started(state: &[u8], w: ThreadState, i: usize) -> ThreadState
    requires { CanTake state.now w i }
    ensures { Runs result 0 (begin (oldest_at (machine_from state.now) i)) }
{
    let g: Signal = oldest(state, i);
    let values = g.values;
    w.take(g.label, values, g.count)
}

// A job starts: the thread goes back with the lock; then the signal leaves the tree.
fn begin_job(state: &mut [u8], t: Thread, w: ThreadState, i: usize, lock: Lock)
    requires { CanBegin state.old t.0 w i lock }
    ensures { Encodes state.new (begun (machine_from state.old) t.0 i lock) }
{
    let next = started(state, w, i);
    write_holding(state, t, next, lock);
    take_oldest(state, i);
}

pub fn start(image: &[u8], table: &[u8], state: &mut [u8], t: Thread, w: ThreadState) -> Answer
    requires { Ready image.now table.now state.old × (t.0 < thread_count) × Recorded state.old t.0 w
        × (thread_at (machine_from state.old) t.0 ≡ idle) }
    ensures { Stepped image.now table.now state.old t.0 state.new result }
{
    match first_signal(image, table, state, t) {
        None => Answer::NoWork,
        Some(First::Wait(lock, _)) => Answer::Waiting(lock),
        Some(First::Go(i, lock)) => {
            begin_job(state, t, w, i, lock);
            Answer::Started
        }
    }
}
