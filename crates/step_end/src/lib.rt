// The ends of a job. Each clears the thread to idle and keeps the job's shared writes and pending signals; a trap and a cut drop the
// signals that it held.
#![tactic(auto)]

ghost use Rattle.std.specs.Prelude.{◌≡◌, ◌<◌, length};
ghost use Rattle.rules.specs.Sizes.{thread_count};
ghost use Rattle.rules.specs.Machine.{with_thread, idle};
ghost use Rattle.rules.specs.Encoding.{machine_from};
ghost use Rattle.rules.specs.Events.{cut};
ghost use Rattle.lemmas_encoding.specs.Encoded.{Canonical, Encodes};
ghost use Rattle.state_thread.specs.Threads.{Running};
ghost use Rattle.state_thread_record.specs.Records.{Busy};
ghost use Rattle.state_pending.specs.Canon.{pending_at};
ghost use Rattle.step_contract.specs.Ready.{Ready, Recorded, Done, Ended, reply_to, thread_in};
ghost use Rattle.step_end.specs.Home.{HomeOf, settled};

use image_record::records::block_at;
use image_table::thread_at;
use rules::answer::Answer;
use rules::sorts::Thread;
use state_pending::{oldest_label, pending};
use state_thread::thread::ThreadState;
use state_thread_record::{read_held, write_thread, write_without_held};
use state_trees::list::{end_tree, first_tree};

// The thread of tree i's oldest signal's block; any thread where nothing is pending.
fn home(image: &[u8], table: &[u8], state: &[u8], i: usize) -> Thread
    requires { Ready image.now table.now state.now × (i < length (machine_from state.now).trees) }
    ensures { HomeOf image.now table.now (pending_at (machine_from state.now) i) result.0 }
{
    if pending(state, i) == 0 {
        return Thread::from(0);
    }
    thread_at(table, block_at(image, oldest_label(state, i)))
}

// The own tree of thread t's job, which ends: if empty it leaves the list, otherwise it goes to the list's end.
pub fn settle(image: &[u8], table: &[u8], state: &mut [u8], t: Thread)
    requires { Ready image.now table.now state.old × (t.0 < thread_count) × Busy state.old t.0 }
    ensures { Encodes state.new
        (settled image.now table.now t.0 (machine_from state.old)) }
{
    let i = first_tree(state, t).unwrap();
    let to = home(image, table, state, i);
    end_tree(state, i, to);
}

// Nothing of the job stays in the thread, which is w: none of the signals that it held either. Where it held none, nothing is stored there.
pub fn clear_thread(state: &mut [u8], t: Thread, w: ThreadState)
    requires { Canonical state.old × (t.0 < thread_count) × Recorded state.old t.0 w × Running w }
    ensures { Encodes state.new (with_thread (machine_from state.old) t.0 idle) }
{
    if w.held == 0 {
        write_without_held(state, t, w.end());
    } else {
        write_thread(state, t, w.end());
    }
}

// The job of thread t, which is w, ends by a trap or a cut.
pub fn finish(image: &[u8], table: &[u8], state: &mut [u8], t: Thread, w: ThreadState)
    requires { Ready image.now table.now state.old × (t.0 < thread_count) × Recorded state.old t.0 w × Running w }
    ensures { Ended image.now table.now state.old t.0 state.new }
{
    settle(image, table, state, t);
    clear_thread(state, t, w);
}

// The same of the job that the thread's record has, apart from the statements, so that those that trap have the processor's registers for
// themselves. It is cold: a trap is the rare way. Of the record it reads how many signals the thread holds.
#[cold]
#[inline(never)]
fn finish_apart(image: &[u8], table: &[u8], state: &mut [u8], t: Thread)
    requires { Ready image.now table.now state.old × (t.0 < thread_count) × Running (thread_in state.old t.0) }
    ensures { Ended image.now table.now state.old t.0 state.new }
{
    settle(image, table, state, t);
    let held = read_held(state, t);
    if held == 0 {
        write_without_held(state, t, ThreadState::idle());
    } else {
        write_thread(state, t, ThreadState::idle());
    }
}

// A trap ends the job of thread t, which is w.
pub fn trapped(
    image: &[u8],
    table: &[u8],
    state: &mut [u8],
    t: Thread,
    w: ThreadState,
    reason: u8,
) -> Answer
    requires { Ready image.now table.now state.old × (t.0 < thread_count) × Recorded state.old t.0 w × Running w }
    ensures value { result ≡ Answer.Trapped reason }
    ensures ended { Ended image.now table.now state.old t.0 state.new }
{
    finish_apart(image, table, state, t);
    Answer::Trapped(reason)
}

// A cut: on an idle thread there is nothing to cut.
pub fn cut_job(image: &[u8], table: &[u8], state: &mut [u8], t: Thread, w: ThreadState) -> Answer
    requires { Ready image.now table.now state.old × (t.0 < thread_count) × Recorded state.old t.0 w }
    ensures { Done (reply_to image.now table.now state.old (cut t.0)) state.new result }
{
    if w.is_idle() {
        return Answer::NothingToCut;
    }
    finish(image, table, state, t, w);
    Answer::WasCut
}
