// EXIT: the job's own tree, then the trees that the signals it held found, oldest first.
#![tactic(auto)]

ghost use Rattle.std.specs.Prelude.{◌≡◌, [], ◌∷◌, ◌<◌, ◌≤◌, ltb, length};
ghost use Rattle.rules.specs.Encoding.{machine_from};
ghost use Rattle.rules.specs.Steps.{rules_by, finished, admitted, lost};
ghost use Rattle.rules.specs.Statements.{statement_of};
ghost use Rattle.rules.specs.declared.statement.Statement.TheVariants.{Exit};
ghost use Rattle.lemmas_encoding.specs.Encoded.{Canonical, Encodes};
ghost use Rattle.state_signal.specs.Signals.{signal_of};
ghost use Rattle.state_thread.specs.Threads.{signals_of};
ghost use Rattle.step_contract.specs.Ready.{Stepped, thread_in};
ghost use Rattle.step_contract.specs.At.{At};
ghost use Rattle.step_exit.specs.Admitting.{Admissible, only};

use image_record::records::block_at;
use image_table::thread_at;
use rules::answer::Answer;
use rules::sorts::Thread;
use state_signal::Signal;
use state_thread::thread::ThreadState;
use state_thread_record::{read_held, read_thread};
use state_trees::list::{append_tree, room};
use step_end::{clear_thread, finish, settle};

// A signal that was held becomes a tree at the list's end, on its block's thread, if there is room. How many are lost: 0, or 1 where there
// is none.
fn found_tree(image: &[u8], table: &[u8], state: &mut [u8], g: Signal) -> u8
    requires { Admissible image.now table.now state.old g }
    ensures value { result ≡ length (lost (rules_by image.now table.now) (signal_of g ∷ [])
        (machine_from state.old)) }
    ensures encodes { Encodes state.new (admitted (rules_by image.now table.now) (signal_of g ∷ [])
        (machine_from state.old)) }
{
    let to = thread_at(table, block_at(image, g.label));
    if room(state, to) {
        append_tree(state, to, g);
        return 0;
    }
    1
}

// The same of the signal at place i, where so many are held; past them nothing is done.
fn found_next(image: &[u8], table: &[u8], state: &mut [u8], g: Signal, i: usize, count: usize) -> u8
    requires { Canonical state.old × (i < count → Admissible image.now table.now state.old g) }
    ensures value { (result ≡ length (lost (rules_by image.now table.now) (only (ltb i count) (signal_of g))
        (machine_from state.old))) × (result ≤ 1) }
    ensures encodes { Encodes state.new (admitted (rules_by image.now table.now)
        (only (ltb i count) (signal_of g)) (machine_from state.old)) }
{
    if i < count {
        return found_tree(image, table, state, g);
    }
    0
}

// A job that holds signals ends: they are taken out of the thread first, at fixed places, so that the compiler does not copy the others.
// How many of them are lost.
fn end_holding(
    image: &[u8],
    table: &[u8],
    state: &mut [u8],
    t: Thread,
    w: ThreadState,
    r: &[u8],
) -> u8
    requires { At image.now table.now state.old t.0 w r.now }
    ensures value { result ≡ length (lost (rules_by image.now table.now) (signals_of w)
        (finished (rules_by image.now table.now) t.0 (machine_from state.old))) }
    ensures encodes { Encodes state.new (admitted (rules_by image.now table.now) (signals_of w)
        (finished (rules_by image.now table.now) t.0 (machine_from state.old))) }
{
    let count = w.held;
    let first = w.held_signal(0);
    let second = w.held_signal(1);
    let third = w.held_signal(2);
    let fourth = w.held_signal(3);
    settle(image, table, state, t);
    let a = found_next(image, table, state, first, 0, count);
    let b = found_next(image, table, state, second, 1, count);
    let c = found_next(image, table, state, third, 2, count);
    let d = found_next(image, table, state, fourth, 3, count);
    clear_thread(state, t, w);
    a + b + c + d
}

// The thread is read, as one value, where it is known whether it holds signals: of one that holds none they are then not loaded.
pub fn leave(image: &[u8], table: &[u8], state: &mut [u8], t: Thread, r: &[u8]) -> Answer
    requires { At image.now table.now state.old t.0 (thread_in state.old t.0) r.now × (statement_of r.now ≡ Exit) }
    ensures { Stepped image.now table.now state.old t.0 state.new result }
{
    if read_held(state, t) == 0 {
        finish(image, table, state, t, read_thread(state, t));
        return Answer::Exited(0);
    }
    let missed = end_holding(image, table, state, t, read_thread(state, t), r);
    Answer::Exited(missed)
}
