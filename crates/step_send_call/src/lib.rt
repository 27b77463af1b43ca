// A direct SEND and a CALL: the thread goes into another block if no other thread holds its lock.
#![tactic(auto)]

ghost use Rattle.std.specs.Prelude.{◌≡◌, ◌≤◌, length, take};
ghost use Rattle.rules.specs.Sizes.{return_count};
ghost use Rattle.rules.specs.Image.{label_a, operands};
ghost use Rattle.rules.specs.Machine.{fill, job};
ghost use Rattle.rules.specs.Statements.{statement_of};
ghost use Rattle.state_thread.specs.Threads.{Runs, keeping};
ghost use Rattle.step_contract.specs.Ready.{Stepped, thread_in};
ghost use Rattle.step_contract.specs.At.{At};
ghost use Rattle.step_lock.specs.Enters.{entering, returns_with};
ghost use Rattle.step_send_call.specs.Entering.{CanEnter};

use image_record::record_fields::{label_a, label_b, operand_count};
use rules::answer::Answer;
use rules::sorts::Thread;
use state_thread::thread::ThreadState;
use state_thread_record::{read_thread, write_thread};
use step_end::trapped;
use step_hold::write_holding;
use step_lock::{Passage, passage_of};

// The thread that a direct SEND makes of w, or a CALL, which adds its return label.
fn entered<const CALL: bool>(
    w: ThreadState,
    r: &[u8],
    values: [u16; Thread::REGISTERS],
) -> ThreadState
    requires { CanEnter w r.now values × (length (returns_with CALL w r.now) ≤ return_count) }
    ensures { Runs result w.locks
        (keeping w (job (label_a r.now) (returns_with CALL w r.now) (fill (take (operands r.now) values)))) }
{
    let to = label_a(r);
    if CALL {
        let back = label_b(r);
        return w.call(to, back, values, operand_count(r));
    }
    w.enter(to, values, operand_count(r))
}

// A direct SEND, or a CALL.
pub fn enter<const CALL: bool>(
    image: &[u8],
    table: &[u8],
    state: &mut [u8],
    t: Thread,
    r: &[u8],
) -> Answer
    requires { At image.now table.now state.old t.0 (thread_in state.old t.0) r.now
        × (statement_of r.now ≡ entering CALL) }
    ensures { Stepped image.now table.now state.old t.0 state.new result }
{
    let mut values = [0u16; Thread::REGISTERS];
    let w = read_thread(state, t);
    let passage = match passage_of::<CALL>(image, table, state, t, w, r, &mut values) {
        Ok(passage) => passage,
        Err(trap) => return trapped(image, table, state, t, w, u8::from(trap)),
    };
    match passage {
        Passage::Wait(lock, _) => Answer::Waiting(lock),
        Passage::Go(lock) => {
            write_holding(state, t, entered::<CALL>(w, r, values), lock);
            Answer::Moved
        }
        Passage::Own => {
            write_thread(state, t, entered::<CALL>(w, r, values));
            Answer::Moved
        }
    }
}
