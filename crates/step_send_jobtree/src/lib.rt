// SEND JOBTREE: its signal is held for a new tree, and the thread goes on with its registers.
#![tactic(auto)]

ghost use Rattle.std.specs.Prelude.{◌≡◌, ◌<◌};
ghost use Rattle.rules.specs.Sizes.{held_count};
ghost use Rattle.rules.specs.Statements.{statement_of};
ghost use Rattle.rules.specs.declared.statement.Statement.TheVariants.{SendTree};
ghost use Rattle.step_operands.specs.Readings.{Given};
ghost use Rattle.step_contract.specs.Ready.{Stepped};
ghost use Rattle.step_contract.specs.At.{At};

use image_record::record_fields::{label_a, label_b, operand_count};
use rules::answer::Answer;
use rules::sorts::Thread;
use rules::trap::Trap;
use state_signal::Signal;
use state_thread::thread::ThreadState;
use state_thread_record::write_held_signal;
use step_end::trapped;
use step_operands::read_data;

// The data have been read, and the job holds fewer than four signals.
fn hold_for_tree(
    image: &[u8],
    table: &[u8],
    state: &mut [u8],
    t: Thread,
    w: ThreadState,
    r: &[u8],
    values: [u16; Thread::REGISTERS],
) -> Answer
    requires { At image.now table.now state.old t.0 w r.now × (statement_of r.now ≡ SendTree)
        × Given state.old w r.now values × (w.held < held_count) }
    ensures { Stepped image.now table.now state.old t.0 state.new result }
{
    let to = label_a(r);
    let next = label_b(r);
    let g = Signal {
        label: to,
        count: operand_count(r),
        values: values,
    };
    let held = w.hold_signal(g);
    write_held_signal(state, t, held.move_on(next), g);
    Answer::Moved
}

pub fn send_tree(
    image: &[u8],
    table: &[u8],
    state: &mut [u8],
    t: Thread,
    w: ThreadState,
    r: &[u8],
) -> Answer
    requires { At image.now table.now state.old t.0 w r.now × (statement_of r.now ≡ SendTree) }
    ensures { Stepped image.now table.now state.old t.0 state.new result }
{
    let mut values = [0u16; Thread::REGISTERS];
    if let Err(trap) = read_data(state, t, w, r, &mut values) {
        return trapped(image, table, state, t, w, u8::from(trap));
    }
    if Thread::HELD <= w.held {
        return trapped(image, table, state, t, w, u8::from(Trap::HeldFull));
    }
    hold_for_tree(image, table, state, t, w, r, values)
}
