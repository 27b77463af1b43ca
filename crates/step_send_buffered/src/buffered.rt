// A buffered SEND: its signal goes to the end of the job's own tree, and the thread goes on with its registers.
ghost use Rattle.std.specs.Prelude.{◌≡◌, ◌<◌, length};
ghost use Rattle.rules.specs.Sizes.{pending_count};
ghost use Rattle.rules.specs.Encoding.{machine_from};
ghost use Rattle.rules.specs.Statements.{statement_of};
ghost use Rattle.rules.specs.declared.statement.Statement.TheVariants.{SendBuffered};
ghost use Rattle.lemmas_encoding.specs.FirstTree.{first_tree};
ghost use Rattle.state_pending.specs.Canon.{pending_at};
ghost use Rattle.step_operands.specs.Readings.{Given};
ghost use Rattle.step_contract.specs.Ready.{Stepped};
ghost use Rattle.step_contract.specs.At.{At};

use image_record::record_fields::{label_a, label_b, operand_count};
use rules::answer::Answer;
use rules::limits::Tree;
use rules::sorts::Thread;
use rules::trap::Trap;
use state_pending::{pending, push};
use state_signal::Signal;
use state_thread::thread::ThreadState;
use state_trees::list::first_tree;
use step_end::trapped;
use step_goto::go_on;
use step_operands::read_data;

// The data have been read, and tree i, the job's own, has room.
fn buffer(
    image: &[u8],
    table: &[u8],
    state: &mut [u8],
    t: Thread,
    w: ThreadState,
    r: &[u8],
    i: usize,
    values: [u16; Thread::REGISTERS],
) -> Answer
    requires at { At image.now table.now state.old t.0 w r.now × (statement_of r.now ≡ SendBuffered)
        × Given state.old w r.now values }
    requires i_value { (i ≡ first_tree t.0 (machine_from state.old).trees)
        × (length (pending_at (machine_from state.old) i) < pending_count) }
    ensures { Stepped image.now table.now state.old t.0 state.new result }
{
    let to = label_a(r);
    let next = label_b(r);
    let a = go_on(state, t, w, next);
    push(
        state,
        i,
        Signal {
            label: to,
            count: operand_count(r),
            values: values,
        },
    );
    a
}

pub fn send_buffered(
    image: &[u8],
    table: &[u8],
    state: &mut [u8],
    t: Thread,
    w: ThreadState,
    r: &[u8],
) -> Answer
    requires { At image.now table.now state.old t.0 w r.now × (statement_of r.now ≡ SendBuffered) }
    ensures { Stepped image.now table.now state.old t.0 state.new result }
{
    let mut values = [0u16; Thread::REGISTERS];
    if let Err(trap) = read_data(state, t, w, r, &mut values) {
        return trapped(image, table, state, t, w, u8::from(trap));
    }
    let i = first_tree(state, t).unwrap();
    if Tree::PENDING <= pending(state, i) {
        return trapped(image, table, state, t, w, u8::from(Trap::PendingFull));
    }
    buffer(image, table, state, t, w, r, i, values)
}
