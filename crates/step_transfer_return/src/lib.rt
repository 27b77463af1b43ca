// TRANSFER and RETURN: the data values go into registers 0 upward.
#![tactic(auto)]

ghost use Rattle.std.specs.Prelude.{◌≡◌};
ghost use Rattle.rules.specs.Statements.{statement_of};
ghost use Rattle.rules.specs.declared.statement.Statement.TheVariants.{Transfer, Return};
ghost use Rattle.step_contract.specs.Ready.{Stepped};
ghost use Rattle.step_contract.specs.At.{At};

use image_record::record_fields::{label_a, operand_count};
use rules::answer::Answer;
use rules::sorts::Thread;
use rules::trap::Trap;
use state_thread::thread::ThreadState;
use state_thread_record::write_thread;
use step_end::trapped;
use step_operands::read_data;

// The values start as the thread's registers, and reading the data stores over the first of them.
pub fn transfer(
    image: &[u8],
    table: &[u8],
    state: &mut [u8],
    t: Thread,
    w: ThreadState,
    r: &[u8],
) -> Answer
    requires { At image.now table.now state.old t.0 w r.now × (statement_of r.now ≡ Transfer) }
    ensures { Stepped image.now table.now state.old t.0 state.new result }
{
    let mut values = w.registers;
    if let Err(trap) = read_data(state, t, w, r, &mut values) {
        return trapped(image, table, state, t, w, u8::from(trap));
    }
    write_thread(state, t, w.transfer(label_a(r), values, operand_count(r)));
    Answer::Moved
}

pub fn give_back(
    image: &[u8],
    table: &[u8],
    state: &mut [u8],
    t: Thread,
    w: ThreadState,
    r: &[u8],
) -> Answer
    requires { At image.now table.now state.old t.0 w r.now × (statement_of r.now ≡ Return) }
    ensures { Stepped image.now table.now state.old t.0 state.new result }
{
    let mut values = [0u16; Thread::REGISTERS];
    if let Err(trap) = read_data(state, t, w, r, &mut values) {
        return trapped(image, table, state, t, w, u8::from(trap));
    }
    if w.depth == 0 {
        return trapped(image, table, state, t, w, u8::from(Trap::NoReturnLabel));
    }
    write_thread(state, t, w.return_to_caller(values, operand_count(r)));
    Answer::Moved
}
