// What a statement of ASSIGN's kind works out: its sources are read, and then its operation goes by their values.
#![tactic(auto)]

ghost use Rattle.std.specs.Prelude.{◌≡◌, ◌+◌, ◌<◌, length};
ghost use Rattle.rules.specs.Sizes.{thread_count, operand_count, state_size};
ghost use Rattle.lemmas_encoding.specs.Slots.{registers_in};
ghost use Rattle.rules.specs.Statements.{operand_at, optional, assignment_of};
ghost use Rattle.lemmas_step.specs.Got.{as_got};
ghost use Rattle.lemmas_step.specs.Statements.{results};
ghost use Rattle.step_operands.specs.Legal.{Fits, Readable};
ghost use Rattle.step_operands.specs.Cells.{cells_of};
ghost use Rattle.step_compute.specs.Computes.{values_of};
ghost use Rattle.step_results.specs.Reading.{results_by};

use rules::sorts::Thread;
use rules::statement::{Assignment, Operation};
use rules::trap::Trap;
use state_thread::thread::ThreadState;
use step_compute::{Computation, computed};
use step_operands::read_pair;

// What an operation gives for the operand at place k of the record r and, where it has a right one, the operand behind it.
fn work_out(
    state: &[u8],
    t: Thread,
    w: ThreadState,
    r: &[u8],
    k: usize,
    right: bool,
    o: Operation,
) -> Result<Computation, Trap>
    requires { (length state.now ≡ state_size) × Readable r.now × (k + 1 < operand_count) × Fits (operand_at r.now k)
        × Fits (optional right r.now (k + 1)) × (t.0 < thread_count) × (w.registers ≡ registers_in state.now t.0) }
    ensures { as_got values_of result ≡ results_by (cells_of state.now w r.now) o (operand_at r.now k)
        (optional right r.now (k + 1)) }
{
    let pair = read_pair(state, t, w, r, k, right)?;
    computed(o, pair.left, pair.right)
}

// The results of an assignment: its sources are read left to right, and then its operation goes by their values. Each operation has an arm
// of its own, so that the compiler, which has just gone by the opcode, goes by the operation no second time.
pub fn results_of(
    state: &[u8],
    t: Thread,
    w: ThreadState,
    r: &[u8],
    a: Assignment,
) -> Result<Computation, Trap>
    requires { (length state.now ≡ state_size) × Readable r.now × Fits a.left × Fits a.right × (t.0 < thread_count)
        × (w.registers ≡ registers_in state.now t.0) × (a ≡ assignment_of a.operation r.now) }
    ensures { as_got values_of result ≡ results (cells_of state.now w r.now) a }
{
    let o = a.operation;
    match o {
        Operation::Copy => work_out(state, t, w, r, 1, false, Operation::Copy),
        Operation::Add => work_out(state, t, w, r, 1, true, Operation::Add),
        Operation::Subtract => work_out(state, t, w, r, 1, true, Operation::Subtract),
        Operation::Multiply => work_out(state, t, w, r, 1, true, Operation::Multiply),
        Operation::Divide => work_out(state, t, w, r, 2, true, Operation::Divide),
        Operation::Pack => work_out(state, t, w, r, 1, false, Operation::Pack),
        Operation::Unpack => work_out(state, t, w, r, 1, false, Operation::Unpack),
        Operation::DecimalAdd => work_out(state, t, w, r, 1, true, Operation::DecimalAdd),
    }
}
