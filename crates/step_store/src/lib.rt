// The values of a statement of ASSIGN's kind, stored: to registers of its thread, or to shared words of its block.
#![tactic(auto)]

ghost use Rattle.std.specs.Prelude.{◌≡◌, true, ◌<◌};
ghost use Rattle.rules.specs.Sizes.{thread_count, block_count};
ghost use Rattle.rules.specs.Image.{block_field, label_a};
ghost use Rattle.rules.specs.Machine.{job};
ghost use Rattle.rules.specs.Encoding.{machine_from};
ghost use Rattle.rules.specs.Statements.{statement_of, operand_of, shape};
ghost use Rattle.rules.specs.declared.statement.Statement.TheVariants.{Assign};
ghost use Rattle.lemmas_encoding.specs.Encoded.{Encodes, Canonical};
ghost use Rattle.state_thread.specs.Threads.{Running, Runs, returns_of, registers_of, keeping};
ghost use Rattle.step_operands.specs.Statements.{Lands};
ghost use Rattle.step_contract.specs.Ready.{Recorded};
ghost use Rattle.step_contract.specs.At.{At};
ghost use Rattle.step_store.specs.Destinations.{registers_after, with_first, with_second, landed};

use image_decode::{kind_at, shape_of, value_at};
use image_record::record_fields::{block_field, label_a};
use rules::codes::REGISTER_OPERAND;
use rules::sorts::{Block, Thread};
use rules::statement::Assignment;
use state_shared::words::write_word;
use state_thread::thread::ThreadState;
use state_thread_record::{write_assigned, write_register, write_thread};

// The second value, after the thread w, which has the first, was written: one register, or one word, is stored by itself. Its destination
// is no number.
fn store_second(
    state: &mut [u8],
    t: Thread,
    w: ThreadState,
    block: Block,
    kind: u8,
    to: u16,
    v: u16,
)
    requires { Canonical state.old × (t.0 < thread_count) × Running w × (block.0 < block_count) × Lands (operand_of kind to)
        × Recorded state.old t.0 w }
    ensures { Encodes state.new (with_second (machine_from state.old) t.0 block.0 w
        (operand_of kind to) v) }
{
    if kind == REGISTER_OPERAND {
        write_register(state, t, w.assign_register(to, v), to, v);
    } else {
        write_word(state, block, to, v);
    }
}

// The thread goes on to A, and the first value to its destination, with the thread's record. The thread that was written is handed back.
// The kind of the destination, which is no number, is tested once.
fn store_first(
    image: &[u8],
    table: &[u8],
    state: &mut [u8],
    t: Thread,
    w: ThreadState,
    r: &[u8],
    a: Assignment,
    u: u16,
) -> ThreadState
    requires { At image.now table.now state.old t.0 w r.now × (statement_of r.now ≡ Assign a) }
    ensures runs { Runs result w.locks
        (keeping w (job (label_a r.now) (returns_of w) (registers_after a.first u (registers_of w)))) }
    ensures encodes { Encodes state.new (with_first (machine_from state.old) t.0 (block_field r.now) result
        a.first u) }
{
    let next = w.move_on(label_a(r));
    let to = value_at(r, 0);
    if kind_at(r, 0) == REGISTER_OPERAND {
        let x = next.assign_register(to, u);
        write_assigned(state, t, x, to, u);
        return x;
    }
    let block = block_field(r);
    write_thread(state, t, next);
    write_word(state, block, to, u);
    next
}

// Both values, the second behind the first. The record of the image is read before the first store: the compiler cannot tell that a store
// leaves it as it is.
fn store_both(
    image: &[u8],
    table: &[u8],
    state: &mut [u8],
    t: Thread,
    w: ThreadState,
    r: &[u8],
    a: Assignment,
    u: u16,
    v: u16,
)
    requires { At image.now table.now state.old t.0 w r.now × (statement_of r.now ≡ Assign a)
        × ((shape a.operation).second ≡ true) }
    ensures { Encodes state.new (landed (machine_from state.old) t.0 w r.now a u v) }
{
    let block = block_field(r);
    let kind = kind_at(r, 1);
    let to = value_at(r, 1);
    let next = store_first(image, table, state, t, w, r, a, u);
    store_second(state, t, next, block, kind, to, v);
}

// The values to as many destinations as the operation has. It is asked before the first store, so that the compiler, which has just
// gone by the operation to work the values out, asks nothing more of an operation with one destination.
pub fn store_results(
    image: &[u8],
    table: &[u8],
    state: &mut [u8],
    t: Thread,
    w: ThreadState,
    r: &[u8],
    a: Assignment,
    u: u16,
    v: u16,
)
    requires { At image.now table.now state.old t.0 w r.now × (statement_of r.now ≡ Assign a) }
    ensures { Encodes state.new (landed (machine_from state.old) t.0 w r.now a u v) }
{
    let operation = a.operation;
    if shape_of(operation).second {
        store_both(image, table, state, t, w, r, a, u, v);
    } else {
        store_first(image, table, state, t, w, r, a, u);
    }
}
