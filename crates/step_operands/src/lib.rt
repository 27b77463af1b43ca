// The operands of a statement, read: the registers of its thread, each from the thread's record, and the shared words of the statement's
// own block, from a state's bytes.
#![tactic(auto)]

ghost use Rattle.std.specs.Prelude.{◌≡◌, [], ◌∷◌, ◌+◌, ◌<◌, length};
ghost use Rattle.rules.specs.Sizes.{block_count, thread_count, operand_count, record_size, state_size};
ghost use Rattle.rules.specs.Image.{operands};
ghost use Rattle.rules.specs.Statements.{operand_of, operand_at, optional, data_of};
ghost use Rattle.rules.specs.Effects.{read, read_all};
ghost use Rattle.lemmas_encoding.specs.Slots.{registers_in};
ghost use Rattle.lemmas_step.specs.Got.{as_got};
ghost use Rattle.step_operands.specs.Readings.{Reads, both};
ghost use Rattle.step_operands.specs.Legal.{Fits, Readable};
ghost use Rattle.step_operands.specs.Cells.{cells_from, cells_of};

use bytes_fields::read::wide;
use bytes_lock_set::sets::BitSet;
use image_decode::{kind_at, value_at};
use image_record::record_fields::{block_field, operand_count};
use rules::codes::{NUMBER_OPERAND, REGISTER_OPERAND};
use rules::sorts::{Block, Thread};
use rules::statement::Operand;
use rules::trap::Trap;
use state_shared::words::read_word;
use state_thread::thread::ThreadState;
use state_thread_record::read_register;

// An operand, read. `present` is the set of the registers that are present.
fn read_operand(
    state: &[u8],
    block: Block,
    t: Thread,
    present: u32,
    p: Operand,
) -> Result<u16, Trap>
    requires { (length state.now ≡ state_size) × (block.0 < block_count) × Fits p × (t.0 < thread_count) }
    ensures { as_got (λ v. v) result ≡ read (cells_from state.now block.0 present
        (registers_in state.now t.0)) p }
{
    match p {
        Operand::Number(v) => Ok(v),
        Operand::Register(r) => {
            if present.has(usize::from(r)) {
                Ok(read_register(state, t, r))
            } else {
                Err(Trap::AbsentRegister)
            }
        }
        Operand::Word(w) => Ok(read_word(state, block, w)),
    }
}

// An operand by its kind and its value, read: the kind is tested once, and each kind is read in its own branch.
fn read_kind(
    state: &[u8],
    block: Block,
    t: Thread,
    present: u32,
    kind: u8,
    value: u16,
) -> Result<u16, Trap>
    requires { (length state.now ≡ state_size) × (block.0 < block_count) × Fits (operand_of kind value)
        × (t.0 < thread_count) }
    ensures { as_got (λ v. v) result ≡ read (cells_from state.now block.0 present
        (registers_in state.now t.0)) (operand_of kind value) }
{
    match kind {
        NUMBER_OPERAND => read_operand(state, block, t, present, Operand::Number(value)),
        REGISTER_OPERAND => read_operand(state, block, t, present, Operand::Register(value)),
        _ => read_operand(state, block, t, present, Operand::Word(value)),
    }
}

// The operand at a place of the record r, read.
fn read_place(
    state: &[u8],
    block: Block,
    t: Thread,
    present: u32,
    r: &[u8],
    k: usize,
) -> Result<u16, Trap>
    requires { (length state.now ≡ state_size) × (block.0 < block_count) × (length r.now ≡ record_size) × (k < operand_count)
        × Fits (operand_at r.now k) × (t.0 < thread_count) }
    ensures { as_got (λ v. v) result ≡ read (cells_from state.now block.0 present
        (registers_in state.now t.0)) (operand_at r.now k) }
{
    read_kind(state, block, t, present, kind_at(r, k), value_at(r, k))
}

// The data operands of the record r that thread w comes to, read left to right: their values are stored from place 0 on, and what stands
// behind them stays.
pub fn read_data(
    state: &[u8],
    t: Thread,
    w: ThreadState,
    r: &[u8],
    values: &mut [u16; Thread::REGISTERS],
) -> Result<(), Trap>
    requires { (length state.now ≡ state_size) × Readable r.now × (length values.old ≡ operand_count) × (t.0 < thread_count)
        × (w.registers ≡ registers_in state.now t.0) }
    ensures { Reads (read_all (cells_of state.now w r.now) (data_of r.now)) result
        (operands r.now) values.old values.new }
{
    let n = wide(operand_count(r));
    let block = block_field(r);
    for k in 0..n {
        values[k] = read_place(state, block, t, w.present, r, k)?;
    }
    Ok(())
}

// The values of two operands.
#[derive(Clone, Copy)]
pub struct Pair {
    pub left: u16,
    pub right: u16,
}

// The operand at a place of the record r, and the one behind it where there is one, else 0: the kind of each is tested where it is read.
pub fn read_pair(
    state: &[u8],
    t: Thread,
    w: ThreadState,
    r: &[u8],
    k: usize,
    right: bool,
) -> Result<Pair, Trap>
    requires { (length state.now ≡ state_size) × Readable r.now × (k + 1 < operand_count) × Fits (operand_at r.now k)
        × Fits (optional right r.now (k + 1)) × (t.0 < thread_count) × (w.registers ≡ registers_in state.now t.0) }
    ensures { as_got both result ≡ read_all (cells_of state.now w r.now)
        (operand_at r.now k ∷ optional right r.now (k + 1) ∷ []) }
{
    let block = block_field(r);
    let left = read_place(state, block, t, w.present, r, k)?;
    if !right {
        return Ok(Pair { left, right: 0 });
    }
    let right = read_place(state, block, t, w.present, r, k + 1)?;
    Ok(Pair { left, right })
}
