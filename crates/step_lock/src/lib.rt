// What a direct SEND or a CALL comes to: a trap, or its lock, and nothing is changed. The step and the walk ask the same.
#![tactic(auto)]

ghost use Rattle.std.specs.Prelude.{◌≡◌, ◌<◌, length, replicate};
ghost use Rattle.rules.specs.Sizes.{block_count, register_count, table_size};
ghost use Rattle.rules.specs.Image.{labels, row_at};
ghost use Rattle.rules.specs.Statements.{statement_of};
ghost use Rattle.rules.specs.Check.{Checked};
ghost use Rattle.rules.specs.Encoding.{machine_from};
ghost use Rattle.rules.specs.Steps.{alien, block_at};
ghost use Rattle.lemmas_encoding.specs.Encoded.{Canonical};
ghost use Rattle.step_contract.specs.At.{At};
ghost use Rattle.step_lock.specs.Passages.{passage_to};
ghost use Rattle.step_lock.specs.Enters.{entering, returns_with, Enters};

use bytes_lock_set::held::holds;
use image_record::record_fields::label_a;
use image_record::records::block_at;
use image_table::{kind_at, lock_at, thread_at};
use rules::kinds::BlockKind;
use rules::sorts::{Block, Label, Lock, Thread};
use rules::trap::Trap;
use state_shared::locks::other_holder;
use state_thread::thread::ThreadState;
use step_operands::read_data;

// A lock with the other thread that holds it, a lock that the step takes, or one that the thread has.
#[derive(Clone, Copy)]
pub enum Passage {
    Wait(Lock, Thread),
    Go(Lock),
    Own,
}

// Whether a block is an FD block of a thread other than t.
fn is_alien(table: &[u8], t: Thread, block: Block) -> bool
    requires { (block.0 < block_count) × (length table.now ≡ table_size) }
    ensures { result ≡ alien (row_at table.now block.0) t.0 }
{
    (kind_at(table, block) == BlockKind::Fd as u8) & (thread_at(table, block) != t)
}

// The passage of thread t, which holds the locks `own`, into the block of a label: an FD block of another thread is a trap whoever holds
// its lock.
fn passage_to(
    image: &[u8],
    table: &[u8],
    state: &[u8],
    t: Thread,
    own: u16,
    to: Label,
) -> Result<Passage, Trap>
    requires { Checked image.now table.now × Canonical state.now × (to.0 < labels image.now) }
    ensures { result ≡ passage_to (machine_from state.now)
        (row_at table.now (block_at image.now to.0)) t.0 own }
{
    let block = block_at(image, to);
    let lock = lock_at(table, block);
    if is_alien(table, t, block) {
        return Err(Trap::ForeignFdBlock);
    }
    if holds(own, lock) {
        return Ok(Passage::Own);
    }
    // The state is lent anew, so that only a thread that asks others writes it down for the call.
    let others = &state[0..];
    match other_holder(others, lock, t) {
        Some(holder) => Ok(Passage::Wait(lock, holder)),
        None => Ok(Passage::Go(lock)),
    }
}

// The passage of a direct SEND, or of a CALL, which needs room for its return label; and the values that it reads.
pub fn passage_of<const CALL: bool>(
    image: &[u8],
    table: &[u8],
    state: &[u8],
    t: Thread,
    w: ThreadState,
    r: &[u8],
    values: &mut [u16; Thread::REGISTERS],
) -> Result<Passage, Trap>
    requires { At image.now table.now state.now t.0 w r.now
        × (statement_of r.now ≡ entering CALL) × (values.old ≡ replicate register_count 0) }
    ensures { Enters image.now table.now state.now t.0 w r.now
        (returns_with CALL w r.now) values.new result }
{
    read_data(state, t, w, r, values)?;
    if CALL && Thread::RETURNS <= w.depth {
        return Err(Trap::ReturnsFull);
    }
    passage_to(image, table, state, t, w.locks, label_a(r))
}
