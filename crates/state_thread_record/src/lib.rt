// The thread records: each is read as one value and written as one value.
#![tactic(auto)]

ghost use Rattle.std.specs.Prelude.{◌≡◌, ◌+◌, ◌*◌, ◌-◌, ◌<◌, ◌≤◌, length, get_or, drop};
ghost use Rattle.rules.specs.Sizes.{thread_count, return_count, register_count, held_count, thread_size, presence_place};
ghost use Rattle.rules.specs.Sizes.{held_count_place, signal_size, state_size};
ghost use Rattle.bytes_fields.specs.Put.{put};
ghost use Rattle.rules.specs.Encoding.{signal_bytes};
ghost use Rattle.lemmas_encoding.specs.Slots.{returns_in, present_in, registers_in, signals_in};
ghost use Rattle.state_signal.specs.Signals.{signal_of, TidySignal};
ghost use Rattle.state_thread.specs.Records.{thread_place, raw_thread, raw_bytes};
ghost use Rattle.state_thread_record.specs.Stores.{head_bytes, label_bytes, register_bytes, held_bytes};
ghost use Rattle.state_thread_record.specs.Stores.{HeadThere, HeldThere, AllButOne};

use bytes_fields::read::{get8, get16, get16s, get32, wide};
use bytes_fields::write::{copy, put8, put16, put16s, put32};
use rules::layout::{
    HELD_COUNT_PLACE, HELD_PLACE, HELD_SIZE, LOCKS_PLACE, PRESENCE_PLACE, REGISTERS_PLACE,
    RETURN_COUNT_PLACE, RETURNS_PLACE, SIGNAL_SIZE, THREAD_SIZE, THREADS_PLACE,
};
use rules::sorts::{Label, Thread, label_number, thread_number};
use state_signal::{Signal, write_signal};
use state_thread::thread::ThreadState;

// The place of a thread's record.
fn record_at(t: Thread) -> usize
    requires { t.0 < thread_count }
    ensures { result ≡ thread_place t.0 }
{
    THREADS_PLACE + THREAD_SIZE * wide(thread_number(t))
}

pub fn read_thread(state: &[u8], t: Thread) -> ThreadState
    requires { (length state.now ≡ state_size) × (t.0 < thread_count) }
    ensures { result ≡ raw_thread (drop (thread_place t.0) state.now) }
{
    let at = record_at(t);
    let mut returns = [0u16; Thread::RETURNS];
    get16s(state, at + RETURNS_PLACE, &mut returns);
    let mut registers = [0u16; Thread::REGISTERS];
    get16s(state, at + REGISTERS_PLACE, &mut registers);
    let mut signals = [0u8; HELD_SIZE];
    copy(&mut signals, 0, state, at + HELD_PLACE, HELD_SIZE);
    ThreadState {
        present: get32(state, at + PRESENCE_PLACE),
        label: Label::from(get16(state, at)),
        locks: get16(state, at + LOCKS_PLACE),
        depth: get8(state, at + RETURN_COUNT_PLACE),
        returns: returns,
        registers: registers,
        held: get8(state, at + HELD_COUNT_PLACE),
        signals: signals,
    }
}

// The label of a thread's record, read by itself.
pub fn read_label(state: &[u8], t: Thread) -> Label
    requires { (length state.now ≡ state_size) × (t.0 < thread_count) }
    ensures { result ≡ (raw_thread (drop (thread_place t.0) state.now)).label }
{
    Label::from(get16(state, record_at(t)))
}

// How many signals a thread's record holds, read by itself.
pub fn read_held(state: &[u8], t: Thread) -> usize
    requires { (length state.now ≡ state_size) × (t.0 < thread_count) }
    ensures { result ≡ (raw_thread (drop (thread_place t.0) state.now)).held }
{
    get8(state, record_at(t) + HELD_COUNT_PLACE)
}

// One register of a thread's record, read by itself.
pub fn read_register(state: &[u8], t: Thread, register: u16) -> u16
    requires { (length state.now ≡ state_size) × (t.0 < thread_count) × (register < register_count) }
    ensures { result ≡ get_or (registers_in state.now t.0) register 0 }
{
    get16(
        state,
        record_at(t) + REGISTERS_PLACE + 2 * (register as usize),
    )
}

// The label, the locks and the depth of a record at a place.
fn write_head(s: &mut [u8], at: usize, w: ThreadState)
    requires { (at + thread_size ≤ length s.old) × (w.depth ≤ return_count) }
    ensures { s.new ≡ put s.old at (head_bytes w) }
{
    put16(s, at, label_number(w.label));
    put16(s, at + LOCKS_PLACE, w.locks);
    put8(s, at + RETURN_COUNT_PLACE, w.depth as u8);
}

// The head and the return labels of a record at a place.
fn write_labels(s: &mut [u8], at: usize, w: ThreadState)
    requires { (at + thread_size ≤ length s.old) × (w.depth ≤ return_count) }
    ensures { s.new ≡ put s.old at (label_bytes w) }
{
    write_head(s, at, w);
    let returns = w.returns;
    put16s(s, at + RETURNS_PLACE, &returns);
}

// The registers of a record at a place, and which of them are present.
fn write_registers(s: &mut [u8], at: usize, w: ThreadState)
    requires { at + thread_size ≤ length s.old }
    ensures { s.new ≡ put s.old (at + presence_place) (register_bytes w) }
{
    put32(s, at + PRESENCE_PLACE, w.present);
    let registers = w.registers;
    put16s(s, at + REGISTERS_PLACE, &registers);
}

// The signals held of a record at a place.
fn write_held(s: &mut [u8], at: usize, w: ThreadState)
    requires { (at + thread_size ≤ length s.old) × (w.held ≤ held_count) }
    ensures { s.new ≡ put s.old (at + held_count_place) (held_bytes w) }
{
    put8(s, at + HELD_COUNT_PLACE, w.held as u8);
    let signals = w.signals;
    copy(s, at + HELD_PLACE, &signals, 0, HELD_SIZE);
}

// The thread comes back, whole. Of a thread that runs on, what is as it was read is not stored: the compiler sees that it comes from where
// it goes. So this comes before any other store to the state; an end, whose stores are constants, comes last.
// Kept: five writers and not one: each leaves out stores of what a statement has not changed, which its speed needs.
pub fn write_thread(state: &mut [u8], t: Thread, w: ThreadState)
    requires { (length state.old ≡ state_size) × (t.0 < thread_count) × (w.depth ≤ return_count) × (w.held ≤ held_count) }
    ensures { state.new ≡ put state.old (thread_place t.0) (raw_bytes w) }
{
    let at = record_at(t);
    write_labels(state, at, w);
    write_registers(state, at, w);
    write_held(state, at, w);
}

// The same where the head, the return labels, the signals held, and all registers but one, are as the record has them: they are not
// written.
pub fn write_register(state: &mut [u8], t: Thread, w: ThreadState, register: u16, value: u16)
    requires { (length state.old ≡ state_size) × (t.0 < thread_count) × (register < register_count)
        × HeadThere state.old t.0 w × AllButOne state.old t.0 w register value }
    ensures { state.new ≡ put state.old (thread_place t.0) (raw_bytes w) }
{
    let at = record_at(t);
    put32(state, at + PRESENCE_PLACE, w.present);
    put16(state, at + REGISTERS_PLACE + 2 * (register as usize), value);
}

// The same where the return labels, the signals held, and all registers but one, are as the record has them: they are not written.
pub fn write_assigned(state: &mut [u8], t: Thread, w: ThreadState, register: u16, value: u16)
    requires { (length state.old ≡ state_size) × (t.0 < thread_count) × (w.depth ≤ return_count) × (register < register_count)
        × AllButOne state.old t.0 w register value }
    ensures { state.new ≡ put state.old (thread_place t.0) (raw_bytes w) }
{
    let at = record_at(t);
    write_head(state, at, w);
    put32(state, at + PRESENCE_PLACE, w.present);
    put16(state, at + REGISTERS_PLACE + 2 * (register as usize), value);
}

// The same where the signals held are as the record has them: they are not written.
pub fn write_without_held(state: &mut [u8], t: Thread, w: ThreadState)
    requires { (length state.old ≡ state_size) × (t.0 < thread_count) × (w.depth ≤ return_count) × HeldThere state.old t.0 w }
    ensures { state.new ≡ put state.old (thread_place t.0) (raw_bytes w) }
{
    let at = record_at(t);
    write_labels(state, at, w);
    write_registers(state, at, w);
}

// The same where the return labels, the registers, and all signals held but the last, which is g, are as the record has them: they are not
// written.
pub fn write_held_signal(state: &mut [u8], t: Thread, w: ThreadState, g: Signal)
    requires { (length state.old ≡ state_size) × (t.0 < thread_count) × (w.depth ≤ return_count) × TidySignal g
        × (w.returns ≡ returns_in state.old t.0) × (w.present ≡ present_in state.old t.0)
        × (w.registers ≡ registers_in state.old t.0) × (0 < w.held) × (w.held ≤ held_count)
        × (w.signals ≡ put (signals_in state.old t.0) (signal_size * (w.held - 1)) (signal_bytes (signal_of g))) }
    ensures { state.new ≡ put state.old (thread_place t.0) (raw_bytes w) }
{
    let at = record_at(t);
    let count = w.held;
    write_head(state, at, w);
    put8(state, at + HELD_COUNT_PLACE, count as u8);
    write_signal(state, at + HELD_PLACE + SIGNAL_SIZE * (count - 1), g);
}
