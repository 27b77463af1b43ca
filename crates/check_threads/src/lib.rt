// The labels of a running thread: below n, the lock of the block held, the block CMX or the thread's own. The signals that it holds have
// entry 2.
#![tactic(auto)]

ghost use Rattle.std.specs.Prelude.{◌≡◌, ◌+◌, ◌≤◌, length, get_or, drop};
ghost use Rattle.rules.specs.Sizes.{thread_count, return_count, return_count_place, thread_size};
ghost use Rattle.rules.specs.Bytes.{all_from};
ghost use Rattle.rules.specs.WellFormed.{place_ok};
ghost use Rattle.lemmas_rules.specs.Passed.{Passed};
ghost use Rattle.check_threads.specs.Places.{places_ok, thread_good, thread_at_good};

use bytes_fields::read::{all_zero, get8, get16};
use bytes_lock_set::held::{holds, number_held};
use check_registers::running_tidy;
use check_signals::signals_good;
use image_record::record_fields::block_field;
use image_record::records::find_record;
use image_table::{kind_at, lock_at, thread_at};
use rules::kinds::BlockKind;
use rules::layout::{
    HELD_COUNT_PLACE, LOCKS_PLACE, RETURN_COUNT_PLACE, RETURNS_PLACE, STATE_SIZE, THREAD_SIZE,
    THREADS_PLACE,
};
use rules::sorts::{Label, Thread};

pub fn place_ok(image: &[u8], table: &[u8], t: Thread, locks: u16, l: Label) -> bool
    requires { Passed image.now table.now }
    ensures { result ≡ place_ok image.now table.now t.0 locks l.0 }
{
    let Some(r) = find_record(image, l) else {
        return false;
    };
    let b = block_field(r);
    let own = thread_at(table, b) == t;
    holds(locks, lock_at(table, b)) & ((kind_at(table, b) == BlockKind::Cmx as u8) | own)
}

// The label and the return labels of a thread record.
pub fn places_ok(image: &[u8], table: &[u8], t: Thread, s: &[u8], at: usize) -> bool
    requires { Passed image.now table.now × (at + thread_size ≤ length s.now)
        × (get_or s.now (at + return_count_place) 0 ≤ return_count) }
    ensures { result ≡ places_ok image.now table.now t.0 (drop at s.now) }
{
    let locks = get16(s, at + LOCKS_PLACE);
    let returns = get8(s, at + RETURN_COUNT_PLACE);
    let mut ok = place_ok(image, table, t, locks, Label::from(get16(s, at)));
    for k in 0..returns {
        let l = Label::from(get16(s, at + RETURNS_PLACE + 2 * k));
        ok &= place_ok(image, table, t, locks, l);
    }
    ok
}

// A thread record: tidy bytes, and a thread that is well formed. A running thread holds a lock, that of its label's block.
pub fn thread_good(image: &[u8], table: &[u8], t: Thread, s: &[u8], at: usize) -> bool
    requires { Passed image.now table.now × (at + thread_size ≤ length s.now) }
    ensures { result ≡ thread_good image.now table.now t.0 (drop at s.now) }
{
    if get16(s, at) == Label::IDLE {
        return all_zero(s, at + LOCKS_PLACE, THREAD_SIZE - LOCKS_PLACE);
    }
    if number_held(get16(s, at + LOCKS_PLACE)) == 0 {
        return false;
    }
    if !running_tidy(s, at) {
        return false;
    }
    places_ok(image, table, t, s, at)
        & signals_good(image, s, at + HELD_COUNT_PLACE, Thread::HELD, false)
}

pub fn threads_good(image: &[u8], table: &[u8], state: &[u8; STATE_SIZE]) -> bool
    requires { Passed image.now table.now }
    ensures { result ≡ all_from (thread_at_good image.now table.now state.now) 0 thread_count }
{
    let mut ok = true;
    for t in 0..Thread::COUNT {
        ok &= thread_good(
            image,
            table,
            Thread::from(t as u8),
            state,
            THREADS_PLACE + THREAD_SIZE * t,
        );
    }
    ok
}
