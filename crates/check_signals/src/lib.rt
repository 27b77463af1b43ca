// What a call tests of signals in the lent state: counts within limits, unused bytes zero, and labels of the entries that they may have.
#![tactic(auto)]

ghost use Rattle.std.specs.Prelude.{◌≡◌, ◌+◌, ◌*◌, ◌≤◌, length, drop};
ghost use Rattle.rules.specs.Sizes.{signal_size};
ghost use Rattle.rules.specs.WellFormed.{signal_tidy};
ghost use Rattle.check_signals.specs.Signals.{signal_good, signals_good};

use bytes_fields::read::{all_zero, get8, get16};
use image_record::record_fields::entry_field;
use image_record::records::find_record;
use rules::kinds::Entry;
use rules::layout::{SIGNAL_SIZE, VALUE_COUNT_PLACE, VALUES_PLACE};
use rules::sorts::{Label, Thread};

// At most 25 values, and zeros in the place of others.
pub fn signal_tidy(s: &[u8], at: usize) -> bool
    requires { at + signal_size ≤ length s.now }
    ensures { result ≡ signal_tidy (drop at s.now) }
{
    let count = get8(s, at + VALUE_COUNT_PLACE);
    if Thread::REGISTERS < count {
        return false;
    }
    all_zero(
        s,
        at + VALUES_PLACE + 2 * count,
        2 * (Thread::REGISTERS - count),
    )
}

// A tidy signal, with a label below n of entry 2, or of entry 3 too where `external`.
pub fn signal_good(image: &[u8], s: &[u8], at: usize, external: bool) -> bool
    requires { at + signal_size ≤ length s.now }
    ensures { result ≡ signal_good image.now external (drop at s.now) }
{
    let Some(r) = find_record(image, Label::from(get16(s, at))) else {
        return false;
    };
    let entry = entry_field(r);
    signal_tidy(s, at)
        & ((entry == Entry::Buffered as u8) | (external & (entry == Entry::External as u8)))
}

// Up to `most` such signals behind their count, and zeros in the place of others.
pub fn signals_good(image: &[u8], s: &[u8], at: usize, most: usize, external: bool) -> bool
    requires { at + 1 + signal_size * most ≤ length s.now }
    ensures { result ≡ signals_good image.now external most at s.now }
{
    let count = get8(s, at);
    if most < count {
        return false;
    }
    let first = at + 1;
    let mut ok = all_zero(s, first + SIGNAL_SIZE * count, SIGNAL_SIZE * (most - count));
    for j in 0..count {
        ok &= signal_good(image, s, first + SIGNAL_SIZE * j, external);
    }
    ok
}
