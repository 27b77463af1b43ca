// A signal as one value, and its bytes: label, value count, values.
#![tactic(auto)]

ghost use Rattle.std.specs.Prelude.{◌≡◌, [], ◌∷◌, ◌++◌, ◌+◌, ◌≤◌, length, drop};
ghost use Rattle.rules.specs.Sizes.{signal_size};
ghost use Rattle.rules.specs.Bytes.{le16};
ghost use Rattle.rules.specs.Encoding.{signal_bytes};
ghost use Rattle.bytes_fields.specs.Put.{put};
ghost use Rattle.state_signal.specs.Signals.{signal_of, TidySignal, signal_read};

use bytes_fields::read::{get16, get16s};
use bytes_fields::write::{put8, put16, put16s};
use rules::layout::{VALUE_COUNT_PLACE, VALUES_PLACE};
use rules::sorts::{Label, Thread, label_number};

// Kept: that a signal is tidy is no ghost field: `read_signal` promises the value of any bytes, as `signal_read` has it.
#[derive(Clone, Copy)]
pub struct Signal {
    pub label: Label,
    pub count: u8,
    pub values: [u16; Thread::REGISTERS],
}

pub fn read_signal(s: &[u8], at: usize) -> Signal
    requires { at + signal_size ≤ length s.now }
    ensures { result ≡ signal_read (drop at s.now) }
{
    let mut values = [0u16; Thread::REGISTERS];
    get16s(s, at + VALUES_PLACE, &mut values);
    Signal {
        label: Label::from(get16(s, at)),
        count: s[at + VALUE_COUNT_PLACE],
        values: values,
    }
}

// The label and the value count of a signal at a place.
fn write_head(s: &mut [u8], at: usize, g: Signal)
    requires { at + signal_size ≤ length s.old }
    ensures { s.new ≡ put s.old at (le16 g.label.0 ++ g.count ∷ []) }
{
    put16(s, at, label_number(g.label));
    put8(s, at + VALUE_COUNT_PLACE, g.count);
}

pub fn write_signal(s: &mut [u8], at: usize, g: Signal)
    requires { (at + signal_size ≤ length s.old) × TidySignal g }
    ensures { s.new ≡ put s.old at (signal_bytes (signal_of g)) }
{
    write_head(s, at, g);
    let values = g.values;
    put16s(s, at + VALUES_PLACE, &values);
}
