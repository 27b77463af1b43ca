// The rules of an event.
ghost use Rattle.std.specs.Prelude.{◌≡◌, ◌+◌, ◌*◌, ◌≤◌, length, drop};
ghost use Rattle.rules.specs.Sizes.{event_size};
ghost use Rattle.rules.specs.Bytes.{first_bad};
ghost use Rattle.rules.specs.Events.{arrival_ok, turn_ok, event_ok, event_at_ok};
ghost use Rattle.check_events.specs.Faults.{index_before};

use bytes_fields::read::{all_zero, get8, get16};
use check_signals::signal_tidy;
use image_record::record_fields::entry_field;
use image_record::records::find_record;
use rules::kinds::{Entry, EventKind};
use rules::layout::{EVENT_SIGNAL_PLACE, EVENT_SIZE, EVENT_THREAD_PLACE, SIGNAL_SIZE};
use rules::sorts::{Label, Thread};

// An arrival has thread zero, a label of entry 3, a count 0 to 25 and zeros in what is unused.
pub fn arrival_ok(image: &[u8], s: &[u8], at: usize) -> bool
    requires { at + event_size ≤ length s.now }
    ensures { result ≡ arrival_ok image.now (drop at s.now) }
{
    let Some(r) = find_record(image, Label::from(get16(s, at + EVENT_SIGNAL_PLACE))) else {
        return false;
    };
    (s[at + EVENT_THREAD_PLACE] == 0)
        & (entry_field(r) == Entry::External as u8)
        & signal_tidy(s, at + EVENT_SIGNAL_PLACE)
}

// A step and a cut have a thread 0 to 7, and the rest is zero.
pub fn turn_ok(s: &[u8], at: usize) -> bool
    requires { at + event_size ≤ length s.now }
    ensures { result ≡ turn_ok (drop at s.now) }
{
    (get8(s, at + EVENT_THREAD_PLACE) < Thread::COUNT)
        & all_zero(s, at + EVENT_SIGNAL_PLACE, SIGNAL_SIZE)
}

// The event at a place breaks no rule.
pub fn event_ok(image: &[u8], events: &[u8], at: usize) -> bool
    requires { at + event_size ≤ length events.now }
    ensures { result ≡ event_ok image.now (drop at events.now) }
{
    let Ok(kind) = EventKind::try_from(events[at]) else {
        return false;
    };
    if kind == EventKind::Arrival {
        return arrival_ok(image, events, at);
    }
    turn_ok(events, at)
}

// The first of m events that breaks a rule. The loop goes by their places.
pub fn first_bad_event(image: &[u8], events: &[u8], m: usize) -> Option<usize>
    requires { event_size * m ≤ length events.now }
    ensures { result ≡ index_before m (first_bad (event_at_ok image.now events.now) 0 m) }
{
    for at in (0..EVENT_SIZE * m).step_by(EVENT_SIZE) {
        if !event_ok(image, events, at) {
            return Some(at / EVENT_SIZE);
        }
    }
    None
}
