// The refusals 7 to 9, and the whole list of a Run's.
#![tactic(auto, using(check_refusal::specs::Refusals::refusing))]

ghost use Rattle.std.specs.Prelude.{◌≡◌};
ghost use Rattle.rules.specs.Check.{first_refusal};
ghost use Rattle.rules.specs.Calls.{events_length_fault, event_fault, answers_length_fault, run_return};
ghost use Rattle.check_refusal.specs.Refusals.{number_of};
ghost use Rattle.check_events.specs.Faults.{events_faults};

use crate::event::first_bad_event;
use check_refusal::{Refusal, ensure};
use check_state::faults::machine_fault;
use rules::layout::{ANSWER_SIZE, EVENT_SIZE};
use rules::limits::Run;

#[tactic(auto, unfolding(rules::specs::Calls::events_length_fault))]
pub fn events_length_fault(events: &[u8]) -> Result<(), Refusal>
    ensures { number_of result ≡ events_length_fault events.now }
{
    let m = events.len() / EVENT_SIZE;
    ensure(
        (events.len() == EVENT_SIZE * m) & (m <= Run::EVENTS),
        Refusal::EventsLength,
    )
}

pub fn event_fault(image: &[u8], events: &[u8]) -> Result<(), Refusal>
    requires { events_length_fault events.now ≡ 0 }
    ensures { number_of result ≡ event_fault image.now events.now }
{
    let m = events.len() / EVENT_SIZE;
    match first_bad_event(image, events, m) {
        Some(i) => Err(Refusal::Event(i as u16)),
        None => Ok(()),
    }
}

#[tactic(auto, unfolding(rules::specs::Calls::answers_length_fault))]
pub fn answers_length_fault(events: &[u8], answers: &[u8]) -> Result<(), Refusal>
    ensures { number_of result ≡ answers_length_fault events.now answers.now }
{
    ensure(
        answers.len() == ANSWER_SIZE * (events.len() / EVENT_SIZE),
        Refusal::AnswersLength,
    )
}

// The first of the refusals 7 to 9.
pub fn events_fault(image: &[u8], events: &[u8], answers: &[u8]) -> Result<(), Refusal>
    ensures { number_of result ≡ first_refusal (events_faults image.now events.now answers.now) }
{
    events_length_fault(events)?;
    event_fault(image, events)?;
    answers_length_fault(events, answers)
}

// The first of the refusals 1 to 9 of a Run.
#[tactic(auto, using(check_state::specs::Faults::machine_refusing), unfolding(rules::specs::Calls::run_return))]
pub fn run_fault(
    image: &[u8],
    table: &[u8],
    state: &[u8],
    events: &[u8],
    answers: &[u8],
) -> Result<(), Refusal>
    ensures { number_of result ≡ run_return image.now table.now state.now events.now
        answers.now }
{
    machine_fault(image, table, state)?;
    events_fault(image, events, answers)
}
