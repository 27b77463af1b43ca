// The refusals 5, 6 and 10 to 12: of the state, the initial words, and what the walk is handed; and the whole lists of Fresh's and of
// the walk's.
#![tactic(auto, using(crate::specs::Faults::machine_refusing))]

ghost use Rattle.std.specs.Prelude.{◌≡◌, length};
ghost use Rattle.rules.specs.Sizes.{state_size};
ghost use Rattle.rules.specs.Check.{first_refusal, Checked};
ghost use Rattle.rules.specs.Calls.{state_length_fault, state_fault, words_length_fault, thread_fault};
ghost use Rattle.rules.specs.Calls.{met_length_fault, fresh_return, walk_fault};
ghost use Rattle.check_refusal.specs.Refusals.{number_of};
ghost use Rattle.check_state.specs.Faults.{machine_faults};

use crate::form::well_formed;
use check_image::image_fault;
use check_refusal::{Refusal, ensure};
use rules::layout::{STATE_SIZE, WORDS_SIZE};
use rules::sorts::Thread;

#[tactic(auto, unfolding(rules::specs::Calls::state_length_fault))]
pub fn state_length_fault(state: &[u8]) -> Result<(), Refusal>
    ensures { number_of result ≡ state_length_fault state.now }
{
    ensure(state.len() == STATE_SIZE, Refusal::StateLength)
}

#[tactic(auto, unfolding(rules::specs::Calls::state_fault))]
pub fn state_fault(image: &[u8], table: &[u8], state: &[u8]) -> Result<(), Refusal>
    requires { Checked image.now table.now × (length state.now ≡ state_size) }
    ensures { number_of result ≡ state_fault image.now table.now state.now }
{
    ensure(well_formed(image, table, state), Refusal::State)
}

#[tactic(auto, unfolding(rules::specs::Calls::words_length_fault))]
pub fn words_length_fault(words: &[u8]) -> Result<(), Refusal>
    ensures { number_of result ≡ words_length_fault words.now }
{
    ensure(words.len() == WORDS_SIZE, Refusal::WordsLength)
}

#[tactic(auto, unfolding(rules::specs::Calls::thread_fault))]
pub fn thread_fault(thread: u32) -> Result<(), Refusal>
    ensures { number_of result ≡ thread_fault thread }
{
    ensure((thread as usize) < Thread::COUNT, Refusal::WalkThread)
}

#[tactic(auto, unfolding(rules::specs::Calls::met_length_fault))]
pub fn met_length_fault(met: &[u8]) -> Result<(), Refusal>
    ensures { number_of result ≡ met_length_fault met.now }
{
    ensure(met.len() == Thread::COUNT, Refusal::MetLength)
}

// The first of the refusals 1 to 6.
pub fn machine_fault(image: &[u8], table: &[u8], state: &[u8]) -> Result<(), Refusal>
    ensures { number_of result ≡ first_refusal (machine_faults image.now table.now state.now) }
{
    image_fault(image, table)?;
    state_length_fault(state)?;
    state_fault(image, table, state)
}

// The first of the refusals 1 to 5 and 10 of Fresh.
#[tactic(auto, using(crate::specs::Faults::machine_refusing), unfolding(rules::specs::Calls::fresh_return))]
pub fn fresh_fault(image: &[u8], table: &[u8], words: &[u8], state: &[u8]) -> Result<(), Refusal>
    ensures { number_of result ≡ fresh_return image.now table.now words.now state.now }
{
    image_fault(image, table)?;
    state_length_fault(state)?;
    words_length_fault(words)
}

// The first of the refusals 1 to 6, 11 and 12 of the walk.
#[tactic(auto, using(crate::specs::Faults::machine_refusing), unfolding(rules::specs::Calls::walk_fault))]
pub fn walk_fault(
    image: &[u8],
    table: &[u8],
    state: &[u8],
    thread: u32,
    met: &[u8],
) -> Result<(), Refusal>
    ensures { number_of result ≡ walk_fault image.now table.now state.now thread met.now }
{
    machine_fault(image, table, state)?;
    thread_fault(thread)?;
    met_length_fault(met)
}
