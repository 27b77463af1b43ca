// The calls that a host makes, on byte slices and numbers. Each returns one number: but for the version 0, or 65,536 × number + place of
// the first refusal.
#![tactic(auto)]

ghost use Rattle.std.specs.Prelude.{◌≡◌};
ghost use Rattle.rules.specs.Calls.{check_return, fresh_return, fresh_state, run_return, run_state, run_answers, walk_return, walk_met};
ghost use Rattle.rules.specs.Calls.{link_return, link_out};
ghost use Rattle.plex.specs.Version.{version_number};

use check_events::faults::run_fault;
use check_image::image_fault;
use check_link::link_fault;
use check_state::faults::{fresh_fault, walk_fault};
use image_link::link;
use rules::sorts::Thread;
use run_events::run;
use state_fresh::fresh;
use walk_threads::walk;

// The library's version.
const MAJOR: u32 = 0;

const MINOR: u32 = 9;

const PATCH: u32 = 0;

// The version as one number.
pub fn plex_version() -> u32
    ensures { result ≡ version_number }
{
    65536 * MAJOR + 256 * MINOR + PATCH
}

// The image check.
pub fn plex_check(image: &[u8], table: &[u8]) -> u32
    ensures { result ≡ check_return image.now table.now }
{
    match image_fault(image, table) {
        Ok(()) => 0,
        Err(refusal) => refusal.into(),
    }
}

// A fresh machine with these initial words.
pub fn plex_fresh(image: &[u8], table: &[u8], words: &[u8], state: &mut [u8]) -> u32
    ensures value { result ≡ fresh_return image.now table.now words.now state.old }
    ensures state_after { state.new ≡ fresh_state image.now table.now words.now state.old }
{
    match fresh_fault(image, table, words, state) {
        Ok(()) => {
            fresh(words, state);
            0
        }
        Err(refusal) => refusal.into(),
    }
}

// Events carried out on a state, each with the two bytes of its answer.
pub fn plex_run(
    image: &[u8],
    table: &[u8],
    state: &mut [u8],
    events: &[u8],
    answers: &mut [u8],
) -> u32
    ensures value { result ≡ run_return image.now table.now state.old events.now
        answers.old }
    ensures state_after { state.new ≡ run_state image.now table.now state.old events.now
        answers.old }
    ensures answers_after { answers.new ≡ run_answers image.now table.now state.old
        events.now answers.old }
{
    match run_fault(image, table, state, events, answers) {
        Ok(()) => {
            run(image, table, state, events, answers);
            0
        }
        Err(refusal) => refusal.into(),
    }
}

// The walk along waits from a thread.
pub fn plex_walk(image: &[u8], table: &[u8], state: &[u8], thread: u32, met: &mut [u8]) -> u32
    ensures value { result ≡ walk_return image.now table.now state.now thread met.old }
    ensures met_after { met.new ≡ walk_met image.now table.now state.now thread met.old }
{
    match walk_fault(image, table, state, thread, met) {
        Ok(()) => walk(image, table, state, Thread::from(thread as u8), met),
        Err(refusal) => refusal.into(),
    }
}

// Two images linked into one: the second behind the first.
pub fn plex_link(first: &[u8], second: &[u8], table: &[u8], out: &mut [u8]) -> u32
    ensures value { result ≡ link_return first.now second.now table.now out.old }
    ensures out_after { out.new ≡ link_out first.now second.now table.now out.old }
{
    match link_fault(first, second, table, out) {
        Ok(()) => {
            link(out, first, second);
            0
        }
        Err(refusal) => refusal.into(),
    }
}
