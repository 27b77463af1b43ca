// The calls of `plex` for C, exported under their own names: each promises what `plex` promises of it. C passes a slice as a pointer and
// then a length, as include/plex.h declares.
#![tactic(auto)]

ghost use Rattle.std.specs.Prelude.{◌≡◌};
ghost use Rattle.rules.specs.Calls.{check_return, fresh_return, fresh_state, run_return, run_state, run_answers, walk_return, walk_met};
ghost use Rattle.rules.specs.Calls.{link_return, link_out};
ghost use Rattle.plex.specs.Version.{version_number};

// The version as one number.
#[unsafe(no_mangle)]
pub extern "C" fn plex_version() -> u32
    ensures { result ≡ version_number }
{
    plex::plex_version()
}

// The image check.
#[unsafe(no_mangle)]
pub extern "C" fn plex_check(image: &[u8], table: &[u8]) -> u32
    ensures { result ≡ check_return image.now table.now }
{
    plex::plex_check(image, table)
}

// A fresh machine with these initial words.
#[unsafe(no_mangle)]
pub extern "C" fn plex_fresh(image: &[u8], table: &[u8], words: &[u8], state: &mut [u8]) -> u32
    ensures value { result ≡ fresh_return image.now table.now words.now state.old }
    ensures state_after { state.new ≡ fresh_state image.now table.now words.now state.old }
{
    plex::plex_fresh(image, table, words, state)
}

// Events carried out on a state, each with the two bytes of its answer.
#[unsafe(no_mangle)]
pub extern "C" fn plex_run(
    image: &[u8],
    table: &[u8],
    state: &mut [u8],
    events: &[u8],
    answers: &mut [u8],
) -> u32
    ensures value { result ≡ run_return image.now table.now state.old events.now
        answers.old }
    ensures state_after { state.new ≡ run_state image.now table.now state.old events.now
        answers.old }
    ensures answers_after { answers.new ≡ run_answers image.now table.now state.old
        events.now answers.old }
{
    plex::plex_run(image, table, state, events, answers)
}

// The walk along waits from a thread.
#[unsafe(no_mangle)]
pub extern "C" fn plex_walk(
    image: &[u8],
    table: &[u8],
    state: &[u8],
    thread: u32,
    met: &mut [u8],
) -> u32
    ensures value { result ≡ walk_return image.now table.now state.now thread met.old }
    ensures met_after { met.new ≡ walk_met image.now table.now state.now thread met.old }
{
    plex::plex_walk(image, table, state, thread, met)
}

// Two images linked into one: the second behind the first.
#[unsafe(no_mangle)]
pub extern "C" fn plex_link(first: &[u8], second: &[u8], table: &[u8], out: &mut [u8]) -> u32
    ensures value { result ≡ link_return first.now second.now table.now out.old }
    ensures out_after { out.new ≡ link_out first.now second.now table.now out.old }
{
    plex::plex_link(first, second, table, out)
}
