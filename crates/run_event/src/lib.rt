// An event carried out: an arrival, a step or a cut.
#![tactic(auto)]

ghost use Rattle.std.specs.Prelude.{◌*◌, drop};
ghost use Rattle.rules.specs.Sizes.{event_size};
ghost use Rattle.rules.specs.Events.{event_from};
ghost use Rattle.step_contract.specs.Ready.{Ready, Done, reply_to};
ghost use Rattle.step_send_buffered.specs.Arrivals.{EventAt};

use rules::answer::Answer;
use rules::codes::{ARRIVAL, STEP};
use rules::layout::{EVENT_KIND_PLACE, EVENT_SIZE, EVENT_THREAD_PLACE};
use rules::sorts::Thread;
use state_thread_record::read_thread;
use step_dispatch::step;
use step_end::cut_job;
use step_send_buffered::arriving::arrive;

// The event at an index.
pub fn event(image: &[u8], table: &[u8], state: &mut [u8], events: &[u8], i: usize) -> Answer
    requires { Ready image.now table.now state.old × EventAt image.now events.now i }
    ensures { Done (reply_to image.now table.now state.old
        (event_from (drop (event_size * i) events.now))) state.new result }
{
    let at = EVENT_SIZE * i;
    let t = Thread::from(events[at + EVENT_THREAD_PLACE]);
    // Kept: by the byte, since every event here has a kind, and EventKind::try_from asks again whether it has one.
    let kind = events[at + EVENT_KIND_PLACE];
    if kind == STEP {
        return step(image, table, state, t);
    }
    if kind == ARRIVAL {
        return arrive(image, table, state, events, i);
    }
    let w = read_thread(state, t);
    cut_job(image, table, state, t, w)
}
