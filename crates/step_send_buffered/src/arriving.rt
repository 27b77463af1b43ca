// An arrival: a tree with its signal goes to the list's end, if there is room for it.
ghost use Rattle.std.specs.Prelude.{◌≡◌, ◌*◌, get_or, drop};
ghost use Rattle.rules.specs.Sizes.{event_size};
ghost use Rattle.rules.specs.Codes.{arrival_code};
ghost use Rattle.rules.specs.Events.{event_from};
ghost use Rattle.step_contract.specs.Ready.{Ready, Done, reply_to};
ghost use Rattle.step_send_buffered.specs.Arrivals.{EventAt};

use bytes_fields::read::get16;
use image_record::records::block_at;
use image_table::thread_at;
use rules::answer::Answer;
use rules::layout::{EVENT_SIGNAL_PLACE, EVENT_SIZE};
use rules::sorts::Label;
use state_trees::list::{append, room};

// The arrival at an index of the events.
pub fn arrive(image: &[u8], table: &[u8], state: &mut [u8], events: &[u8], i: usize) -> Answer
    requires { Ready image.now table.now state.old × EventAt image.now events.now i
        × (get_or events.now (event_size * i) 0 ≡ arrival_code) }
    ensures { Done (reply_to image.now table.now state.old
        (event_from (drop (event_size * i) events.now))) state.new result }
{
    let at = EVENT_SIZE * i + EVENT_SIGNAL_PLACE;
    let t = thread_at(table, block_at(image, Label::from(get16(events, at))));
    if room(state, t) {
        append(state, t, events, at);
        return Answer::Taken;
    }
    Answer::ListFull
}
