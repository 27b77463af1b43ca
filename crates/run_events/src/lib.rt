// A run: every event in order, each with the two bytes of its answer, for which there is space.
#![tactic(auto)]

ghost use Rattle.std.specs.Prelude.{◌≡◌, ◌*◌, length};
ghost use Rattle.rules.specs.Sizes.{answer_size};
ghost use Rattle.rules.specs.Bytes.{blocks};
ghost use Rattle.rules.specs.Encoding.{encode, machine_from};
ghost use Rattle.rules.specs.Answers.{answer_bytes};
ghost use Rattle.rules.specs.Events.{events_in, events_from};
ghost use Rattle.rules.specs.Steps.{rules_by, answers, final};
ghost use Rattle.step_contract.specs.Ready.{Ready};
ghost use Rattle.run_events.specs.Runs.{Events};

use rules::layout::EVENT_SIZE;
use run_answer::write_answer;
use run_event::event;

pub fn run(image: &[u8], table: &[u8], state: &mut [u8], events: &[u8], space: &mut [u8])
    requires ready { Ready image.now table.now state.old }
    requires events { Events image.now events.now × (length space.old ≡ answer_size * events_in events.now) }
    ensures state_after { state.new ≡ encode (final (rules_by image.now table.now)
        (machine_from state.old) (events_from events.now)) }
    ensures space_after { space.new ≡ blocks answer_bytes (answers (rules_by image.now table.now)
        (machine_from state.old) (events_from events.now)) }
{
    for i in 0..events.len() / EVENT_SIZE {
        let a = event(image, table, state, events, i);
        write_answer(space, i, a);
    }
}
