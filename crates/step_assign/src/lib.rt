// ASSIGN and its kind: values are worked out and stored.
#![tactic(auto)]

ghost use Rattle.std.specs.Prelude.{◌≡◌};
ghost use Rattle.rules.specs.Statements.{statement_of};
ghost use Rattle.rules.specs.declared.statement.Statement.TheVariants.{Assign};
ghost use Rattle.step_contract.specs.Ready.{Stepped};
ghost use Rattle.step_contract.specs.At.{At};

use rules::answer::Answer;
use rules::sorts::Thread;
use rules::statement::Assignment;
use state_thread::thread::ThreadState;
use step_end::trapped;
use step_results::results_of;
use step_store::store_results;

pub fn assign(
    image: &[u8],
    table: &[u8],
    state: &mut [u8],
    t: Thread,
    w: ThreadState,
    r: &[u8],
    a: Assignment,
) -> Answer
    requires { At image.now table.now state.old t.0 w r.now × (statement_of r.now ≡ Assign a) }
    ensures { Stepped image.now table.now state.old t.0 state.new result }
{
    let results = match results_of(state, t, w, r, a) {
        Ok(results) => results,
        Err(trap) => return trapped(image, table, state, t, w, u8::from(trap)),
    };
    store_results(
        image,
        table,
        state,
        t,
        w,
        r,
        a,
        results.first,
        results.second,
    );
    Answer::Moved
}
