// IF: on to A if the relation holds, else to B.
#![tactic(auto)]

ghost use Rattle.std.specs.Prelude.{◌≡◌, cond, length};
ghost use Rattle.rules.specs.Sorts.{label};
ghost use Rattle.rules.specs.Sizes.{record_size};
ghost use Rattle.rules.specs.Image.{label_a, label_b};
ghost use Rattle.rules.specs.Effects.{holds};
ghost use Rattle.rules.specs.Statements.{statement_of};
ghost use Rattle.rules.specs.declared.statement.Statement.TheVariants.{If};
ghost use Rattle.step_contract.specs.Ready.{Stepped};
ghost use Rattle.step_contract.specs.At.{At};

use image_record::record_fields::{label_a, label_b};
use rules::answer::Answer;
use rules::sorts::{Label, Thread};
use rules::statement::{Condition, Relation};
use state_thread::thread::ThreadState;
use step_end::trapped;
use step_goto::go_on;
use step_operands::read_pair;

pub fn relation_holds(relation: Relation, p: u16, q: u16) -> bool
    ensures { result ≡ holds relation p q }
{
    match relation {
        Relation::Equal => p == q,
        Relation::Less => p < q,
    }
}

// A where the test holds, else B.
fn label_by(r: &[u8], test: bool) -> Label
    requires { length r.now ≡ record_size }
    ensures { result ≡ label (cond test (label_a r.now) (label_b r.now)) }
{
    if test { label_a(r) } else { label_b(r) }
}

pub fn branch(
    image: &[u8],
    table: &[u8],
    state: &mut [u8],
    t: Thread,
    w: ThreadState,
    r: &[u8],
    c: Condition,
) -> Answer
    requires { At image.now table.now state.old t.0 w r.now × (statement_of r.now ≡ If c) }
    ensures { Stepped image.now table.now state.old t.0 state.new result }
{
    let pair = match read_pair(state, t, w, r, 0, true) {
        Ok(pair) => pair,
        Err(trap) => return trapped(image, table, state, t, w, u8::from(trap)),
    };
    let relation = c.relation;
    let test = relation_holds(relation, pair.left, pair.right);
    go_on(state, t, w, label_by(r, test))
}
