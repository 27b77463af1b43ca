// The thread goes on: SKIP and GOTO, and what other statements end with.
#![tactic(auto)]

ghost use Rattle.std.specs.Prelude.{◌≡◌, ◌<◌};
ghost use Rattle.rules.specs.Sizes.{thread_count, idle_label};
ghost use Rattle.rules.specs.Machine.{job};
ghost use Rattle.rules.specs.Encoding.{machine_from};
ghost use Rattle.rules.specs.Statements.{statement_of};
ghost use Rattle.rules.specs.declared.statement.Statement.TheVariants.{Skip};
ghost use Rattle.lemmas_encoding.specs.Encoded.{Encodes, Canonical};
ghost use Rattle.state_thread.specs.Threads.{Running, returns_of, registers_of, with_job, keeping};
ghost use Rattle.step_contract.specs.Ready.{Stepped};
ghost use Rattle.step_contract.specs.At.{At};

use image_record::record_fields::label_a;
use rules::answer::Answer;
use rules::sorts::{Label, Thread};
use state_thread::thread::ThreadState;
use state_thread_record::write_thread;

// The thread goes on to a label, with its registers.
pub fn go_on(state: &mut [u8], t: Thread, w: ThreadState, to: Label) -> Answer
    requires { Canonical state.old × (t.0 < thread_count) × Running w × (to.0 < idle_label) }
    ensures value { result ≡ Answer.Moved }
    ensures encodes { Encodes state.new (with_job (machine_from state.old) t.0 w.locks
        (keeping w (job to.0 (returns_of w) (registers_of w)))) }
{
    write_thread(state, t, w.move_on(to));
    Answer::Moved
}

pub fn skip(
    image: &[u8],
    table: &[u8],
    state: &mut [u8],
    t: Thread,
    w: ThreadState,
    r: &[u8],
) -> Answer
    requires { At image.now table.now state.old t.0 w r.now × (statement_of r.now ≡ Skip) }
    ensures { Stepped image.now table.now state.old t.0 state.new result }
{
    go_on(state, t, w, label_a(r))
}
