// A step of a thread: an idle one starts a job, a running one carries out the statement at its label.
#![tactic(auto)]

ghost use Rattle.std.specs.Prelude.{◌<◌};
ghost use Rattle.rules.specs.Sizes.{thread_count};
ghost use Rattle.step_contract.specs.Ready.{Ready, Stepped, thread_in};
ghost use Rattle.step_contract.specs.At.{At};

use image_decode::statement_of;
use image_record::records::record_of;
use rules::answer::Answer;
use rules::sorts::{Label, Thread, label_number};
use rules::statement::Statement;
use state_thread_record::{read_label, read_thread};
use step_assign::assign;
use step_exit::leave;
use step_goto::skip;
use step_if::branch;
use step_send_buffered::buffered::send_buffered;
use step_send_call::enter;
use step_send_jobtree::send_tree;
use step_start::start;
use step_transfer_return::{give_back, transfer};

// The statement in the record r at the label of thread t. Each arm reads the thread, as one value, by itself: what a statement does not
// need of it is then not loaded.
fn carry_out(image: &[u8], table: &[u8], state: &mut [u8], t: Thread, r: &[u8]) -> Answer
    requires { At image.now table.now state.old t.0 (thread_in state.old t.0) r.now }
    ensures { Stepped image.now table.now state.old t.0 state.new result }
{
    match statement_of(r) {
        Statement::Skip => skip(image, table, state, t, read_thread(state, t), r),
        Statement::Assign(a) => assign(image, table, state, t, read_thread(state, t), r, a),
        Statement::If(c) => branch(image, table, state, t, read_thread(state, t), r, c),
        Statement::SendDirect => enter::<false>(image, table, state, t, r),
        Statement::SendBuffered => send_buffered(image, table, state, t, read_thread(state, t), r),
        Statement::Call => enter::<true>(image, table, state, t, r),
        Statement::Return => give_back(image, table, state, t, read_thread(state, t), r),
        Statement::Transfer => transfer(image, table, state, t, read_thread(state, t), r),
        Statement::Exit => leave(image, table, state, t, r),
        Statement::SendTree => send_tree(image, table, state, t, read_thread(state, t), r),
    }
}

pub fn step(image: &[u8], table: &[u8], state: &mut [u8], t: Thread) -> Answer
    requires { Ready image.now table.now state.old × (t.0 < thread_count) }
    ensures { Stepped image.now table.now state.old t.0 state.new result }
{
    let label = read_label(state, t);
    if label_number(label) == Label::IDLE {
        return start(image, table, state, t, read_thread(state, t));
    }
    carry_out(image, table, state, t, record_of(image, label))
}
