// Whom a thread waits for, asked without carrying its step out.
#![tactic(auto)]

ghost use Rattle.std.specs.Prelude.{◌≡◌, ◌<◌};
ghost use Rattle.rules.specs.Sizes.{thread_count};
ghost use Rattle.rules.specs.Machine.{idle, thread_at};
ghost use Rattle.rules.specs.Encoding.{machine_from};
ghost use Rattle.step_contract.specs.Ready.{Ready};
ghost use Rattle.step_contract.specs.At.{At};
ghost use Rattle.walk_waits.specs.Waiting.{awaited_by, passage_waits};

use image_record::records::record_of;
use rules::codes::{CALL, SEND_DIRECT};
use rules::layout::OPCODE_PLACE;
use rules::sorts::Thread;
use rules::trap::Trap;
use state_thread::thread::ThreadState;
use state_thread_record::read_thread;
use step_lock::{Passage, passage_of};
use step_start::{First, first_signal};

// Of a running thread, by the passage of its statement.
fn passage_waits(p: Result<Passage, Trap>) -> Option<Thread>
    ensures { result ≡ passage_waits p }
{
    match p {
        Ok(Passage::Wait(_, u)) => Some(u),
        Ok(Passage::Go(_) | Passage::Own) | Err(_) => None,
    }
}

// Of a running thread: only direct SEND and CALL take locks.
fn running_waits(
    image: &[u8],
    table: &[u8],
    state: &[u8],
    t: Thread,
    w: ThreadState,
    r: &[u8],
) -> Option<Thread>
    requires { At image.now table.now state.now t.0 w r.now }
    ensures { result ≡ awaited_by image.now table.now state.now t.0 }
{
    let mut values = [0u16; Thread::REGISTERS];
    match r[OPCODE_PLACE] {
        SEND_DIRECT => passage_waits(passage_of::<false>(
            image,
            table,
            state,
            t,
            w,
            r,
            &mut values,
        )),
        CALL => passage_waits(passage_of::<true>(image, table, state, t, w, r, &mut values)),
        _ => None,
    }
}

// Of an idle thread: the start of a job takes a lock.
fn idle_waits(image: &[u8], table: &[u8], state: &[u8], t: Thread) -> Option<Thread>
    requires { Ready image.now table.now state.now × (thread_at (machine_from state.now) t.0 ≡ idle) }
    ensures { result ≡ awaited_by image.now table.now state.now t.0 }
{
    match first_signal(image, table, state, t) {
        Some(First::Wait(_, u)) => Some(u),
        Some(First::Go(_, _)) => None,
        None => None,
    }
}

// A thread waits for the holder if its next step would be answered 4.
pub fn awaited(image: &[u8], table: &[u8], state: &[u8], t: Thread) -> Option<Thread>
    requires { Ready image.now table.now state.now × (t.0 < thread_count) }
    ensures { result ≡ awaited_by image.now table.now state.now t.0 }
{
    let w = read_thread(state, t);
    if w.is_idle() {
        return idle_waits(image, table, state, t);
    }
    let label = w.label;
    running_waits(image, table, state, t, w, record_of(image, label))
}
