// The trees of the state, and the queues that they make, in one pass.
ghost use Rattle.std.specs.Prelude.{◌≡◌, map, ◌+◌, ◌<◌, ◌≤◌, length, drop};
ghost use Rattle.rules.specs.Sizes.{thread_count, tree_count, thread_size, tree_size, words_size};
ghost use Rattle.rules.specs.Sorts.{thread};
ghost use Rattle.rules.specs.Bytes.{chunks};
ghost use Rattle.rules.specs.Image.{row_at};
ghost use Rattle.rules.specs.Encoding.{thread_from, tree_from};
ghost use Rattle.rules.specs.Steps.{block_at};
ghost use Rattle.rules.specs.WellFormed.{homed};
ghost use Rattle.lemmas_rules.specs.Passed.{Passed};
ghost use Rattle.check_queues.specs.Queues.{flag};
ghost use Rattle.check_queues.specs.Passing.{trees_good};

use bytes_fields::read::{all_zero, get8, get16};
use check_trees::tree_good;
use image_record::record_fields::block_field;
use image_record::records::find_record;
use image_table::thread_at;
use rules::layout::{
    PENDING_COUNT_PLACE, SIGNALS_PLACE, STATE_SIZE, THREAD_SIZE, THREADS_PLACE, TREE_SIZE,
    TREES_PLACE,
};
use rules::sorts::{Label, Thread, thread_number};

// A flag for each thread: 1 where it runs, 0 where it is idle.
pub fn flag_running(state: &[u8; STATE_SIZE], flags: &mut [u8; Thread::COUNT])
    ensures { flags.new ≡ map flag (chunks thread_from thread_size thread_count (drop words_size state.now)) }
{
    for t in 0..Thread::COUNT {
        flags[t] = (get16(state, THREADS_PLACE + THREAD_SIZE * t) != Label::IDLE) as u8;
    }
}

// The thread of a label's block; where there is no record, one that nobody has.
// Kept: the law says this thread where there is no record, and a tree of thread 8 equals it: `None` would say something else.
pub fn home(image: &[u8], table: &[u8], l: Label) -> Thread
    requires { Passed image.now table.now }
    ensures { result ≡ thread (row_at table.now (block_at image.now l.0)).thread }
{
    match find_record(image, l) {
        Some(r) => thread_at(table, block_field(r)),
        None => Thread::from(Thread::COUNT as u8),
    }
}

// Whether a tree has a signal pending and belongs to the thread of the first one's block.
pub fn is_homed(image: &[u8], table: &[u8], s: &[u8], at: usize) -> bool
    requires { Passed image.now table.now × (at + tree_size ≤ length s.now) }
    ensures { result ≡ homed image.now table.now (tree_from (drop at s.now)) }
{
    if s[at + PENDING_COUNT_PLACE] == 0 {
        return false;
    }
    s[at] == thread_number(home(image, table, Label::from(get16(s, at + SIGNALS_PLACE))))
}

// Every tree is good. A running thread's first tree may stand where it stands; any other has to belong there. At the end no running
// thread is without a tree.
pub fn trees_good(image: &[u8], table: &[u8], state: &[u8; STATE_SIZE], count: usize) -> bool
    requires { Passed image.now table.now × (count ≤ tree_count) }
    ensures { result ≡ trees_good image.now table.now state.now count }
{
    let mut unmet = [0u8; Thread::COUNT];
    flag_running(state, &mut unmet);
    for i in 0..count {
        let at = TREES_PLACE + TREE_SIZE * i;
        if !tree_good(image, state, at) {
            return false;
        }
        let t = get8(state, at);
        if !((unmet[t] != 0) | is_homed(image, table, state, at)) {
            return false;
        }
        unmet[t] = 0;
    }
    all_zero(&unmet, 0, Thread::COUNT)
}
