// The list of trees: its count, a thread's first tree, a tree that comes, and a tree that leaves or goes to the end.
ghost use Rattle.std.specs.Prelude.{◌≡◌, true, [], ◌∷◌, ◌++◌, ℕ, ◌+◌, ◌*◌, ◌<◌, ◌≤◌, length, drop, replicate};
ghost use Rattle.rules.specs.Sizes.{tree_count, tree_size, tree_count_place, trees_place, signal_size, state_size};
ghost use Rattle.rules.specs.Bytes.{part};
ghost use Rattle.rules.specs.Machine.{tree_threads};
ghost use Rattle.rules.specs.Encoding.{signal_bytes, signal_from, tree_bytes, machine_from};
ghost use Rattle.rules.specs.WellFormed.{signal_tidy};
ghost use Rattle.rules.specs.Steps.{room_for};
ghost use Rattle.bytes_fields.specs.Put.{put};
ghost use Rattle.bytes_fields.specs.Filled.{remove_at};
ghost use Rattle.bytes_fields.specs.Found.{found_below};
ghost use Rattle.lemmas_encoding.specs.FirstTree.{first_tree};
ghost use Rattle.lemmas_encoding.specs.SignalStores.{moved};
ghost use Rattle.lemmas_encoding.specs.TreeStores.{with_trees};
ghost use Rattle.state_signal.specs.Signals.{signal_of, TidySignal};
ghost use Rattle.state_pending.specs.Canon.{Canon, tree_at};
ghost use Rattle.state_trees.specs.Changes.{arrived, ended};

use bytes_fields::read::get8;
use bytes_fields::write::{clear, copy, put8};
use rules::layout::{PENDING_COUNT_PLACE, SIGNALS_PLACE, TREE_COUNT_PLACE, TREE_SIZE, TREES_PLACE};
use rules::limits::Tree;
use rules::sorts::{Thread, thread_number};
use state_pending::pending;
use state_signal::{Signal, read_signal, write_signal};

pub fn tree_count(state: &[u8]) -> usize
    requires { Canon state.now }
    ensures { result ≡ length (machine_from state.now).trees }
{
    get8(state, TREE_COUNT_PLACE)
}

// Is there room for one more tree on a thread? Arrivals and the signals that a job held go by this.
pub fn room(state: &[u8], t: Thread) -> bool
    requires { Canon state.now }
    ensures { result ≡ room_for (tree_threads (machine_from state.now).trees) t.0 }
{
    tree_count(state) < Tree::COUNT
}

// The place of the first tree on a thread, if there is one.
pub fn first_tree(state: &[u8], t: Thread) -> Option<usize>
    requires { Canon state.now }
    ensures { result ≡ found_below (length (machine_from state.now).trees)
        (first_tree t.0 (machine_from state.now).trees) }
{
    let thread = thread_number(t);
    let n = tree_count(state);
    for i in 0..n {
        if state[TREES_PLACE + TREE_SIZE * i] == thread {
            return Some(i);
        }
    }
    None
}

// A tree on thread t with the one signal g, at a place that is free.
fn write_tree(s: &mut [u8], at: usize, t: Thread, g: Signal)
    requires { (at + tree_size ≤ length s.old) × TidySignal g }
    ensures { s.new ≡ put s.old at (t.0 ∷ 1 ∷ signal_bytes (signal_of g)) }
{
    put8(s, at, thread_number(t));
    put8(s, at + PENDING_COUNT_PLACE, 1);
    write_signal(s, at + SIGNALS_PLACE, g);
}

// That tree comes to the list's end.
pub fn append_tree(state: &mut [u8], t: Thread, g: Signal)
    requires { Canon state.old × (length (machine_from state.old).trees < tree_count) × TidySignal g }
    ensures canon { Canon state.new }
    ensures state_after { machine_from state.new ≡ arrived t.0 (signal_of g) (machine_from state.old) }
{
    let n = tree_count(state);
    write_tree(state, TREES_PLACE + TREE_SIZE * n, t, g);
    put8(state, TREE_COUNT_PLACE, (n + 1) as u8);
}

// An arrival: a tree on thread t with the one signal whose bytes stand at a place of another buffer.
pub fn append(state: &mut [u8], t: Thread, bytes: &[u8], at: usize)
    requires { Canon state.old × (length (machine_from state.old).trees < tree_count) × (at + signal_size ≤ length bytes.now)
        × (signal_tidy (drop at bytes.now) ≡ true) }
    ensures canon { Canon state.new }
    ensures state_after { machine_from state.new ≡ arrived t.0 (signal_from (drop at bytes.now))
        (machine_from state.old) }
{
    append_tree(state, t, read_signal(bytes, at));
}

// As `bytes_fields::write::remove`.
// Kept: a loop, of which the compiler makes one call of the C library: by `copy_within` the trees behind were moved 32 bytes a turn.
fn remove_bytes(s: &mut [u8], at: usize, n: usize, more: usize)
    requires { at + n + more ≤ length s.old }
    ensures { s.new ≡ put s.old at (part s.old (at + n) more ++ replicate n 0) }
{
    for k in 0..more {
        s[at + k] = s[at + n + k];
    }
    clear(s, at + more, n);
}

// Tree i of n leaves the list: the later ones move down, and zeros fill the last one's place.
fn remove_tree(state: &mut [u8], i: usize, n: usize)
    requires { Canon state.old × (i < length (machine_from state.old).trees) × (n ≡ length (machine_from state.old).trees) }
    ensures canon { Canon state.new }
    ensures state_after { machine_from state.new ≡ with_trees (machine_from state.old)
        (remove_at i (machine_from state.old).trees) }
{
    remove_bytes(
        state,
        TREES_PLACE + TREE_SIZE * i,
        TREE_SIZE,
        TREE_SIZE * (n - 1 - i),
    );
    put8(state, TREE_COUNT_PLACE, (n - 1) as u8);
}

// The bytes of a tree, copied from another buffer, come after n trees.
fn append_copy(state: &mut [u8], n: usize, tree: &[u8])
    requires { (length state.old ≡ state_size) × (n < tree_count) × (length tree.now ≡ tree_size) }
    ensures { state.new ≡ put (put state.old (trees_place + tree_size * n) tree.now) tree_count_place
        ((n + 1) ∷ []) }
{
    copy(state, TREES_PLACE + TREE_SIZE * n, tree, 0, TREE_SIZE);
    put8(state, TREE_COUNT_PLACE, (n + 1) as u8);
}

// Tree i of n, whose bytes stand in another buffer too, leaves the list and comes to its end.
fn reinsert(state: &mut [u8], i: usize, n: usize, tree: &[u8])
    requires { Canon state.old × (i < length (machine_from state.old).trees) × (n ≡ length (machine_from state.old).trees)
        × (tree.now ≡ tree_bytes (tree_at (machine_from state.old) i)) }
    ensures canon { Canon state.new }
    ensures state_after { machine_from state.new ≡ with_trees (machine_from state.old)
        (remove_at i (machine_from state.old).trees ++ tree_at (machine_from state.old) i ∷ []) }
{
    remove_tree(state, i, n);
    append_copy(state, n - 1, tree);
}

// Tree i of n goes to the list's end.
fn move_to_end(state: &mut [u8], i: usize, n: usize)
    requires { Canon state.old × (i < length (machine_from state.old).trees) × (n ≡ length (machine_from state.old).trees) }
    ensures canon { Canon state.new }
    ensures state_after { machine_from state.new ≡ with_trees (machine_from state.old)
        (remove_at i (machine_from state.old).trees ++ tree_at (machine_from state.old) i ∷ []) }
{
    if i + 1 < n {
        let mut tree = [0u8; TREE_SIZE];
        copy(&mut tree, 0, state, TREES_PLACE + TREE_SIZE * i, TREE_SIZE);
        reinsert(state, i, n, &tree);
    }
}

// Tree i of n goes to the list's end, on thread t.
fn requeue(state: &mut [u8], i: usize, n: usize, t: Thread)
    requires { Canon state.old × (i < length (machine_from state.old).trees) × (n ≡ length (machine_from state.old).trees) }
    ensures canon { Canon state.new }
    ensures state_after { machine_from state.new ≡ with_trees (machine_from state.old)
        (remove_at i (machine_from state.old).trees ++ moved (tree_at (machine_from state.old) i) t.0 ∷ []) }
{
    move_to_end(state, i, n);
    put8(state, TREES_PLACE + TREE_SIZE * (n - 1), thread_number(t));
}

// The tree of an ended job: one with nothing pending leaves the list, any other goes to the list's end, on thread t.
pub fn end_tree(state: &mut [u8], i: usize, t: Thread)
    requires { Canon state.old × (i < length (machine_from state.old).trees) }
    ensures canon { Canon state.new }
    ensures by_index { (u : ℕ) → i ≡ first_tree u (machine_from state.old).trees
        → machine_from state.new ≡ ended u t.0 i (machine_from state.old) }
{
    let n = tree_count(state);
    if pending(state, i) == 0 {
        remove_tree(state, i, n);
    } else {
        requeue(state, i, n, t);
    }
}
