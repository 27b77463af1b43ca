// The pending signals of tree i, oldest first.
#![tactic(auto)]

ghost use Rattle.std.specs.Prelude.{◌≡◌, ℕ, ◌<◌, length, get_or};
ghost use Rattle.rules.specs.Sizes.{pending_count};
ghost use Rattle.rules.specs.Sorts.{label};
ghost use Rattle.rules.specs.Encoding.{no_signal, machine_from};
ghost use Rattle.lemmas_encoding.specs.FirstTree.{first_tree};
ghost use Rattle.state_signal.specs.Signals.{signal_of, TidySignal};
ghost use Rattle.state_pending.specs.Canon.{Canon, pending_at};
ghost use Rattle.state_pending.specs.Changes.{taken, sent};

use bytes_fields::read::{get8, get16};
use bytes_fields::write::{put8, remove};
use rules::layout::{PENDING_COUNT_PLACE, SIGNAL_SIZE, SIGNALS_PLACE, TREE_SIZE, TREES_PLACE};
use rules::sorts::Label;
use state_signal::{Signal, read_signal, write_signal};

// How many there are.
pub fn pending(state: &[u8], i: usize) -> usize
    requires { Canon state.now × (i < length (machine_from state.now).trees) }
    ensures { result ≡ length (pending_at (machine_from state.now) i) }
{
    get8(state, TREES_PLACE + TREE_SIZE * i + PENDING_COUNT_PLACE)
}

pub fn oldest_label(state: &[u8], i: usize) -> Label
    requires { Canon state.now × (i < length (machine_from state.now).trees)
        × (0 < length (pending_at (machine_from state.now) i)) }
    ensures { result ≡ label (get_or (pending_at (machine_from state.now) i) 0 no_signal).label }
{
    Label::from(get16(state, TREES_PLACE + TREE_SIZE * i + SIGNALS_PLACE))
}

pub fn oldest(state: &[u8], i: usize) -> Signal
    requires { Canon state.now × (i < length (machine_from state.now).trees)
        × (0 < length (pending_at (machine_from state.now) i)) }
    ensures { (signal_of result ≡ get_or (pending_at (machine_from state.now) i) 0 no_signal) × TidySignal result }
{
    read_signal(state, TREES_PLACE + TREE_SIZE * i + SIGNALS_PLACE)
}

// The oldest leaves the tree: the others move down, and zeros fill the last one's place.
pub fn take_oldest(state: &mut [u8], i: usize)
    requires { Canon state.old × (i < length (machine_from state.old).trees)
        × (0 < length (pending_at (machine_from state.old) i)) }
    ensures canon { Canon state.new }
    ensures by_index { (u : ℕ) → i ≡ first_tree u (machine_from state.old).trees
        → machine_from state.new ≡ taken u i (machine_from state.old) }
{
    let at = TREES_PLACE + TREE_SIZE * i;
    let k = get8(state, at + PENDING_COUNT_PLACE);
    remove(
        state,
        at + SIGNALS_PLACE,
        SIGNAL_SIZE,
        SIGNAL_SIZE * (k - 1),
    );
    put8(state, at + PENDING_COUNT_PLACE, (k - 1) as u8);
}

// A signal comes to the tree's end.
pub fn push(state: &mut [u8], i: usize, g: Signal)
    requires { Canon state.old × (i < length (machine_from state.old).trees)
        × (length (pending_at (machine_from state.old) i) < pending_count) × TidySignal g }
    ensures canon { Canon state.new }
    ensures by_index { (u : ℕ) → i ≡ first_tree u (machine_from state.old).trees
        → machine_from state.new ≡ sent u i (signal_of g) (machine_from state.old) }
{
    let at = TREES_PLACE + TREE_SIZE * i;
    let k = get8(state, at + PENDING_COUNT_PLACE);
    write_signal(state, at + SIGNALS_PLACE + SIGNAL_SIZE * k, g);
    put8(state, at + PENDING_COUNT_PLACE, (k + 1) as u8);
}
