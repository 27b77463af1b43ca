// Whether a lent state is well formed.
ghost use Rattle.std.specs.Prelude.{◌≡◌, length};
ghost use Rattle.rules.specs.Sizes.{state_size};
ghost use Rattle.rules.specs.Check.{Checked};
ghost use Rattle.rules.specs.WellFormed.{well_formed};

use bytes_fields::read::{get8, many_zero};
use check_locks::locks::locks_apart;
use check_queues::queues::trees_good;
use check_threads::threads_good;
use rules::layout::{STATE_SIZE, TREE_COUNT_PLACE, TREE_SIZE, TREES_PLACE};
use rules::limits::Tree;

// "Well formed", of a state of the right length, by an image and a block table that pass the check.
pub fn well_formed(image: &[u8], table: &[u8], state: &[u8]) -> bool
    requires { Checked image.now table.now × (length state.now ≡ state_size) }
    ensures { result ≡ well_formed image.now table.now state.now }
{
    let count = get8(state, TREE_COUNT_PLACE);
    if Tree::COUNT < count {
        return false;
    }
    let state: &[u8; STATE_SIZE] = state.try_into().unwrap();
    let threads = threads_good(image, table, state) & locks_apart(state);
    let unused = many_zero(
        state,
        TREES_PLACE + TREE_SIZE * count,
        TREE_SIZE * (Tree::COUNT - count),
    );
    threads & unused & trees_good(image, table, state, count)
}
