// What a call tests of a tree record of the lent state: its thread number, and its pending signals.
#![tactic(auto)]

ghost use Rattle.std.specs.Prelude.{◌≡◌, ◌+◌, ◌≤◌, length, drop};
ghost use Rattle.rules.specs.Sizes.{tree_size};
ghost use Rattle.check_trees.specs.Trees.{tree_good};

use bytes_fields::read::get8;
use check_signals::signals_good;
use rules::layout::PENDING_COUNT_PLACE;
use rules::limits::Tree;
use rules::sorts::Thread;

// A tree record: tidy bytes, and a tree that is well formed.
pub fn tree_good(image: &[u8], s: &[u8], at: usize) -> bool
    requires { at + tree_size ≤ length s.now }
    ensures { result ≡ tree_good image.now (drop at s.now) }
{
    (get8(s, at) < Thread::COUNT)
        & signals_good(image, s, at + PENDING_COUNT_PLACE, Tree::PENDING, true)
}
