// The tightest of a whole list.
ghost use Rattle.std.specs.Prelude.{◌≡◌};
ghost use Rattle.tightest.specs.Order.{comes_before, tightest_of, Tells};

use crate::kept::{tighter, tighter_ranked};
use crate::ranked::Ranked;

// Hands in the items in turn.
fn handed_in<T: Ranked>(items: &[T]) -> Option<T>
    ensures { result ≡ tightest_of T.before items.now }
{
    items.iter().copied().fold(None, tighter_ranked)
}

// What is found is one of the items, none of them comes before it, and it comes before those that stand earlier.
pub fn tightest_of<T: Ranked>(items: &[T]) -> Option<T>
    ensures answer { result ≡ tightest_of T.before items.now }
    ensures tightest { Tells T.before items.now result }
{
    handed_in(items)
}

// Hands in the items in turn, by the library's order.
fn handed_in_order<T: Ord + Copy>(items: &[T]) -> Option<T>
    ensures { result ≡ tightest_of (comes_before T.cmp) items.now }
{
    items.iter().copied().fold(None, tighter)
}

// The tightest of items that have the library's order.
pub fn tightest_in_order<T: Ord + Copy>(items: &[T]) -> Option<T>
    ensures answer { result ≡ tightest_of (comes_before T.cmp) items.now }
    ensures tightest { Tells (comes_before T.cmp) items.now result }
{
    handed_in_order(items)
}
