// What is kept of the items that were handed in, one after the other.
ghost use Rattle.std.specs.Prelude.{◌≡◌};
ghost use Rattle.tightest.specs.Order.{comes_before, tighter};

use crate::ranked::Ranked;

// The item is kept if it comes before the best so far, so that of level items the earliest stays.
pub fn tighter<T: Ord + Copy>(best: Option<T>, item: T) -> Option<T>
    ensures { result ≡ tighter (comes_before T.cmp) best item }
{
    Some(best.map_or(item, |kept| kept.min(item)))
}

// The same of items in an order of their own, which need not be the library's, nor agree with `==`.
pub fn tighter_ranked<T: Ranked>(best: Option<T>, item: T) -> Option<T>
    ensures { result ≡ tighter T.before best item }
{
    let Some(kept) = best else {
        return Some(item);
    };
    if item.comes_before(&kept) {
        Some(item)
    } else {
        Some(kept)
    }
}
