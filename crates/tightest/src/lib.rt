// The tightest of any items that have an order: written once, for every kind of item.
//
// A loop that also counts keeps the best so far and hands in the items one by one. The tightest of a whole list is the same steps in turn,
// and its contract says what they add up to.
#![tactic(auto)]

pub mod kept;
pub mod ranked;
pub mod whole;
