// One interval of an arbitration, proved once for every medium.
//
// A run calls the steps: the medium's own `open`, then `pull_if` for each node that might pull, then `is_quiet` at the interval's place,
// which it knows since it opens them all. It asks its own rows who pulls, one after the other, so that it never gathers a list of pullers
// and allocates nothing. The whole interval is the same steps over a list, and its contract is the law that they add up to.
#![tactic(auto)]

pub mod steps;
pub mod whole;
