// What one flow above takes, again and again: an amount for each separation that a window touches.
ghost use Rattle.std.specs.Prelude.{◌≤◌};

pub mod charge;

#[derive(Clone, Copy)]
pub struct Term {
    // how much longer than the window the time is in which it may have been released
    jitter: u32,
    // the least time between two of its packets
    separation: u32,
    // the cycles that one packet takes
    cost: u64,
    ghost some: { 1 ≤ separation },
}
