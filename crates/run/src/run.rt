// A run over any medium.
ghost use Rattle.std.specs.Prelude.{◌≡◌, ◌<◌, true};
ghost use Rattle.run.specs.Phases.{is_owed};

use crate::phase::Phase;
use rows::clock::Clock;
use rows::rows::Rows;

pub mod holding;
pub mod loading;
pub mod making;
pub mod playing;
pub mod releasing;
pub mod serving;
pub mod telling;

// Calls see it by a function of specs/, not by a model: taken apart, it gives back the very medium, which a view of its levels would hide.
#[derive(Drop)]
pub struct Run<M> {
    medium: M,
    rows: Rows,
    clock: Clock,
    // as load was handed it
    number: u32,
    // the count of the ledger's records; the ledger itself is lent at each call
    count: usize,
    phase: Phase,
    // where an injection is owed, a next slot can be counted
    ghost spare: { is_owed phase ≡ true → clock.slot < 4294967295 },
}
