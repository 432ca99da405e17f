// A whole interval over a list of pullers.
ghost use Rattle.std.specs.Prelude.{◌≡◌};
ghost use Rattle.medium.specs.declared.level.Level.TheVariants.{Recessive};
ghost use Rattle.medium.specs.Levels.{read_at};
ghost use Rattle.interval.specs.Intervals.{pressed, some_pull, heard, held};
ghost use Rattle.std.specs.Option.{unwrap_or};

use crate::steps::{count, pull_if};
use medium::fault::MediumFault;
use medium::level::Level;
use medium::medium::Medium;

// A node, and whether it pulls: every source has a node and is asked in turn, so an optional node would lose which one keeps still.
#[derive(Clone, Copy, PartialEq, Eq, Debug)]
pub struct Puller {
    pub node: usize,
    pub pulls: bool,
}

// Each of the pullers in turn pulls the last interval or keeps still. A node that there is not is refused, and changes nothing.
#[tactic(auto, using(crate::proofs::OneInterval::pull_next))]
fn pull_all<M: Medium>(medium: &mut M, pullers: &[Puller])
    ensures { M.levels medium.new ≡ pressed (M.levels medium.old) (some_pull pullers.now) }
{
    for puller in pullers {
        let _ = pull_if(medium, puller.node, puller.pulls);
    }
}

// The level of interval k. One that is not open counts as recessive.
fn level_at<M: Medium>(medium: &M, k: usize) -> Level
    ensures { result ≡ unwrap_or (read_at (M.levels medium.now) k) Recessive }
{
    medium.read(k).unwrap_or(Level::Recessive)
}

// Opens an interval, lets the pullers pull it in turn, and reads its level: dominant exactly where one of them pulls and is a node that there
// is. At the limit it is refused, and then nothing changes.
pub fn interval<M: Medium>(medium: &mut M, pullers: &[Puller]) -> Result<Level, MediumFault>
    ensures answer { result ≡ heard M.most (M.levels medium.old) pullers.now }
    ensures after { M.levels medium.new ≡ held M.most (M.levels medium.old) pullers.now }
{
    let place = count(medium);
    medium.open()?;
    pull_all(medium, pullers);
    Ok(level_at(medium, place))
}
