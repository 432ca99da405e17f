// The line: one level for each interval.
ghost use Rattle.std.specs.Prelude.{◌≡◌, ◌≤◌, [], length};

use crate::checks::check_pull;
use crate::fault::MediumFault;
use crate::level::Level;
use crate::medium::Medium;
use arrayvec::ArrayVec;

// A vector of fixed capacity, which never allocates.
#[derive(Drop)]
pub struct Line {
    levels: ArrayVec<Level, { Line::LIMIT }>,
    ghost few: { length levels.items ≤ 128 },
}

impl Line {
    // A rule of the project: each medium states its limit as this constant, and `limit` reads it.
    pub const LIMIT: usize = 128;

    // A line without intervals.
    pub fn new() -> Line
        ensures { result.levels.items ≡ [] }
    {
        Line {
            levels: ArrayVec::new(),
        }
    }
}

impl Medium for Line {
    ghost levels = { λ m. m.levels.items };

    ghost most = { 128 };

    ghost within = { λ m. m.few };

    fn limit(&self) -> usize {
        Line::LIMIT
    }

    fn clear(&mut self) {
        self.levels.clear();
    }

    fn open(&mut self) -> Result<(), MediumFault> {
        self.levels
            .try_push(Level::default())
            .map_err(|_| MediumFault::Full)
    }

    fn pull(&mut self, node: usize) -> Result<(), MediumFault> {
        check_pull(self.levels.len(), node)?;
        // by index: the contract of `last_mut` says nothing of what the levels end as
        let last = self.levels.len() - 1;
        self.levels[last] = Level::Dominant;
        Ok(())
    }

    fn read(&self, k: usize) -> Option<Level> {
        self.levels.get(k).copied()
    }
}
