// The node bank: each node's own pulls.
ghost use Rattle.std.specs.Prelude.{◌≡◌, ℕ, ◌<◌, ◌≤◌, false, []};
ghost use Rattle.medium.specs.Levels.{level_of};
ghost use Rattle.medium.specs.Pulls.{bank_levels, pulled_at};
ghost use Rattle.std.proofs.Common.{arith};
ghost use Rattle.std.proofs.lemmas.List.FromFn.{length-map-range_with_len};

use crate::checks::{check_open, check_pull};
use crate::fault::MediumFault;
use crate::level::Level;
use crate::medium::Medium;
use crate::words::Words;

// Past the count no node has a bit, so that the next interval opens recessive.
// A rule of the project: the words and the count of the intervals opened, in fixed memory.
#[derive(Drop)]
pub struct NodeBank {
    words: Words,
    count: usize,
    ghost few: { count ≤ 128 },
    ghost clear: { (k : ℕ) → count ≤ k → k < 128 → pulled_at words.bits k ≡ false },
}

impl NodeBank {
    // A rule of the project: each medium states its limit as this constant, and `limit` reads it.
    pub const LIMIT: usize = 128;

    // A node bank without intervals.
    pub fn new() -> NodeBank
        ensures { bank_levels result.words.bits result.count ≡ [] }
    {
        NodeBank {
            words: Words::new(),
            count: 0,
        }
    }
}

impl Medium for NodeBank {
    ghost levels = { λ m. bank_levels m.words.bits m.count };

    ghost most = { 128 };

    ghost within = { λ m. omega (arith, length-map-range_with_len (λ k. level_of (pulled_at m.words.bits k)) 0 m.count) };

    fn limit(&self) -> usize {
        NodeBank::LIMIT
    }

    fn clear(&mut self) {
        self.words.clear();
        self.count = 0;
    }

    fn open(&mut self) -> Result<(), MediumFault> {
        check_open(self.count, NodeBank::LIMIT)?;
        self.count += 1;
        Ok(())
    }

    fn pull(&mut self, node: usize) -> Result<(), MediumFault> {
        check_pull(self.count, node)?;
        self.words.pull(node, self.count - 1);
        Ok(())
    }

    fn read(&self, k: usize) -> Option<Level> {
        (k < self.count).then(|| Level::from(self.words.any(k)))
    }
}
