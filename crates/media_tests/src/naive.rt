// A list of levels kept in the plainest way: written apart from every medium.
use interval::whole::Puller;
use medium::fault::MediumFault;
use medium::level::Level;
use std::alloc::{AllocError, Global};

#[derive(Drop)]
pub struct Naive {
    levels: Vec<Level>,
}

impl Naive {
    pub fn new(heap: Global) -> Naive {
        Naive {
            levels: Vec::new(heap),
        }
    }

    pub fn len(&self) -> usize {
        self.levels.len()
    }

    pub fn clear(&mut self) {
        self.levels.clear();
    }

    // One more level, or the refusal.
    fn add(&mut self, level: Level) -> Result<Result<(), MediumFault>, AllocError> {
        if self.levels.len() >= 128 {
            return Ok(Err(MediumFault::Full));
        }
        self.levels.push(level)?;
        Ok(Ok(()))
    }

    pub fn open(&mut self) -> Result<Result<(), MediumFault>, AllocError> {
        self.add(Level::Recessive)
    }

    pub fn pull(&mut self, node: usize) -> Result<(), MediumFault> {
        let last = self.levels.last_mut().ok_or(MediumFault::Closed)?;
        if node > 255 {
            return Err(MediumFault::NoNode);
        }
        *last = Level::Dominant;
        Ok(())
    }

    pub fn read(&self, k: usize) -> Option<Level> {
        self.levels.get(k).copied()
    }

    pub fn last(&self) -> Option<Level> {
        self.levels.last().copied()
    }

    // A whole interval: dominant where some puller pulls and is at most 255.
    pub fn interval(&mut self, pullers: &[Puller]) -> Result<Result<(), MediumFault>, AllocError> {
        let pulled = pullers
            .iter()
            .any(|puller| puller.pulls && puller.node <= 255);
        self.add(if pulled {
            Level::Dominant
        } else {
            Level::Recessive
        })
    }
}
