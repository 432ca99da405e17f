// A medium and the naive list through the same calls, compared after each.
use super::Bench;
use crate::script::{Call, Script};
use crate::tally::Check;
use interval::steps::{count, is_quiet, pull_if};
use interval::whole::{Puller, interval};
use medium::fault::MediumFault;
use medium::level::Level;
use medium::medium::Medium;
use std::alloc::AllocError;

impl<M: Medium + Drop> Bench<M> {
    // Compares the answers to an open, a pull or an interval.
    fn compare(&mut self, told: Result<(), MediumFault>, wanted: Result<(), MediumFault>) {
        self.tally.compared(Check::Answer, told == wanted);
        if let Err(fault) = told {
            self.tally.refused(fault);
        }
    }

    // Compares the level of interval k.
    fn compare_level(&mut self, k: usize) {
        let same = self.medium.read(k) == self.naive.read(k);
        self.tally.compared(Check::Level, same);
    }

    // Compares every level, those past the end too, and what is worked out from them.
    fn compare_levels(&mut self) {
        let len = self.naive.len();
        let quiet = self.naive.read(len / 2) == Some(Level::Recessive);
        for same in [
            self.medium.limit() == 128,
            count(&self.medium) == len,
            is_quiet(&self.medium, len / 2) == quiet,
        ] {
            self.tally.compared(Check::Answer, same);
        }
        for k in (0..130).chain([usize::MAX]) {
            self.compare_level(k);
        }
    }

    fn pull(&mut self, puller: Puller) {
        let told = pull_if(&mut self.medium, puller.node, puller.pulls);
        let wanted = if puller.pulls {
            self.naive.pull(puller.node)
        } else {
            Ok(())
        };
        self.compare(told, wanted);
    }

    fn whole(&mut self, pullers: &[Puller]) -> Result<(), AllocError> {
        let wanted = self.naive.interval(pullers)?;
        let told = interval(&mut self.medium, pullers);
        self.compare(told.map(|_| ()), wanted);
        if let Ok(level) = told {
            let same = self.naive.last() == Some(level);
            self.tally.compared(Check::Level, same);
        }
        Ok(())
    }

    // One call of both.
    fn call(&mut self, next: Call) -> Result<(), AllocError> {
        self.tally.called(&next);
        match next {
            Call::Clear => {
                self.medium.clear();
                self.naive.clear();
            }
            Call::Open => {
                let told = self.medium.open();
                let wanted = self.naive.open()?;
                self.compare(told, wanted);
            }
            Call::Pull(puller) => self.pull(puller),
            Call::Read(k) => self.compare_level(k),
            Call::Interval(pullers) => self.whole(&pullers)?,
        }
        Ok(())
    }

    // Both through the whole script.
    pub fn follow_script(&mut self) -> Result<(), AllocError> {
        let mut script = Script::new();
        self.medium.clear();
        for _ in 0..4000 {
            let next = script.call(self.naive.len());
            self.call(next)?;
            self.compare_levels();
        }
        Ok(())
    }
}
