// What a term charges for a window of x cycles.
ghost use Rattle.std.specs.Prelude.{◌≡◌};
ghost use Rattle.staircase.specs.Terms.{charge, term_for, seen};
ghost use Rattle.staircase.specs.Climbs.{within};

use super::Term;

impl Term {
    // A term, unless the separation is 0.
    pub fn new(jitter: u32, separation: u32, cost: u64) -> Option<Term>
        ensures { seen result ≡ term_for jitter separation cost }
    {
        if separation == 0 {
            return None;
        }
        Some(Term {
            jitter,
            separation,
            cost,
        })
    }

    // The charge for a window of x cycles, or none where it passes `most`.
    #[tactic(auto, unfolding(crate::specs::Terms::charge, timing::specs::Counts::ceil_div))]
    pub fn charge_within(&self, x: u32, most: u32) -> Option<u32>
        ensures { result ≡ within most (charge x self.now) }
    {
        let touched = (u64::from(x) + u64::from(self.jitter)).div_ceil(u64::from(self.separation));
        let charge = touched.checked_mul(self.cost)?;
        u32::try_from(charge).ok().filter(|charge| *charge <= most)
    }
}
