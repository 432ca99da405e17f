// The demand of a flow: what it needs itself, and the terms of the flows above it.
ghost use Rattle.std.specs.Prelude.{◌≡◌, [], ◌∷◌, ◌++◌, is_ok, if◌then◌else◌};
ghost use Rattle.staircase.specs.Terms.{demanded};
ghost use Rattle.staircase.specs.Charges.{demanded_rises, demanded_grounded};

use crate::search::Staircase;
use crate::term::Term;
use std::alloc::{AllocError, Global};

#[derive(Drop)]
pub struct Demand {
    ground: u32,
    terms: Vec<Term>,
}

impl Demand {
    pub fn new(heap: Global, ground: u32) -> Demand
        ensures ground { result.ground ≡ ground }
        ensures terms { result.terms.items ≡ [] }
    {
        Demand {
            ground,
            terms: Vec::new(heap),
        }
    }

    // One term more.
    pub fn push(&mut self, term: Term) -> Result<(), AllocError>
        ensures ground { self.new.ground ≡ self.old.ground }
        ensures terms { self.new.terms.items ≡ (if is_ok result then self.old.terms.items ++ (term ∷ []) else self.old.terms.items) }
    {
        Ok(self.terms.push(term)?)
    }
}

impl Staircase for Demand {
    ghost value = { λ d. demanded d.ground d.terms.items };

    ghost floor = { λ d. d.ground };

    ghost rises = { λ s x y le. demanded_rises s.ground s.terms.items x y le };

    ghost grounded = { λ s x. demanded_grounded s.ground s.terms.items x };

    fn ground(&self) -> u32 {
        self.ground
    }

    #[tactic(auto, unfolding(crate::specs::Terms::demanded))]
    fn value_within(&self, x: u32, most: u32) -> Option<u32> {
        let mut sum = self.ground;
        if sum > most {
            return None;
        }
        for term in &self.terms {
            sum += term.charge_within(x, most - sum)?;
        }
        Some(sum)
    }
}
