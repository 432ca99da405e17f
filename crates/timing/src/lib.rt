// The theory of the bounds: each function carries a theorem in its contract and does nothing else.
#![tactic(auto)]

ghost use Rattle.timing.specs.Figures.{FiguresExact};
ghost use Rattle.timing.specs.Staircase.{SearchFinds, DemandRises};

// The search for the least solution of a staircase finds it, or tells that there is none, in few evaluations.
pub fn search_finds()
    ensures { SearchFinds }
{}

// The right side of a bound's equation is such a staircase.
pub fn demand_rises()
    ensures { DemandRises }
{}

// The bounds of a table are the least solutions of their equations, and exist exactly when they should.
pub fn figures_exact()
    ensures { FiguresExact }
{}
