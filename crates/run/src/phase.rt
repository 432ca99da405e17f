// Where a run stands between its calls.
ghost use Rattle.std.specs.Prelude.{◌≡◌, [], ◌∷◌};
ghost use Rattle.calls.specs.Events.{first_refusal};
ghost use Rattle.history.specs.Steps.{unless};
ghost use Rattle.run.specs.Phases.{is_owed, is_ended};

use calls::refusal::Refusal;

#[derive(Clone, Copy, PartialEq, Eq)]
pub(crate) enum Phase {
    // packets are released into its slot
    Open,
    // an injection is owed for its slot
    Owed,
    // nothing is accepted until a load
    Ended,
}

impl Phase {
    // Refused where the run has ended, or owes an injection.
    pub(crate) fn open(self) -> Result<(), Refusal>
        ensures { result ≡ unless (first_refusal ((is_ended self, Refusal.Ended) ∷ (is_owed self, Refusal.Owed) ∷ [])) tt }
    {
        match self {
            Phase::Ended => Err(Refusal::Ended),
            Phase::Owed => Err(Refusal::Owed),
            Phase::Open => Ok(()),
        }
    }
}
