// Why a call of a run is refused.
ghost use Rattle.std.specs.Prelude.{◌≡◌};
ghost use Rattle.calls.specs.Refusals.{number_of};

#[derive(Clone, Copy, PartialEq, Eq)]
pub enum Refusal {
    // there is no such flow
    NoFlow = 10,
    // the run has ended
    Ended = 20,
    // an injection is owed
    Owed = 21,
    // the release belongs to an earlier slot
    Late = 22,
    // the release belongs to a later slot
    Ahead = 23,
    // the release comes before the flow's separation is over
    Soon = 24,
    // the flow has an open packet
    Busy = 25,
    // the ledger is shorter than its count of records
    ShortLedger = 26,
    // the ledger has no place left
    FullLedger = 27,
    // the slip names another run, or not the slot that awaits its injection
    WrongSlip = 28,
    // the last slot that can be counted has come
    LastSlot = 29,
}

impl Refusal {
    // The number by which reports name the refusal.
    pub fn number(self) -> u8
        ensures { result ≡ number_of self }
    {
        self as u8
    }
}
