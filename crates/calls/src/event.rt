// A call of a run, and a call with its answer.
use crate::refusal::Refusal;
use crate::report::{Report, Verdict};
use crate::slip_name::SlipName;

// A call; a slip is handed in by what it names.
#[derive(Clone, Copy)]
pub enum Call {
    Release { flow: usize, cycle: u64 },
    Arbitrate,
    Inject { slip: SlipName },
    Abandon { slip: SlipName },
    Report,
    Verdict { flow: usize },
}

// A call with its answer, accepted or refused.
#[derive(Clone, Copy)]
pub enum Event {
    Released {
        flow: usize,
        cycle: u64,
        answer: Result<(), Refusal>,
    },
    // the answer is the slip, by what it names
    Arbitrated {
        answer: Result<SlipName, Refusal>,
    },
    // the answer is the slot's number of grants
    Injected {
        slip: SlipName,
        answer: Result<usize, Refusal>,
    },
    Abandoned {
        slip: SlipName,
        answer: Result<(), Refusal>,
    },
    Reported {
        answer: Result<Report, Refusal>,
    },
    Told {
        flow: usize,
        answer: Result<Verdict, Refusal>,
    },
}
