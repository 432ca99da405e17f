// What a run is after any list of calls, and what it promises: each function carries a theorem in its contract and does nothing else.
#![tactic(auto)]

ghost use Rattle.history.specs.Begun.{LoadBegins};
ghost use Rattle.history.specs.Theorems.{ReleaseUpholds, ArbitrateUpholds, InjectUpholds, AbandonUpholds, ReportUpholds, VerdictUpholds};

// A release, accepted or refused, keeps the promise after whatever calls went before it.
pub fn release_upholds()
    ensures { ReleaseUpholds }
{}

// So does an arbitration.
pub fn arbitrate_upholds()
    ensures { ArbitrateUpholds }
{}

// So does an injection.
pub fn inject_upholds()
    ensures { InjectUpholds }
{}

// So does the end of a run.
pub fn abandon_upholds()
    ensures { AbandonUpholds }
{}

// So does a report.
pub fn report_upholds()
    ensures { ReportUpholds }
{}

// So does a verdict.
pub fn verdict_upholds()
    ensures { VerdictUpholds }
{}

// After a load, with no call yet, the promise holds.
pub fn load_begins()
    ensures { LoadBegins }
{}
