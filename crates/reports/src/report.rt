// The report of a ledger.
ghost use Rattle.std.specs.Prelude.{◌≡◌, ◌+◌, take, IfOk};
ghost use Rattle.reports.specs.Margins.{closest, TightestRecord};
ghost use Rattle.reports.specs.Reports.{told, report_of};

use crate::timely::{Timely, timely_at};
use calls::record::Record;
use calls::refusal::Refusal;
use calls::report::Report;
use rows::flow_row::FlowRow;
use rows::rows::Rows;
use tightest::kept::tighter;

// What is kept of the packet that came closest so far and the packet of the next record, if that one arrived in time.
#[tactic(auto, using(crate::proofs::Orders::closer_is))]
fn closest(best: Option<Timely>, found: Option<Timely>) -> Option<Timely>
    ensures { result ≡ closest best found }
{
    match found {
        Some(timely) => tighter(best, timely),
        None => best,
    }
}

// Counts the records, from the first to the last, and finds the one that came closest to its bound.
fn tell(flows: &[FlowRow], records: &[Record]) -> Report
    ensures { result ≡ told flows.now records.now }
{
    let mut pending = 0;
    let mut tightest = None;
    // a rule of the project: one loop over the lent records, with their index, counts and searches
    for (place, packet) in records.iter().enumerate() {
        pending += usize::from(packet.pending);
        tightest = closest(tightest, timely_at(flows, place, packet));
    }
    Report {
        accepted: records.len(),
        arrived: records.len() - pending,
        pending,
        tightest: tightest.map(|timely| timely.place),
    }
}

// Tells of the first `count` records of the ledger that is lent. Refused where the ledger has fewer.
pub fn report(rows: &Rows, count: usize, ledger: &[Record]) -> Result<Report, Refusal>
    ensures answer { result ≡ report_of rows.now count ledger.now }
    ensures counts { IfOk result (λ t. t.arrived + t.pending ≡ t.accepted) }
    ensures tightest { IfOk result (λ t. TightestRecord rows.now (take count ledger.now) t.tightest) }
{
    let records = ledger.get(..count).ok_or(Refusal::ShortLedger)?;
    Ok(tell(rows.as_slice(), records))
}
