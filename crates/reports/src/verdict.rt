// The verdict on a flow.
ghost use Rattle.std.specs.Prelude.{◌≡◌, IfOk};
ghost use Rattle.reports.specs.Verdicts.{tightest_flow, verdict_of, TightestFlow};

use crate::slack::slack_of;
use calls::refusal::Refusal;
use calls::report::Verdict;
use rows::flow_row::FlowRow;
use rows::rows::Rows;
use tightest::kept::tighter;

// The bounded flow whose bound comes closest to its deadline, if there is one.
fn tightest_flow(flows: &[FlowRow]) -> Option<usize>
    ensures { result ≡ tightest_flow flows.now }
{
    flows
        .iter()
        .enumerate()
        .filter_map(|(k, row)| slack_of(k + 1, &row.flow))
        .fold(None, tighter)
        .map(|slack| slack.flow)
}

// The figures of a flow, by its number, and the tightest flow of all. Refused where there is no such flow.
pub fn verdict(rows: &Rows, flow: usize) -> Result<Verdict, Refusal>
    ensures answer { result ≡ verdict_of rows.now flow }
    ensures tightest { IfOk result (λ v. TightestFlow rows.now v.tightest) }
{
    let flows = rows.as_slice();
    let row = flow
        .checked_sub(1)
        .and_then(|place| flows.get(place))
        .ok_or(Refusal::NoFlow)?;
    Ok(Verdict {
        figures: row.flow.figures(),
        tightest: tightest_flow(flows),
    })
}
