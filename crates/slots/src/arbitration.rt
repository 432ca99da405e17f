// The arbitration of a slot: an interval for each flow in turn, which other sources pull to deny it.
ghost use Rattle.std.specs.Prelude.{◌≡◌, min, not, ◌&&◌, [], ◌∷◌, ◌++◌, length, if◌then◌else◌, nat_lt};
ghost use Rattle.analysis.specs.Marks.{marked};
ghost use Rattle.medium.specs.Levels.{level_of};
ghost use Rattle.interval.specs.Intervals.{pressed};
ghost use Rattle.rows.specs.Grants.{wants, blocked, granting, decided, grants_of, levels_of};
ghost use Rattle.rows.specs.Small.{IsSmall, Small};

use analysis::above::Above;
use interval::steps::{is_quiet, pull_if};
use medium::medium::Medium;
use rows::flow_row::FlowRow;
use rows::rows::Rows;

// Whether a flow's own source pulls its interval: the flow wants nothing.
fn rests(row: &FlowRow) -> bool
    ensures { result ≡ not (wants row.now) }
{
    row.progress.left == 0
}

// Whether the source of a flow above pulls: it shares a link, and was granted in this slot.
fn denies(above: &Above, flow: usize, row: &FlowRow) -> bool
    ensures { result ≡ (marked above.now flow && row.now.progress.granted) }
{
    above.has(flow) && row.progress.granted
}

// The source of each of the flows before pulls the last interval or keeps still.
fn press<M: Medium>(medium: &mut M, above: &Above, before: &[FlowRow])
    requires { Small before.now }
    ensures { M.levels medium.new ≡ pressed (M.levels medium.old) (blocked above.now (grants_of before.now) (length before.now)) }
{
    for (h, row) in before.iter().enumerate() {
        let pulls = denies(above, h + 1, row);
        let _ = pull_if(medium, usize::from(row.flow.record.source), pulls);
    }
}

// Runs the interval of a flow, given those before it, and answers whether the flow is granted.
fn run_interval<M: Medium>(medium: &mut M, before: &[FlowRow], row: &FlowRow) -> bool
    requires open { length (M.levels medium.old) ≡ min (length before.now) M.most }
    requires before { Small before.now }
    requires here { IsSmall row.now.flow }
    ensures answer { result ≡ granting M.most (grants_of before.now) row.now }
    ensures after { M.levels medium.new ≡ (if nat_lt (length before.now) M.most then M.levels medium.old ++ level_of (not result) ∷ [] else M.levels medium.old) }
{
    if medium.open().is_err() {
        return false;
    }
    let _ = pull_if(medium, usize::from(row.flow.record.source), rests(row));
    press(medium, &row.flow.above, before);
    is_quiet(medium, before.len())
}

// Decides who is granted in the slot: the flows have their intervals in turn, and each row is marked.
pub fn decide<M: Medium>(medium: &mut M, rows: &mut Rows)
    ensures rows { rows.new ≡ decided M.most [] rows.old }
    ensures small { Small rows.new }
    ensures levels { M.levels medium.new ≡ levels_of M.most (decided M.most [] rows.old) }
{
    medium.clear();
    // by place: `iter_mut` lends a row to be marked while those before it are still read, which the check refuses
    for k in 0..rows.len() {
        let flows = rows.as_slice();
        let granted = run_interval(medium, &flows[..k], &flows[k]);
        rows.mark(k, granted);
    }
}
