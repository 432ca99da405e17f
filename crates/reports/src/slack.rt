// Bounded flows, by what their bounds leave of their deadlines.
ghost use Rattle.std.specs.Prelude.{◌≡◌};
ghost use Rattle.reports.specs.Verdicts.{slack_with};

use analysis::row::Row;

// The fields decide in their order.
#[derive(Clone, Copy, PartialEq, Eq, PartialOrd, Ord)]
pub(crate) struct Slack {
    pub left: u32,
    pub flow: usize,
}

// The flow with the number given, if it is bounded.
pub(crate) fn slack_of(number: usize, flow: &Row) -> Option<Slack>
    ensures { result ≡ slack_with number flow.now.record.deadline flow.now.bound }
{
    let bound = flow.bound?;
    Some(Slack {
        left: flow.record.deadline.saturating_sub(bound),
        flow: number,
    })
}
