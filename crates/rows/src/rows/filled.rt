// Filling the rows, and reading them.
ghost use Rattle.std.specs.Prelude.{◌≡◌, ◌^◌, ◌&&◌, [], length, IfOk, IfSome, nat_lt};
ghost use Rattle.rows.specs.Blank.{idle};
ghost use Rattle.rows.specs.Filling.{Fills};
ghost use Rattle.rows.specs.Small.{Small};

use super::Rows;
use crate::flow_row::{FlowRow, Progress};
use analysis::row::Row;
use std::alloc::{AllocError, Global};

// A flow that has released nothing yet.
fn idle(flow: Row) -> FlowRow
    ensures { result ≡ idle flow }
{
    FlowRow {
        flow,
        progress: Progress::default(),
    }
}

// Whether a run can reckon with a flow's figures.
fn is_small(flow: &Row) -> bool
    ensures { result ≡ (nat_lt flow.now.«record».source 256 && nat_lt flow.now.tail (2 ^ 60)) }
{
    flow.record.source < 256 && flow.tail < 1 << 60
}

impl Rows {
    // No flows.
    pub fn new(heap: Global) -> Rows
        ensures { result ≡ [] }
    {
        Rows {
            items: Vec::new(heap),
        }
    }

    // The flows of a table that was just loaded, unless the figures of one of them are not small.
    pub fn fill(heap: Global, flows: &[Row]) -> Result<Option<Rows>, AllocError>
        ensures rows { IfOk result (Fills flows.now) }
        ensures small { IfOk result (λ filled. IfSome filled Small) }
    {
        let mut items = Vec::new(heap);
        for flow in flows {
            if !is_small(flow) {
                return Ok(None);
            }
            items.push(idle(*flow))?;
        }
        Ok(Some(Rows { items }))
    }

    // How many flows there are.
    pub fn len(&self) -> usize
        ensures len { result ≡ length self.now }
        ensures small { Small self.now }
    {
        self.items.len()
    }

    // All of them, to be read.
    pub fn as_slice(&self) -> &[FlowRow]
        ensures rows { result.now ≡ self.now }
        ensures small { Small result.now }
    {
        self.items.as_slice()
    }
}
