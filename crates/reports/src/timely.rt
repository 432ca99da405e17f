// Packets that arrived in time.
ghost use Rattle.std.specs.Prelude.{◌≡◌};
ghost use Rattle.reports.specs.Margins.{bound_for, timely_at};

use calls::record::Record;
use rows::flow_row::FlowRow;

// The fields decide in their order.
#[derive(Clone, Copy, PartialEq, Eq, PartialOrd, Ord)]
pub(crate) struct Timely {
    // what it left of the bound of its flow
    pub margin: u64,
    pub release: u64,
    pub flow: usize,
    // where the ledger has it
    pub place: usize,
}

// The bound of a flow, none where it has none or there is no such flow.
fn bound_for(flows: &[FlowRow], flow: usize) -> Option<u32>
    ensures { result ≡ bound_for flows.now flow }
{
    flows.get(flow.checked_sub(1)?)?.flow.bound
}

// The packet of a record, if it arrived in time.
pub(crate) fn timely_at(flows: &[FlowRow], place: usize, packet: &Record) -> Option<Timely>
    ensures { result ≡ timely_at flows.now place packet.now }
{
    if packet.pending {
        return None;
    }
    let latency = packet.arrival.checked_sub(packet.release)?;
    let bound = bound_for(flows, packet.flow)?;
    Some(Timely {
        margin: u64::from(bound).checked_sub(latency)?,
        release: packet.release,
        flow: packet.flow,
        place,
    })
}
