// The checks of the flow records.
ghost use Rattle.std.specs.Prelude.{◌≡◌, ◌≤◌, length};
ghost use Rattle.table.specs.Checks.{first_fault, unless};
ghost use Rattle.analysis.specs.Loading.{each_flow, misfit_checks, record_checks, wrong};
ghost use Rattle.analysis.specs.Tables.{record_of};

use crate::setting::Setting;
use table::fault::LoadFault;
use table::header::Header;
use table::records::FlowRecord;

// Whether the table fits a medium with so many intervals and a fabric with so many nodes.
pub(crate) fn check_fit(header: &Header, limit: usize, nodes: usize) -> Result<(), LoadFault>
    ensures { result ≡ unless (first_fault (misfit_checks limit nodes header.now)) tt }
{
    let area = u32::from(header.width) * u32::from(header.height);
    if usize::from(header.flows) > limit || nodes != area as usize {
        return Err(LoadFault::Misfit);
    }
    Ok(())
}

// Whether a node, the payload, the separation or the deadline is out of range.
fn is_wrong(flow: &FlowRecord, nodes: usize) -> bool
    ensures { result ≡ wrong nodes flow.now }
{
    let source = usize::from(flow.source);
    let destination = usize::from(flow.destination);
    let place = source >= nodes || destination >= nodes || source == destination;
    let times = flow.separation == 0 || flow.deadline == 0 || flow.separation < flow.deadline;
    place || !(1..=65535).contains(&flow.payload) || times
}

// The record of a flow, by its number.
fn check_record(
    setting: &Setting,
    nodes: usize,
    flow: &FlowRecord,
    number: usize,
) -> Result<(), LoadFault>
    requires { number ≤ 128 }
    ensures { result ≡ unless (first_fault (record_checks setting.now.header nodes setting.now.slot.length number flow.now)) tt }
{
    let byte = setting.record_byte(number);
    if is_wrong(flow, nodes) {
        return Err(LoadFault::Record { flow: number, byte });
    }
    if flow.separation < setting.slot.length {
        return Err(LoadFault::Separation { flow: number, byte });
    }
    Ok(())
}

// The records of all flows, in turn.
// The first fault ends the loop, which `?` says more plainly than a chain.
pub(crate) fn check_records(
    setting: &Setting,
    nodes: usize,
    records: &[FlowRecord],
) -> Result<(), LoadFault>
    requires { length records.now ≤ 128 }
    ensures { result ≡ unless (first_fault (each_flow (λ i. record_checks setting.now.header nodes setting.now.slot.length i (record_of records.now i)) (length records.now))) tt }
{
    for (k, flow) in records.iter().enumerate() {
        check_record(setting, nodes, flow, k + 1)?;
    }
    Ok(())
}
