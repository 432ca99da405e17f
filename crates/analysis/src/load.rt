// Loading a flow table over a fabric.
ghost use Rattle.std.specs.Prelude.{◌≡◌, length, Some, None, Err, OnOk, MatchResult};
ghost use Rattle.table.specs.declared.fault.LoadFault.TheVariants.{NoMemory};
ghost use Rattle.table.specs.File.{header_of};
ghost use Rattle.table.specs.Checks.{first_fault};
ghost use Rattle.analysis.specs.Loading.{open_checks, load_checks, timing_of};
ghost use Rattle.analysis.specs.Rows.{Builds};
ghost use Rattle.analysis.specs.Settings.{SetFor};
ghost use Rattle.analysis.specs.Answers.{Loads, Exactly};

use crate::checks::{check_fit, check_records};
use crate::loaded::Loaded;
use crate::setting::Setting;
use crate::taking::load_rows;
use fabric::fabric::Fabric;
use std::alloc::Global;
use table::checks::{check_header, check_sections};
use table::fault::LoadFault;
use table::records::read_flows;

// The setting of a file that is in order, and that fits the medium and the fabric.
fn open_file(file: &[u8], nodes: usize, limit: usize) -> Result<Setting, LoadFault>
    ensures { let fault = first_fault (open_checks (length file.now) limit nodes (header_of file.now)) in MatchResult result (λ s. (fault ≡ None) × SetFor (header_of file.now) s) (λ e. fault ≡ Some e) }
{
    let header = check_header(file)?;
    check_fit(&header, limit, nodes)?;
    check_sections(&header, file.len())?;
    Setting::new(header)
}

// Loads a table over a fabric, for a medium with so many intervals: the figures of each flow, or the first
// check that fails. Nothing but the answer is made.
pub fn load<F: Fabric>(
    heap: Global,
    file: &[u8],
    fabric: &F,
    limit: usize,
) -> Result<Loaded, LoadFault>
    ensures answer { Builds (first_fault (load_checks file.now (F.nodes fabric.now) (F.route fabric.now) limit)) (Loads file.now (F.route fabric.now)) result }
    ensures memory { result ≡ Err NoMemory → first_fault (open_checks (length file.now) limit (F.nodes fabric.now) (header_of file.now)) ≡ None }
    ensures exact { OnOk result (Exactly (timing_of file.now (F.route fabric.now))) }
{
    let nodes = fabric.node_count();
    let setting = open_file(file, nodes, limit)?;
    let records = read_flows(heap, file, &setting.header)?;
    let flows = records.as_slice();
    check_records(&setting, nodes, flows)?;
    let rows = load_rows(heap, fabric, &setting, flows)?;
    Ok(Loaded {
        slot: setting.slot,
        rows,
    })
}
