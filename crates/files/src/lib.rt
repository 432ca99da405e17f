// Loading a flow table over the fabric that it means.
#![tactic(auto)]

ghost use Rattle.std.specs.Prelude.{◌≡◌, Err, OnOk, MatchResult};
ghost use Rattle.table.specs.File.{header_of};
ghost use Rattle.table.specs.Checks.{first_fault};
ghost use Rattle.analysis.specs.Loading.{load_checks, timing_of};
ghost use Rattle.analysis.specs.Rows.{Builds};
ghost use Rattle.analysis.specs.Answers.{Loads, Exactly};
ghost use Rattle.files.specs.Means.{nodes_of, routes_of};

use analysis::load::load;
use analysis::loaded::Loaded;
use fabric::fabric::Fabric;
use listed::Listed;
use mesh::mesh::Mesh;
use std::alloc::Global;
use table::fault::LoadFault;
use table::header::Header;

// The intervals of the wire that tables are loaded for.
pub const INTERVALS: usize = 128;

// Over a fabric, if one was made of the file.
fn load_over<F: Fabric + Drop>(
    heap: Global,
    file: &[u8],
    made: Result<F, LoadFault>,
) -> Result<Loaded, LoadFault>
    ensures { MatchResult made (λ f. Builds (first_fault (load_checks file.now (F.nodes f) (F.route f) 128)) (Loads file.now (F.route f)) result × OnOk result (Exactly (timing_of file.now (F.route f)))) (λ e. result ≡ Err e) }
{
    let fabric = made?;
    load(heap, file, &fabric, INTERVALS)
}

// Loads a table over the mesh where it lists no links, and over its own links and routes otherwise, for a wire
// with 128 intervals.
pub fn load_file(heap: Global, file: &[u8]) -> Result<Loaded, LoadFault>
    ensures answer { Builds (first_fault (load_checks file.now (nodes_of (header_of file.now)) (routes_of file.now) 128)) (Loads file.now (routes_of file.now)) result }
    ensures exact { OnOk result (Exactly (timing_of file.now (routes_of file.now))) }
{
    if Header::read(file).links == 0 {
        load_over(heap, file, Mesh::from_file(file))
    } else {
        load_over(heap, file, Listed::from_file(heap, file))
    }
}
