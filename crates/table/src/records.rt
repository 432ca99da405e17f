// The records of a flow table's sections, and how a section is read.
ghost use Rattle.std.specs.Prelude.{◌≡◌, ℕ, ◌+◌, ◌*◌, ◌^◌, ◌<◌, ◌≤◌, List, IfOk};
ghost use Rattle.table.specs.Bytes.{u16_at};
ghost use Rattle.table.specs.File.{flow_at, link_at, entry_at, records_at, flows_of, links_of, entries_of, numbers_of};
ghost use Rattle.std.proofs.Common.{rules};

use crate::bytes::{u16_at, u32_at};
use crate::header::Header;
use fabric::route::Ends;
use std::alloc::{AllocError, Global};

// One flow: packets of so many bytes go from a source to a destination.
#[derive(Clone, Copy)]
pub struct FlowRecord {
    pub source: u16,
    pub destination: u16,
    // bytes in a packet
    pub payload: u32,
    // the least time between two releases, and the deadline after a release
    pub separation: u32,
    pub deadline: u32,
}

// Where a flow's listed route stands: so many links, from this position of the number list on.
#[derive(Clone, Copy)]
pub struct RouteEntry {
    pub length: u16,
    pub position: u16,
}

// What a section is a row of. A file and a place in it go together, since a lent rest of the file would hide the place that the format speaks of.
trait FileRecord {
    // what the bytes mean that begin at a place
    ghost meaning: { List ℕ → ℕ → Self };

    // how many bytes it has
    const WIDTH: usize;

    ghost WIDTH: { ℕ };

    fn read(bytes: &[u8], at: usize) -> Self
        requires { at < 2 ^ 39 }
        ensures { result ≡ meaning bytes.now at };

    ghost small: { WIDTH ≤ 16 };
}

impl FileRecord for FlowRecord {
    ghost meaning = { flow_at };

    const WIDTH: usize = 16;

    ghost WIDTH = { 16 };

    ghost small = { Prim.search rules };

    #[tactic(auto, unfolding(crate::specs::File::flow_at))]
    fn read(bytes: &[u8], at: usize) -> FlowRecord {
        FlowRecord {
            source: u16_at(bytes, at),
            destination: u16_at(bytes, at + 2),
            payload: u32_at(bytes, at + 4),
            separation: u32_at(bytes, at + 8),
            deadline: u32_at(bytes, at + 12),
        }
    }
}

impl FileRecord for Ends {
    ghost meaning = { link_at };

    const WIDTH: usize = 4;

    ghost WIDTH = { 4 };

    ghost small = { Prim.search rules };

    #[tactic(auto, unfolding(crate::specs::File::link_at))]
    fn read(bytes: &[u8], at: usize) -> Ends {
        Ends {
            start: usize::from(u16_at(bytes, at)),
            stop: usize::from(u16_at(bytes, at + 2)),
        }
    }
}

impl FileRecord for RouteEntry {
    ghost meaning = { entry_at };

    const WIDTH: usize = 4;

    ghost WIDTH = { 4 };

    ghost small = { Prim.search rules };

    #[tactic(auto, unfolding(crate::specs::File::entry_at))]
    fn read(bytes: &[u8], at: usize) -> RouteEntry {
        RouteEntry {
            length: u16_at(bytes, at),
            position: u16_at(bytes, at + 2),
        }
    }
}

impl FileRecord for u16 {
    ghost meaning = { u16_at };

    const WIDTH: usize = 2;

    ghost WIDTH = { 2 };

    ghost small = { Prim.search rules };

    fn read(bytes: &[u8], at: usize) -> u16 {
        u16_at(bytes, at)
    }
}

// The records of a section, from a byte on.
fn read_section<R: FileRecord + Drop>(
    heap: Global,
    bytes: &[u8],
    at: u32,
    count: u16,
) -> Result<Vec<R>, AllocError>
    ensures { IfOk result (λ v. v.items ≡ records_at (R.FileRecord.meaning bytes.now) R.FileRecord.WIDTH at count) }
{
    (0..count)
        .map(|i| R::read(bytes, at as usize + R::WIDTH * usize::from(i)))
        .collect(heap)
}

// The flow records. Each of these four names a section's record, place and count once, which at its calls would be no plainer.
pub fn read_flows(
    heap: Global,
    bytes: &[u8],
    header: &Header,
) -> Result<Vec<FlowRecord>, AllocError>
    ensures { IfOk result (λ v. v.items ≡ flows_of bytes.now header.now) }
{
    read_section(heap, bytes, header.flows_at, header.flows)
}

// The link records, as the ends of each link.
pub fn read_links(heap: Global, bytes: &[u8], header: &Header) -> Result<Vec<Ends>, AllocError>
    ensures { IfOk result (λ v. v.items ≡ links_of bytes.now header.now) }
{
    read_section(heap, bytes, header.links_at, header.links)
}

// The route entries, one for each flow.
pub fn read_entries(
    heap: Global,
    bytes: &[u8],
    header: &Header,
) -> Result<Vec<RouteEntry>, AllocError>
    ensures { IfOk result (λ v. v.items ≡ entries_of bytes.now header.now) }
{
    read_section(heap, bytes, header.routes_at, header.flows)
}

// The number list.
pub fn read_numbers(heap: Global, bytes: &[u8], header: &Header) -> Result<Vec<u16>, AllocError>
    ensures { IfOk result (λ v. v.items ≡ numbers_of bytes.now header.now) }
{
    read_section(heap, bytes, header.numbers_at, header.numbers)
}
