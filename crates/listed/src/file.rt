// The listed fabric of a file.
ghost use Rattle.std.specs.Prelude.{◌≡◌, IfOk};
ghost use Rattle.listed.specs.Made.{MadeFrom, entries_listed};

use crate::Listed;
use std::alloc::{AllocError, Global};
use table::checks::check_file;
use table::fault::LoadFault;
use table::header::Header;
use table::records::{RouteEntry, read_entries, read_links, read_numbers};

// The route entries; a file that lists no links has none.
fn listed_entries(
    heap: Global,
    bytes: &[u8],
    header: &Header,
) -> Result<Vec<RouteEntry>, AllocError>
    ensures { IfOk result (λ v. v.items ≡ entries_listed bytes.now header.now) }
{
    if header.links == 0 {
        return Ok(Vec::new(heap));
    }
    read_entries(heap, bytes, header)
}

impl Listed {
    // The fabric of a file whose size, header and sections are in order.
    pub fn from_file(heap: Global, bytes: &[u8]) -> Result<Listed, LoadFault>
        ensures { MadeFrom bytes.now result }
    {
        let header = check_file(bytes)?;
        let links = read_links(heap, bytes, &header)?;
        let entries = listed_entries(heap, bytes, &header)?;
        let numbers = read_numbers(heap, bytes, &header)?;
        Ok(Listed {
            nodes: usize::from(header.width) * usize::from(header.height),
            links,
            entries,
            numbers,
        })
    }
}
