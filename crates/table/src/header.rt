// The header of a flow table: 32 bytes.
ghost use Rattle.std.specs.Prelude.{◌≡◌};
ghost use Rattle.table.specs.File.{header_of};

use crate::bytes::{u16_at, u32_at};

#[derive(Clone, Copy)]
pub struct Header {
    // how many flows there are
    pub flows: u16,
    // the nodes stand in so many columns and rows
    pub width: u16,
    pub height: u16,
    // the number of the profile
    pub profile: u16,
    // empty intervals after those of the flows
    pub spare: u16,
    // how many links are listed; none means a mesh
    pub links: u16,
    // where the flow records, the link records, the route entries and the number list begin
    pub flows_at: u32,
    pub links_at: u32,
    pub routes_at: u32,
    pub numbers_at: u32,
    // how many numbers the number list has
    pub numbers: u16,
    // the last two bytes, which are zero
    pub reserved: u16,
}

impl Header {
    // The header that the first 32 bytes mean, checked or not; a byte that is not there counts as 0.
    #[tactic(auto, unfolding(crate::specs::File::header_of))]
    pub fn read(bytes: &[u8]) -> Header
        ensures { result ≡ header_of bytes.now }
    {
        Header {
            flows: u16_at(bytes, 0),
            width: u16_at(bytes, 2),
            height: u16_at(bytes, 4),
            profile: u16_at(bytes, 6),
            spare: u16_at(bytes, 8),
            links: u16_at(bytes, 10),
            flows_at: u32_at(bytes, 12),
            links_at: u32_at(bytes, 16),
            routes_at: u32_at(bytes, 20),
            numbers_at: u32_at(bytes, 24),
            numbers: u16_at(bytes, 28),
            reserved: u16_at(bytes, 30),
        }
    }
}
