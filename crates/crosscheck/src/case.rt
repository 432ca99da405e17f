// One question put to both calculations.
use crate::second::file::File;
use crate::second::network::Network;

#[derive(Clone, Copy)]
pub struct Case<'a, 'b> {
    // the table that is loaded
    pub file: File<'a>,
    // the fabric that it is loaded with, which another table may mean
    pub network: Network<'b>,
    // the medium has so many intervals
    pub limit: u64,
}
