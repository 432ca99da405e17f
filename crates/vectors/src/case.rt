// A worked case.
use analysis::figures::Figures;
use table::fault::LoadFault;

#[derive(Clone, Copy)]
pub struct Case {
    pub file: [u8; 80],
    // what loading it answers: the figures of its three flows, or why it is refused
    pub expected: Result<[Figures; 3], LoadFault>,
}
