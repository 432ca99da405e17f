// What a route is asked for.
#[derive(Clone, Copy, PartialEq, Eq)]
pub struct Trip {
    // the number of the flow that goes it
    pub flow: usize,
    // the node that it starts from
    pub source: usize,
    // the node that it is to reach
    pub destination: usize,
}
