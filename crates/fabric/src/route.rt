// The two vertices of a link. Node a has a core, vertex 2a, and a router, vertex 2a + 1.
#[derive(Clone, Copy, PartialEq, Eq)]
pub struct Ends {
    pub start: usize,
    pub stop: usize,
}
