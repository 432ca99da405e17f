// Links between vertices: core a is vertex 2a, router a is vertex 2a + 1.

pub fn core(node: u64) -> u64 {
    node.saturating_mul(2)
}

pub fn router(node: u64) -> u64 {
    core(node).saturating_add(1)
}

// The two vertices of a link.
#[derive(Clone, Copy, PartialEq, Debug)]
pub struct Link {
    pub start: u64,
    pub stop: u64,
}

impl Link {
    // From a node's core to its router.
    pub fn from_core(node: u64) -> Link {
        Link {
            start: core(node),
            stop: router(node),
        }
    }

    // From one node's router to another's.
    pub fn between(node: u64, next: u64) -> Link {
        Link {
            start: router(node),
            stop: router(next),
        }
    }

    // The other way round.
    pub fn back(self) -> Link {
        Link {
            start: self.stop,
            stop: self.start,
        }
    }
}
