// The pulls that the words of a node bank hold.
ghost use Rattle.std.specs.Prelude.{◌≡◌, ◌<◌, replicate};
ghost use Rattle.medium.specs.Pulls.{marked, pulled_by, pulled_at};

use super::Words;
use crate::checks::NODES;

impl Words {
    pub(crate) fn new() -> Words
        ensures { result.bits ≡ replicate 512 0 }
    {
        Words { bits: [0; 512] }
    }

    // Forgets every pull of every node.
    pub(crate) fn clear(&mut self)
        ensures { self.new.bits ≡ replicate 512 0 }
    {
        self.bits = [0; 512];
    }

    // Sets the bit of a node and an interval. Their limits are asked where they come in: a type for them would be no plainer than two numbers.
    pub(crate) fn pull(&mut self, node: usize, k: usize)
        requires node { node < 256 }
        requires interval { k < 128 }
        ensures { self.new.bits ≡ marked self.old.bits node k }
    {
        self.bits[2 * node + k / 64] |= 1 << (k % 64);
    }

    // Whether a node pulled an interval.
    fn pulled(&self, node: usize, k: usize) -> bool
        requires node { node < 256 }
        requires interval { k < 128 }
        ensures { result ≡ pulled_by self.now.bits node k }
    {
        (self.bits[2 * node + k / 64] >> (k % 64)) % 2 == 1
    }

    // Whether any node pulled an interval.
    pub(crate) fn any(&self, k: usize) -> bool
        requires { k < 128 }
        ensures { result ≡ pulled_at self.now.bits k }
    {
        (0..NODES).any(|node| self.pulled(node, k))
    }
}
