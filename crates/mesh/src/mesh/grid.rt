// Where the nodes of a mesh stand, and which are neighbours.
ghost use Rattle.std.specs.Prelude.{◌≡◌, ◌*◌, ◌<◌};
ghost use Rattle.mesh.specs.Grid.{has, column, row, node_at, neighbour};

use super::Mesh;
use crate::direction::Direction;

impl Mesh {
    // How many nodes there are.
    pub(crate) fn size(&self) -> usize
        ensures { result ≡ self.now.width * self.now.height }
    {
        self.width * self.height
    }

    // Whether it has this node.
    pub(crate) fn has(&self, node: usize) -> bool
        ensures { result ≡ has self.now.width self.now.height node }
    {
        node < self.size()
    }

    // The column and the row of a node.
    pub(crate) fn column(&self, node: usize) -> usize
        ensures value { result ≡ column self.now.width node }
        ensures within { result < self.now.width }
    {
        node % self.width
    }

    #[tactic(auto, using(crate::specs::Walk::row_below))]
    pub(crate) fn row(&self, node: usize) -> usize
        requires { node < self.now.width * self.now.height }
        ensures value { result ≡ row self.now.width node }
        ensures within { result < self.now.height }
    {
        node / self.width
    }

    // The node in a column and a row.
    #[tactic(auto, using(std::proofs::lemmas::Nat::rows))]
    pub(crate) fn node_at(&self, x: usize, y: usize) -> usize
        requires { (x < self.now.width) × (y < self.now.height) }
        ensures value { result ≡ node_at self.now.width x y }
        ensures within { result < self.now.width * self.now.height }
    {
        y * self.width + x
    }

    // The next node in a direction; at the edge the node itself.
    pub(crate) fn neighbour(&self, to: Direction, node: usize) -> usize
        requires { node < self.now.width * self.now.height }
        ensures value { result ≡ neighbour self.now.width self.now.height to node }
        ensures within { result < self.now.width * self.now.height }
    {
        let x = self.column(node);
        let y = self.row(node);
        match to {
            Direction::East if x + 1 < self.width => self.node_at(x + 1, y),
            Direction::West if x > 0 => self.node_at(x - 1, y),
            Direction::North if y + 1 < self.height => self.node_at(x, y + 1),
            Direction::South if y > 0 => self.node_at(x, y - 1),
            _ => node,
        }
    }
}
