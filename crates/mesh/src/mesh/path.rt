// The links of a route, one by one: along x first, then along y.
ghost use Rattle.std.specs.Prelude.{◌≡◌, ◌*◌, ◌<◌, length, max, Ok};
ghost use Rattle.mesh.specs.Grid.{Both, column, row};
ghost use Rattle.mesh.specs.Paths.{visited, heading, step_link};

use super::Mesh;
use crate::axis::Leg;
use crate::direction::Direction;
use fabric::trip::Trip;

// A trip between two nodes of a mesh.
#[derive(Clone, Copy)]
pub(crate) struct Walk<'a> {
    pub mesh: &'a Mesh,
    pub trip: Trip,
    ghost both: { Both mesh.now.width mesh.now.height trip.source trip.destination },
}

impl Walk<'_> {
    ghost use Rattle.fabric.specs.Routes.{link_of};
    ghost use Rattle.mesh.specs.Trips.{walk_links};

    // Its leg along x, and below it the one along y; a closure that tells the column or the row would be no plainer than the two lines of each.
    fn along_x(&self) -> Leg
        ensures from { result.from ≡ column self.now.mesh.now.width self.now.trip.source }
        ensures to { result.to ≡ column self.now.mesh.now.width self.now.trip.destination }
        ensures within { max result.from result.to < self.now.mesh.now.width }
    {
        Leg {
            from: self.mesh.column(self.trip.source),
            to: self.mesh.column(self.trip.destination),
        }
    }

    // Its leg along y.
    fn along_y(&self) -> Leg
        ensures from { result.from ≡ row self.now.mesh.now.width self.now.trip.source }
        ensures to { result.to ≡ row self.now.mesh.now.width self.now.trip.destination }
        ensures within { max result.from result.to < self.now.mesh.now.height }
    {
        Leg {
            from: self.mesh.row(self.trip.source),
            to: self.mesh.row(self.trip.destination),
        }
    }

    // The node where a step begins.
    fn visited(&self, step: usize) -> usize
        ensures value { result ≡ visited self.now.mesh.now.width self.now.trip.source self.now.trip.destination step }
        ensures within { result < self.now.mesh.now.width * self.now.mesh.now.height }
    {
        let x = self.along_x();
        let past_x = step.saturating_sub(x.steps());
        self.mesh
            .node_at(x.walked(step), self.along_y().walked(past_x))
    }

    // The direction of a step.
    fn heading(&self, step: usize) -> Direction
        ensures { result ≡ heading self.now.mesh.now.width self.now.trip.source self.now.trip.destination step }
    {
        let x = self.along_x();
        if step < x.steps() {
            x.heading(Direction::East, Direction::West)
        } else {
            self.along_y().heading(Direction::North, Direction::South)
        }
    }

    // The link of a step.
    fn step_link(&self, step: usize) -> usize
        ensures { let mesh = self.now.mesh.now in result ≡ step_link mesh.width mesh.height self.now.trip.source self.now.trip.destination step }
    {
        2 * self.mesh.size() + 4 * self.visited(step) + self.heading(step) as usize
    }

    // How many links it has: one out of the source's core, one for each step, and one into the destination's core.
    #[tactic(auto, using(crate::specs::Hops::path_length))]
    pub(crate) fn links(&self) -> usize
        ensures { result ≡ length (walk_links self.now) }
    {
        self.along_x().steps() + self.along_y().steps() + 2
    }

    // The k-th of its links, from 0; none past its end.
    #[tactic(auto, using(crate::specs::Hops::first_at, crate::specs::Hops::step_at, crate::specs::Hops::last_at, crate::specs::Hops::path_length))]
    pub(crate) fn link_at(&self, k: usize) -> Option<usize>
        ensures { result ≡ link_of (Ok (walk_links self.now)) k }
    {
        let last = self.links() - 1;
        if k == 0 {
            Some(self.trip.source)
        } else if k < last {
            Some(self.step_link(k - 1))
        } else if k == last {
            Some(self.mesh.size() + self.trip.destination)
        } else {
            None
        }
    }
}
