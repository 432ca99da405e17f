// Steps along one axis of a mesh.
ghost use Rattle.std.specs.Prelude.{◌≡◌, ◌≤◌, max, nat_lt, if◌then◌else◌};
ghost use Rattle.mesh.specs.Grid.{distance, toward};

use crate::direction::Direction;

// A leg of a walk: along one axis, from a column or row to another.
#[derive(Clone, Copy)]
pub(crate) struct Leg {
    pub from: usize,
    pub to: usize,
}

impl Leg {
    // How many steps it has.
    pub(crate) fn steps(self) -> usize
        ensures value { result ≡ distance self.from self.to }
        ensures within { result ≤ max self.from self.to }
    {
        self.from.abs_diff(self.to)
    }

    // Where so many steps along it lead, no further than to its end.
    pub(crate) fn walked(self, steps: usize) -> usize
        ensures value { result ≡ toward self.from self.to steps }
        ensures within { result ≤ max self.from self.to }
    {
        if self.from < self.to {
            self.from + steps.min(self.to - self.from)
        } else {
            self.from - steps.min(self.from - self.to)
        }
    }

    // The direction of its steps, of the two along its axis: up where its end is above, else down.
    pub(crate) fn heading(self, up: Direction, down: Direction) -> Direction
        ensures { result ≡ (if nat_lt self.from self.to then up else down) }
    {
        if self.from < self.to { up } else { down }
    }
}
