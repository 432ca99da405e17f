// A fabric: what its routes are, and the questions that it answers about them.
ghost use Rattle.std.specs.Prelude.{◌≡◌, ℕ, ◌≤◌, ◌⊎◌, List, Ok};
ghost use Rattle.fabric.specs.declared.route.Ends.{Ends};
ghost use Rattle.fabric.specs.Routes.{Route, Lawful, length_of, link_of, ends_of, unknown_node};

use crate::fault::RouteFault;
use crate::route::Ends;
use crate::trip::Trip;

pub trait Fabric {
    // How many nodes there are; they are numbered below this.
    ghost nodes: { Self → ℕ };

    // How many links there are; they are numbered below this.
    ghost links: { Self → ℕ };

    // The ends of a link.
    ghost ends: { Self → ℕ → Ends };

    // The route of a flow, by its number, from a source to a destination.
    ghost route: { Self → ℕ → ℕ → ℕ → Route };

    // How many nodes there are.
    fn node_count(&self) -> usize
        ensures { result ≡ nodes self.now };

    // How many links the route has, or why there is none.
    fn route_len(&self, trip: Trip) -> Result<usize, RouteFault>
        ensures { result ≡ length_of (route self.now trip.flow trip.source trip.destination) };

    // The k-th link of the route, from 0; none past its end or where there is no route.
    fn route_link(&self, trip: Trip, k: usize) -> Option<usize>
        ensures { result ≡ link_of (route self.now trip.flow trip.source trip.destination) k };

    // The ends of a link; none where there is no such link.
    fn link_ends(&self, link: usize) -> Option<Ends>
        ensures { result ≡ ends_of (links self.now) (ends self.now) link };

    ghost sizes: { (f : Self) → (1 ≤ nodes f) × (nodes f ≤ 256) × (links f ≤ 2048) };

    ghost known: { (f : Self) (i s d : ℕ) → (nodes f ≤ s) ⊎ (nodes f ≤ d) → route f i s d ≡ unknown_node };

    ghost lawful: { (f : Self) (i s d : ℕ) (p : List ℕ) → route f i s d ≡ Ok p → Lawful (links f) (ends f) s d p };
}
