// Taking a route from a fabric, and comparing two that were taken.
ghost use Rattle.std.specs.Prelude.{◌≡◌, length};
ghost use Rattle.fabric.specs.Paths.{links_in, stored, has, shares};

use super::Path;
use crate::fabric::Fabric;
use crate::fault::RouteFault;
use crate::trip::Trip;

// Whether a link is among some. Without a stop at the first that is it, the compiler compares them all at once.
fn stands_in(links: &[usize], link: usize) -> bool
    ensures { result ≡ has link links.now }
{
    links
        .iter()
        .fold(false, |found, kept| found | (*kept == link))
}

impl Path {
    // Copies the route of a flow.
    pub fn take<F: Fabric>(fabric: &F, trip: Trip) -> Result<Path, RouteFault>
        ensures { stored result ≡ F.route fabric.now trip.flow trip.source trip.destination }
    {
        let len = fabric.route_len(trip)?;
        let mut links = [0; 64];
        // a `for`: each link is asked for by its place, and stands there
        for k in 0..len {
            let Some(link) = fabric.route_link(trip, k) else {
                unreachable()
            };
            links[k] = link;
        }
        Ok(Path { links, len })
    }

    // How many links it has.
    pub fn len(&self) -> usize
        ensures { result ≡ length (links_in self.now) }
    {
        self.len
    }

    // Whether a link stands in it. A load compares the routes of all pairs of flows, so it looks at four links at a time, and at no more once it is found.
    pub fn has(&self, link: usize) -> bool
        ensures { result ≡ has link (links_in self.now) }
    {
        let (fours, rest) = self.as_slice().as_chunks::<4>();
        fours.iter().any(|four| stands_in(four, link)) || rest.contains(&link)
    }

    // Whether one link stands in both.
    pub fn shares(&self, other: &Path) -> bool
        ensures { result ≡ shares (links_in self.now) (links_in other.now) }
    {
        self.as_slice().iter().any(|link| other.has(*link))
    }

    fn as_slice(&self) -> &[usize]
        ensures { result.now ≡ links_in self.now }
    {
        &self.links[..self.len]
    }
}
