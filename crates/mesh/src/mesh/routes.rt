// The mesh as a fabric.
ghost use Rattle.std.specs.Prelude.{◌≡◌, ◌*◌, ◌<◌};
ghost use Rattle.std.specs.Result.{result_map_both};
ghost use Rattle.mesh.specs.Links.{core, router, mesh_ends};
ghost use Rattle.mesh.specs.Paths.{mesh_route};
ghost use Rattle.std.proofs.Common.{arith, mul-pos};
ghost use Rattle.mesh.specs.Routes.{node_known, route_lawful};

use super::Mesh;
use super::path::Walk;
use crate::direction::Direction;
use fabric::fabric::Fabric;
use fabric::fault::{Cause, RouteFault};
use fabric::route::Ends;
use fabric::trip::Trip;

// A longer route is none.
const MOST_LINKS: usize = 64;

// The vertices of a node.
fn core_of(node: usize) -> usize
    requires { node < 256 }
    ensures { result ≡ core node }
{
    2 * node
}

fn router_of(node: usize) -> usize
    requires { node < 256 }
    ensures { result ≡ router node }
{
    2 * node + 1
}

impl Mesh {
    ghost use Rattle.mesh.specs.Trips.{walk_links};

    // The walk of a route, or why there is none.
    fn walk(&self, trip: Trip) -> Result<Walk<'_>, RouteFault>
        ensures { result_map_both walk_links (λ fault. fault) result ≡ mesh_route self.now.width self.now.height trip.source trip.destination }
    {
        if !self.has(trip.source) || !self.has(trip.destination) {
            return Err(Cause::UnknownNode.into());
        }
        let walk = Walk { mesh: self, trip };
        if walk.links() > MOST_LINKS {
            return Err(Cause::Length.into());
        }
        Ok(walk)
    }
}

impl Fabric for Mesh {
    ghost nodes = { λ f. f.width * f.height };

    ghost links = { λ f. 6 * (f.width * f.height) };

    ghost ends = { λ f link. mesh_ends f.width f.height link };

    ghost route = { λ f flow s d. mesh_route f.width f.height s d };

    ghost sizes = { λ f. omega (arith, mul-pos f.wide f.high) };

    ghost known = { λ f flow s d missing. node_known f.width f.height s d missing };

    ghost lawful = { λ f flow s d p is. route_lawful f.width f.height s d p f.wide is };

    fn node_count(&self) -> usize {
        self.size()
    }

    fn route_len(&self, trip: Trip) -> Result<usize, RouteFault> {
        Ok(self.walk(trip)?.links())
    }

    fn route_link(&self, trip: Trip, k: usize) -> Option<usize> {
        self.walk(trip).ok()?.link_at(k)
    }

    fn link_ends(&self, link: usize) -> Option<Ends> {
        let nodes = self.size();
        let (start, stop) = if link < nodes {
            (core_of(link), router_of(link))
        } else if link < 2 * nodes {
            let node = link - nodes;
            (router_of(node), core_of(node))
        } else if link < 6 * nodes {
            let side = link - 2 * nodes;
            let node = side / 4;
            let next = self.neighbour(Direction::ALL[side % 4], node);
            (router_of(node), router_of(next))
        } else {
            return None;
        };
        Some(Ends { start, stop })
    }
}
