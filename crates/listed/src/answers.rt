// What a listed fabric answers about its routes and links.
ghost use Rattle.std.specs.Prelude.{length};
ghost use Rattle.listed.specs.ListedRoutes.{ends_at, listed_route};
ghost use Rattle.listed.specs.Meaning.{route_of};
ghost use borrow.Author.Rules.{rules};
ghost use Rattle.listed.specs.Laws;
ghost use Rattle.std.proofs.Common.{arith};

use crate::Listed;
use fabric::fabric::Fabric;
use fabric::fault::RouteFault;
use fabric::route::Ends;
use fabric::trip::Trip;

impl Fabric for Listed {
    ghost nodes = { λ l. l.nodes };

    ghost links = { λ l. length l.links.items };

    ghost ends = { λ l k. ends_at l.links.items k };

    ghost route = { route_of };

    ghost sizes = { first_of (Prim.search rules, Prim.grind (arith, Self.row.coded.inj)) };

    ghost known = { unfold listed_route in λ f i s d h. Prim.search rules };

    ghost lawful = { λ f i s d p e. Laws.lawful f.nodes f.links.items f.entries.items f.numbers.items i s d p e };

    fn node_count(&self) -> usize {
        self.nodes
    }

    fn route_len(&self, trip: Trip) -> Result<usize, RouteFault> {
        Ok(self.find_route(trip)?.len())
    }

    fn route_link(&self, trip: Trip, k: usize) -> Option<usize> {
        let numbers = self.find_route(trip).ok()?;
        numbers.get(k).copied().map(usize::from)
    }

    fn link_ends(&self, link: usize) -> Option<Ends> {
        self.links.get(link).copied()
    }
}
