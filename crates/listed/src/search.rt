// The search for a flow's route: its entry, the numbers that this points at, and their hops.
ghost use Rattle.std.specs.Prelude.{◌≡◌, IfOk};
ghost use Rattle.std.specs.Result.{result_map_both, result_err};
ghost use Rattle.listed.specs.ListedRoutes.{first_cause};
ghost use Rattle.listed.specs.Meaning.{checks_of, flow_numbers, route_of};

use crate::Listed;
use crate::hops::walk;
use fabric::fault::{Cause, RouteFault};
use fabric::trip::Trip;

impl Listed {
    // The numbers that the entry of a trip's flow points at; or why there are none, as far as nodes and entry tell.
    fn listed_numbers(&self, trip: Trip) -> Result<&[u16], Cause>
        ensures fault { result_err result ≡ first_cause (checks_of self.now trip.flow trip.source trip.destination) }
        ensures listed { IfOk result (λ numbers. numbers.now ≡ flow_numbers self.now trip.flow) }
    {
        if trip.source >= self.nodes || trip.destination >= self.nodes {
            return Err(Cause::UnknownNode);
        }
        // flow i has entry i - 1
        let place = trip.flow.checked_sub(1).ok_or(Cause::Length)?;
        let entry = self.entries.get(place).ok_or(Cause::Length)?;
        if !(2..=64).contains(&entry.length) {
            return Err(Cause::Length);
        }
        let first = usize::from(entry.position);
        let end = first + usize::from(entry.length);
        self.numbers.get(first..end).ok_or(Cause::List)
    }

    // The links of a flow's route, or why there is none.
    #[tactic(auto, unfolding(crate::specs::ListedRoutes::listed_route))]
    pub(crate) fn find_route(&self, trip: Trip) -> Result<&[u16], RouteFault>
        ensures { result_map_both (λ x. x.now) (λ fault. fault) result ≡ route_of self.now trip.flow trip.source trip.destination }
    {
        let numbers = self.listed_numbers(trip)?;
        walk(&self.links, numbers, 2 * trip.source, 2 * trip.destination)?;
        Ok(numbers)
    }
}
