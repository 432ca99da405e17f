// The hops of a listed route, one after the other.
ghost use Rattle.std.specs.Prelude.{◌≡◌, [], IfOk};
ghost use Rattle.std.specs.Result.{result_err};
ghost use Rattle.listed.specs.ListedRoutes.{ends_at, first_cause, hop_checks, walk_fault};

use fabric::fault::{Cause, RouteFault};
use fabric::route::Ends;

// The vertex where the next hop ends, from vertex `here` by link `number`, after the links used; or what is wrong with it.
fn hop(links: &[Ends], used: &[u16], here: usize, number: u16) -> Result<usize, Cause>
    ensures fault { result_err result ≡ first_cause (hop_checks links.now used.now here number) }
    ensures ends { IfOk result (λ stop. stop ≡ (ends_at links.now number).stop) }
{
    let link = links.get(usize::from(number)).ok_or(Cause::UnknownLink)?;
    if link.start != here {
        return Err(if used.is_empty() {
            Cause::Start
        } else {
            Cause::Gap
        });
    }
    if used.contains(&number) {
        return Err(Cause::Repeated);
    }
    Ok(link.stop)
}

// Goes over a route's hops from vertex `start` to vertex `goal`, up to the first fault.
#[tactic(auto, using(crate::proofs::Walks::walk_hop, crate::proofs::Walks::walk_over))]
pub(crate) fn walk(
    links: &[Ends],
    numbers: &[u16],
    start: usize,
    goal: usize,
) -> Result<(), RouteFault>
    ensures { result_err result ≡ walk_fault links.now goal [] start numbers.now }
{
    let mut here = start;
    // `try_fold` is no plainer: its closure would have to say, as `requires`, that there are k numbers before the next
    for (k, number) in numbers.iter().enumerate() {
        here = hop(links, &numbers[..k], here, *number).map_err(|cause| RouteFault {
            hop: k + 1,
            cause,
        })?;
    }
    if here != goal {
        return Err(RouteFault {
            hop: numbers.len(),
            cause: Cause::End,
        });
    }
    Ok(())
}
