// The steps of an interval. None of them asks anything of its caller.
ghost use Rattle.std.specs.Prelude.{◌≡◌, length, if◌then◌else◌, Some, None, nat_lt};
ghost use Rattle.medium.specs.Levels.{read_at};
ghost use Rattle.interval.specs.Intervals.{may_pull_if, pulled_if, quiet_at};

use medium::fault::MediumFault;
use medium::level::Level;
use medium::medium::Medium;

// The node pulls the last interval if `pulls` says so, and keeps still otherwise. With an optional node it would be no plainer: each source has one.
pub fn pull_if<M: Medium>(medium: &mut M, node: usize, pulls: bool) -> Result<(), MediumFault>
    ensures answer { result ≡ may_pull_if (length (M.levels medium.old)) node pulls }
    ensures after { M.levels medium.new ≡ pulled_if (M.levels medium.old) node pulls }
{
    if pulls { medium.pull(node) } else { Ok(()) }
}

// Whether interval k is open and nobody pulled it.
pub fn is_quiet<M: Medium>(medium: &M, k: usize) -> bool
    ensures { result ≡ quiet_at (read_at (M.levels medium.now) k) }
{
    medium.read(k) == Some(Level::Recessive)
}

// The first interval below a limit that is not open, if there is one.
fn first_closed<M: Medium>(medium: &M, limit: usize) -> Option<usize>
    ensures { result ≡ (if nat_lt (length (M.levels medium.now)) limit then Some (length (M.levels medium.now)) else None) }
{
    (0..limit).find(|k| medium.read(*k).is_none())
}

// How many intervals are open, found by reading. Who counts them while opening needs no such search.
pub fn count<M: Medium>(medium: &M) -> usize
    ensures { result ≡ length (M.levels medium.now) }
{
    let limit = medium.limit();
    match first_closed(medium, limit) {
        Some(k) => k,
        None => limit,
    }
}
