// The two refusals that every medium shares, for a medium that counts its intervals.
ghost use Rattle.std.specs.Prelude.{◌≡◌};
ghost use Rattle.medium.specs.Levels.{may_open, may_pull};

use crate::fault::MediumFault;

// Nodes are numbered from 0 to 255.
pub const NODES: usize = 256;

// Whether another interval may be opened after `count` of them.
pub fn check_open(count: usize, limit: usize) -> Result<(), MediumFault>
    ensures { result ≡ may_open limit count }
{
    if count < limit {
        Ok(())
    } else {
        Err(MediumFault::Full)
    }
}

// Whether a node may pull the last of `count` intervals. That there is one is asked first.
pub fn check_pull(count: usize, node: usize) -> Result<(), MediumFault>
    ensures { result ≡ may_pull count node }
{
    if count == 0 {
        return Err(MediumFault::Closed);
    }
    if node >= NODES {
        return Err(MediumFault::NoNode);
    }
    Ok(())
}
