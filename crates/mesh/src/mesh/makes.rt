// The ways to make a mesh.
ghost use Rattle.mesh.specs.Makes.{NewMesh, FileMesh};
ghost use Rattle.table.specs.Checks.{checked_file};

use super::Mesh;
use table::checks::check_file;
use table::fault::LoadFault;

const MOST_NODES: usize = 256;

impl Mesh {
    // A mesh of so many columns and rows; none where it would not have 1 to 256 nodes.
    pub fn new(width: usize, height: usize) -> Option<Mesh>
        ensures { NewMesh width height result }
    {
        let nodes = width.checked_mul(height)?;
        // `then` is no plainer: its closure has to say again, as `requires`, that the nodes fit
        if (1..=MOST_NODES).contains(&nodes) {
            Some(Mesh { width, height })
        } else {
            None
        }
    }

    // The mesh of a file that passes its checks, also where it lists links.
    pub fn from_file(bytes: &[u8]) -> Result<Mesh, LoadFault>
        ensures { FileMesh (checked_file bytes.now) result }
    {
        let header = check_file(bytes)?;
        Ok(Mesh {
            width: usize::from(header.width),
            height: usize::from(header.height),
        })
    }
}
