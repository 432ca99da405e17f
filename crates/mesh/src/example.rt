// A route worked out: along a row of four nodes.
ghost use Rattle.std.specs.Prelude.{◌≡◌, Ok};
ghost use Rattle.mesh.specs.Paths.{mesh_route};

// The route from node 0 to node 3 of the mesh with four columns and one row.
pub fn row_of_four() -> [usize; 5]
    ensures { mesh_route 4 1 0 3 ≡ Ok result }
{
    [0, 8, 12, 16, 7]
}
