// The mesh: its nodes stand in columns and rows, node a in column a % width and row a / width.
ghost use Rattle.std.specs.Prelude.{◌*◌, ◌≤◌};

mod grid;
mod makes;
mod path;
pub mod routes;

#[derive(Drop)]
pub struct Mesh {
    // how many columns, and how many rows
    width: usize,
    height: usize,
    ghost wide: { 1 ≤ width },
    ghost high: { 1 ≤ height },
    ghost few: { width * height ≤ 256 },
}
