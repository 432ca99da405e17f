// A route that was taken from a fabric and is kept: its links in their order.
ghost use Rattle.std.specs.Prelude.{◌≡◌, ◌≤◌, length};

pub mod taken;

// An array and a count, which an assignment copies: a vector of fixed capacity is not `Copy`.
#[derive(Clone, Copy)]
pub struct Path {
    links: [usize; 64],
    len: usize,
    ghost long: { length links ≡ 64 },
    ghost few: { len ≤ 64 },
}
