// Which flows of higher priority share a link with a flow.
ghost use Rattle.std.specs.Prelude.{◌≡◌, length};

pub mod marks;

// By flow number less one. An array, which an assignment copies: a vector of fixed capacity is not `Copy`.
#[derive(Clone, Copy)]
pub struct Above {
    flags: [bool; 128],
    ghost long: { length flags ≡ 128 },
}
