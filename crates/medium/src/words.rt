// The words of a node bank.
ghost use Rattle.std.specs.Prelude.{◌≡◌, length};

mod pulls;

// A rule of the project: one flat array in a plain struct, cleared whole.
// The pulls of 256 nodes, two words for each: bit k mod 64 of word 2 a + k / 64 is set where node a pulled interval k.
#[derive(Drop)]
pub(crate) struct Words {
    bits: [u64; 512],
    ghost long: { length bits ≡ 512 },
}
