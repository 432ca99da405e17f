// Items that have an order.
ghost use Rattle.std.specs.Prelude.{◌≡◌, Bool, true, false};

// Items in an order in which different ones may be level.
pub trait Ranked: Copy {
    // The first item comes strictly before the second.
    ghost before: { Self → Self → Bool };

    fn comes_before(&self, other: &Self) -> bool
        ensures { result ≡ before self.now other.now };

    // No item comes before itself.
    ghost never: { (x : Self) → before x x ≡ false };

    ghost follows: { (x y z : Self) → before x y ≡ true → before y z ≡ true → before x z ≡ true };

    // Not coming before passes on too.
    ghost splits: { (x y z : Self) → before x y ≡ false → before y z ≡ false → before x z ≡ false };
}
