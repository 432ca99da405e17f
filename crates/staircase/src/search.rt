// The least solution of f(x) = x, for any staircase f that never falls as its argument grows.
ghost use Rattle.std.specs.Prelude.{◌≡◌, ℕ, ◌≤◌};
ghost use Rattle.staircase.specs.Climbs.{within, climbed, Settles};

// A function of whole numbers that never falls.
pub trait Staircase {
    ghost value: { Self → ℕ → ℕ };

    // No value lies below the floor.
    ghost floor: { Self → ℕ };

    fn ground(&self) -> u32
        ensures { result ≡ floor self.now };

    // The value at x, or none where it passes `most`.
    fn value_within(&self, x: u32, most: u32) -> Option<u32>
        ensures { result ≡ within most (value self.now x) };

    ghost rises: { (s : Self) (x y : ℕ) → x ≤ y → value s x ≤ value s y };

    ghost grounded: { (s : Self) (x : ℕ) → floor s ≤ value s x };
}

// What a search found, and how many evaluations it took.
#[derive(Clone, Copy)]
pub struct Climb {
    pub least: Option<u32>,
    pub rounds: u64,
}

// The least solution up to `most`: evaluates at the ground, and then at each result, until a result
// equals its argument or passes `most`.
pub fn least_solution<S: Staircase>(stairs: &S, most: u32) -> Climb
    ensures answer { result ≡ climbed (S.value stairs.now) (S.floor stairs.now) most }
    ensures least { Settles (S.value stairs.now) most result.least }
{
    let mut x = stairs.ground();
    let mut rounds = 0;
    if x > most {
        return Climb {
            least: None,
            rounds,
        };
    }
    // A loop, since each value decides whether there is a next round, and the rounds are a part of the answer: a chain would be no plainer.
    loop {
        rounds += 1;
        let Some(y) = stairs.value_within(x, most) else {
            return Climb {
                least: None,
                rounds,
            };
        };
        if y == x {
            return Climb {
                least: Some(x),
                rounds,
            };
        }
        x = y;
    }
}
