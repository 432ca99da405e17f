// A fixed pseudo-random sequence.

#[derive(Clone, Copy)]
pub struct Dice {
    state: u64,
}

impl Dice {
    // The sequence that begins with a seed, which is not 0.
    pub fn new(seed: u64) -> Dice {
        Dice { state: seed }
    }

    fn roll(&mut self) -> u64 {
        let mut x = self.state;
        x ^= x << 13;
        x ^= x >> 7;
        x ^= x << 17;
        self.state = x;
        x.wrapping_mul(0x2545_F491_4F6C_DD1D) >> 16
    }

    // A number below a limit; 0 where there is none. A `match` of it draws one of some ways, whose arms say how often each comes; a list of
    // closures would be no plainer.
    pub fn below(&mut self, limit: u64) -> u64 {
        if limit == 0 {
            return 0;
        }
        self.roll() % limit
    }

    // A number from the lower to the higher one, both included.
    pub fn between(&mut self, low: u64, high: u64) -> u64 {
        let width = high.saturating_sub(low).saturating_add(1);
        low.saturating_add(self.below(width))
    }

    // True once in so many times.
    pub fn once_in(&mut self, times: u64) -> bool {
        self.below(times) == 0
    }

    // One of some values; the default where there is none.
    pub fn pick<T: Copy + Default>(&mut self, from: &[T]) -> T {
        let place = self.below(from.len() as u64) as usize;
        from.get(place).copied().unwrap_or_default()
    }

    // Swaps each value with one that is drawn; by index, since a swap takes two of the same slice.
    pub fn shuffle<T>(&mut self, items: &mut [T]) {
        for place in 0..items.len() {
            let other = self.below(items.len() as u64) as usize;
            if other < items.len() {
                items.swap(place, other);
            }
        }
    }
}
