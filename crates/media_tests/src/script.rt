// A fixed pseudo-random list of calls, in which every refusal and every edge comes up.
ghost use Rattle.std.specs.Prelude.{◌<◌};

use interval::whole::Puller;

#[derive(Clone, Copy)]
pub enum Call {
    Clear,
    Open,
    Pull(Puller),
    Read(usize),
    Interval([Puller; 3]),
}

#[derive(Drop)]
pub struct Script {
    state: u64,
}

impl Script {
    pub fn new() -> Script {
        Script {
            state: 0x9e37_79b9_7f4a_7c15,
        }
    }

    // The next number of a xorshift sequence, below n. A `match` of it draws one of some ways; a list of closures would be no plainer.
    // The sequence is its own, since the stored output shows what it draws.
    fn below(&mut self, n: u64) -> u64
        requires { 0 < n }
        ensures { result < n }
    {
        let mut x = self.state;
        x ^= x << 13;
        x ^= x >> 7;
        x ^= x << 17;
        self.state = x;
        (x >> 11) % n
    }

    // A node: the first, the last, the first that there is not, the largest number, or any.
    fn node(&mut self) -> usize {
        match self.below(8) {
            0 => 0,
            1 => 255,
            2 => 256,
            3 => usize::MAX,
            _ => self.below(300) as usize,
        }
    }

    fn puller(&mut self) -> Puller {
        let node = self.node();
        let pulls = self.below(3) > 0;
        Puller { node, pulls }
    }

    // An interval of `count`: the first, the last, the one past it, the largest number, or any.
    fn place(&mut self, count: usize) -> usize {
        match self.below(6) {
            0 => 0,
            1 => count.saturating_sub(1),
            2 => count,
            3 => usize::MAX,
            _ => self.below(140) as usize,
        }
    }

    // The next call, for a medium with `count` intervals.
    pub fn call(&mut self, count: usize) -> Call {
        match self.below(1000) {
            0..=4 => Call::Clear,
            5..=499 => Call::Open,
            500..=799 => Call::Pull(self.puller()),
            800..=899 => Call::Read(self.place(count)),
            _ => Call::Interval([self.puller(), self.puller(), self.puller()]),
        }
    }
}
