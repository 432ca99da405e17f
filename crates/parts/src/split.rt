// How a packet is split into parts.
ghost use Rattle.std.specs.Prelude.{◌≡◌, ◌-◌, ◌*◌, ◌^◌, ◌<◌, ◌≤◌, true, false, IfSome, MatchOption};
ghost use Rattle.parts.specs.Split.{capacity, carries, parts_of, last_flits, tail_of, split_of};

use table::profile::Profile;

// A packet in parts: how many, and the cycles that the last one travels after its slot.
#[derive(Clone, Copy)]
pub struct Split {
    pub parts: u32,
    pub tail: u64,
}

// The flits that one part carries over a route of so many links; under 1 where the route is too long.
#[tactic(auto, unfolding(crate::specs::Split::capacity))]
fn capacity(profile: &Profile, window: u32, hops: usize) -> u64
    requires links { hops ≤ 64 }
    requires transfer { 1 ≤ profile.now.transfer }
    ensures value { result ≡ capacity profile.now window hops }
    ensures short { result ≤ window }
{
    let hops = hops as u64;
    let routing = hops.saturating_sub(1) * u64::from(profile.routing);
    let free = u64::from(window).saturating_sub(routing);
    (free / u64::from(profile.transfer))
        .saturating_sub(hops)
        .saturating_sub(1)
}

// The full parts that a slot carries over a route of so many links: so many flits in each.
#[derive(Clone, Copy)]
struct FullParts {
    profile: Profile,
    hops: u64,
    flits: u64,
    ghost moves: { 1 ≤ profile.flit },
    ghost few: { hops ≤ 64 },
    ghost some: { 1 ≤ flits },
    ghost short: { flits < 2 ^ 32 },
}

impl FullParts {
    // None where not even one flit fits, or where the profile or the route is none that a table can have.
    fn over(profile: &Profile, window: u32, hops: usize) -> Option<FullParts>
        ensures { MatchOption result (carries profile.now window hops ≡ false) (λ full. (carries profile.now window hops ≡ true)
            × (full.profile ≡ profile.now) × (full.hops ≡ hops) × (full.flits ≡ capacity profile.now window hops)) }
    {
        if profile.transfer == 0 || profile.flit == 0 || hops > 64 {
            return None;
        }
        let flits = capacity(profile, window, hops);
        if flits < 1 {
            return None;
        }
        Some(FullParts {
            profile: *profile,
            hops: hops as u64,
            flits,
        })
    }

    // The bytes of a full part.
    fn bytes(&self) -> u64
        ensures value { result ≡ self.now.flits * self.now.profile.flit }
        ensures some { 1 ≤ result }
        ensures short { result < 2 ^ 48 }
    {
        self.flits * u64::from(self.profile.flit)
    }

    // How many parts a payload takes.
    #[tactic(auto, using(timing::proofs::Ceil::full_below), unfolding(crate::specs::Split::parts_of, timing::specs::Counts::ceil_div))]
    fn count(&self, payload: u32) -> u32
        ensures value { result ≡ parts_of self.now.profile self.now.flits payload }
        ensures full { (result - 1) * (self.now.flits * self.now.profile.flit) ≤ payload }
    {
        u64::from(payload).div_ceil(self.bytes()) as u32
    }

    // The flits of the last part.
    #[tactic(auto, unfolding(crate::specs::Split::last_flits, timing::specs::Counts::ceil_div))]
    fn last_flits(&self, payload: u32) -> u64
        ensures value { result ≡ last_flits self.now.profile self.now.flits payload }
        ensures short { result ≤ payload }
    {
        let before = u64::from(self.count(payload)).saturating_sub(1) * self.bytes();
        u64::from(payload)
            .saturating_sub(before)
            .div_ceil(u64::from(self.profile.flit))
    }

    // The cycles of the last part after its slot.
    #[tactic(auto, unfolding(crate::specs::Split::tail_of))]
    fn tail(&self, payload: u32) -> u64
        ensures value { result ≡ tail_of self.now.profile self.now.hops (last_flits self.now.profile self.now.flits payload) }
        ensures near { result < 2 ^ 60 }
    {
        let flits = self.last_flits(payload);
        let transfer = u64::from(self.profile.transfer);
        let routing = self.hops.saturating_sub(1) * u64::from(self.profile.routing);
        routing + self.hops * transfer + (flits + 1) * transfer
    }
}

// The split of a payload over a route of so many links; none where not even one flit fits into a part,
// or where the profile or the route is none that a table can have.
pub fn split_packet(profile: &Profile, window: u32, hops: usize, payload: u32) -> Option<Split>
    ensures value { result ≡ split_of profile.now window hops payload }
    ensures near { IfSome result (λ s. s.tail < 2 ^ 60) }
{
    let full = FullParts::over(profile, window, hops)?;
    Some(Split {
        parts: full.count(payload),
        tail: full.tail(payload),
    })
}
