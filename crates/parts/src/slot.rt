// The times of a slot.
ghost use Rattle.std.specs.Prelude.{◌≡◌, ◌≤◌};
ghost use Rattle.parts.specs.Slots.{slot_of};

use table::header::Header;
use table::profile::Profile;

#[derive(Clone, Copy)]
pub struct Slot {
    // one interval
    pub interval: u32,
    // all intervals, used and spare
    pub window: u32,
    // the pause after them
    pub pause: u32,
    // the whole slot
    pub length: u32,
}

impl Slot {
    // The slot of a table, unless it has more flows or spare intervals than a header may say.
    pub fn new(header: &Header, profile: &Profile) -> Option<Slot>
        ensures { result ≡ slot_of header.now profile.now }
    {
        if header.flows > 128 || header.spare > 4095 {
            return None;
        }
        let interval = u32::from(profile.interval);
        let pause = u32::from(profile.pause);
        let window = (u32::from(header.flows) + u32::from(header.spare)) * interval;
        Some(Slot {
            interval,
            window,
            pause,
            length: window + pause,
        })
    }
}
