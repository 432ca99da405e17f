// What the flows of a table are loaded over.
ghost use Rattle.std.specs.Prelude.{◌^◌, ◌<◌, ◌≤◌};

use parts::slot::Slot;
use table::header::Header;
use table::profile::Profile;

pub(crate) mod opened;

// The header of a table, the profile of its board, and its slot.
#[derive(Clone, Copy)]
pub(crate) struct Setting {
    pub(crate) header: Header,
    pub(crate) profile: Profile,
    pub(crate) slot: Slot,
    // the pause is a part of the slot, which has less than 2^30 cycles
    ghost pause: { slot.pause ≤ slot.length },
    ghost short: { slot.length < 2 ^ 30 },
    // flits of some bytes move over a link in some time
    ghost transfer: { 1 ≤ profile.transfer },
    ghost flit: { 1 ≤ profile.flit },
}
