// The delays of a board, in cycles, and the bytes in a flit.
ghost use Rattle.std.specs.Prelude.{◌≡◌};
ghost use Rattle.table.specs.Profiles.{profile_told};

use crate::fault::LoadFault;

#[derive(Clone, Copy)]
pub struct Profile {
    // one arbitration interval
    pub interval: u16,
    // the routing of a header in a router
    pub routing: u16,
    // one flit over one link
    pub transfer: u16,
    // the pause after a slot's intervals
    pub pause: u16,
    // bytes in a flit
    pub flit: u16,
}

// The profile of a number, if it is one of the four that are built in.
impl TryFrom<u16> for Profile {
    type Error = LoadFault;

    ghost try_from_gives = { λ number told. told ≡ profile_told number };

    fn try_from(number: u16) -> Result<Profile, LoadFault> {
        match number {
            1 => Ok(Profile {
                interval: 1,
                routing: 3,
                transfer: 1,
                pause: 0,
                flit: 4,
            }),
            2 => Ok(Profile {
                interval: 1,
                routing: 3,
                transfer: 1,
                pause: 6,
                flit: 4,
            }),
            3 => Ok(Profile {
                interval: 4,
                routing: 3,
                transfer: 2,
                pause: 8,
                flit: 8,
            }),
            4 => Ok(Profile {
                interval: 2,
                routing: 1,
                transfer: 1,
                pause: 0,
                flit: 16,
            }),
            _ => Err(LoadFault::Profile),
        }
    }
}
