// The setting of a header, and where it says that records are.
ghost use Rattle.std.specs.Prelude.{◌≡◌, ◌≤◌, None, MatchResult};
ghost use Rattle.table.specs.Profiles.{profile_at};
ghost use Rattle.analysis.specs.Loading.{record_byte};
ghost use Rattle.analysis.specs.Settings.{SetFor};

use super::Setting;
use parts::slot::Slot;
use table::fault::LoadFault;
use table::header::Header;
use table::profile::Profile;

impl Setting {
    // The setting of a header whose counts were checked, if its profile is known.
    pub(crate) fn new(header: Header) -> Result<Setting, LoadFault>
        requires flows { header.flows ≤ 128 }
        requires spare { header.spare ≤ 4095 }
        ensures { MatchResult result (SetFor header) (λ _. profile_at header.profile ≡ None) }
    {
        let profile = Profile::try_from(header.profile)?;
        let Some(slot) = Slot::new(&header, &profile) else {
            unreachable()
        };
        Ok(Setting {
            header,
            profile,
            slot,
        })
    }

    // Where the record of a flow begins, by its number.
    pub(crate) fn record_byte(&self, number: usize) -> usize
        requires { number ≤ 128 }
        ensures { result ≡ record_byte self.now.header number }
    {
        self.header.flows_at as usize + 16 * number.saturating_sub(1)
    }
}
