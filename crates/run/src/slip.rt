// The right to one injection: made by an arbitration, spent by an injection or by abandoning the run. It is no `Drop`, so that it
// cannot be forgotten, and it moves, so that it cannot be spent twice.
ghost use Rattle.std.specs.Prelude.{◌≡◌};

use calls::slip_name::SlipName;

pub struct Slip {
    pub(crate) name: SlipName,
}

impl Slip {
    // The run and the slot that it names.
    pub fn name(&self) -> SlipName
        ensures { result ≡ self.now.name }
    {
        self.name
    }

    // The slip is gone, and what it named is left.
    pub(crate) fn into_name(self) -> SlipName
        ensures { result ≡ self.name }
    {
        let Slip { name } = self;
        name
    }
}
