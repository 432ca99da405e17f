// The level of an interval.
ghost use Rattle.std.specs.Prelude.{◌≡◌};
ghost use Rattle.medium.specs.Levels.{level_of};

// Recessive until some node pulls the interval, so that an interval opens at the default.
#[derive(Clone, Copy, Default, PartialEq, Eq, Debug)]
pub enum Level {
    #[default]
    Recessive,
    Dominant,
}

// The level of an interval that somebody pulled, or that nobody did.
impl From<bool> for Level {
    ghost from_gives = { λ pulled level. level ≡ level_of pulled };

    fn from(pulled: bool) -> Level {
        if pulled {
            Level::Dominant
        } else {
            Level::Recessive
        }
    }
}
