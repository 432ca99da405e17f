// Why a fabric has no route for a flow.
ghost use Rattle.std.specs.Prelude.{◌≡◌};
ghost use Rattle.fabric.specs.Causes.{cause_number};

// What is wrong with a route.
#[derive(Clone, Copy, PartialEq, Eq)]
pub enum Cause {
    // no route of 2 to 64 links is there
    Length = 1,
    // the route's numbers leave the number list
    List = 2,
    // a number that is not below the link count
    UnknownLink = 3,
    // the first link does not begin at the source's core
    Start = 4,
    // a link does not begin where the one before it ends
    Gap = 5,
    // a link that the route has used already
    Repeated = 6,
    // the last link does not end at the destination's core
    End = 7,
    // a node that the fabric does not have
    UnknownNode = 8,
}

impl Cause {
    // The number by which reports name the cause.
    pub fn number(self) -> u8
        ensures { result ≡ cause_number self }
    {
        self as u8
    }
}

// Why there is no route: the hop, from 1 (0 where it is about no hop, as the line that reports it says), and the cause.
#[derive(Clone, Copy, PartialEq, Eq)]
pub struct RouteFault {
    pub hop: usize,
    pub cause: Cause,
}

// A cause that is about no hop.
impl From<Cause> for RouteFault {
    ghost from_gives = { λ cause fault. fault ≡ record { hop = 0; cause = cause } };

    fn from(cause: Cause) -> RouteFault {
        RouteFault { hop: 0, cause }
    }
}
