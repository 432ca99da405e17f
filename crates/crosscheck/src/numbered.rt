// Refusals and causes, each by the number in which it is told.
use std::error::Error;
use std::fmt;

// What is wrong with a route.
#[derive(Clone, Copy, PartialEq, Eq, PartialOrd, Ord, Debug)]
pub enum Cause {
    // no route of 2 to 64 links is there
    Length = 1,
    // the route's numbers leave the number list
    List = 2,
    // a number that names no link
    UnknownLink = 3,
    // the first link does not begin at the source's core
    Start = 4,
    // a link does not begin where the one before it ends
    Gap = 5,
    // a link that the route has used already
    Repeated = 6,
    // the last link does not end at the destination's core
    End = 7,
    // a node that the fabric does not have
    UnknownNode = 8,
}

// Why a table is refused.
#[derive(Clone, Copy, PartialEq, Eq, PartialOrd, Ord)]
pub enum Reason {
    // too few or too many bytes
    Size = 1,
    // a header field outside its range
    Field = 2,
    // a profile that nobody knows
    Profile = 3,
    // a section that ends past the file
    Section = 4,
    // a flow record out of range
    Record = 5,
    // a separation shorter than a slot
    Separation = 6,
    // a flow without a route
    Route = 7,
    // a route on which one part could not carry a flit
    Capacity = 8,
    // more flows than intervals, or a fabric of another size
    Misfit = 9,
}

impl Cause {
    pub const ALL: [Cause; 8] = [
        Cause::Length,
        Cause::List,
        Cause::UnknownLink,
        Cause::Start,
        Cause::Gap,
        Cause::Repeated,
        Cause::End,
        Cause::UnknownNode,
    ];
}

impl Reason {
    pub const ALL: [Reason; 9] = [
        Reason::Size,
        Reason::Field,
        Reason::Profile,
        Reason::Section,
        Reason::Record,
        Reason::Separation,
        Reason::Route,
        Reason::Capacity,
        Reason::Misfit,
    ];
}

// Each of these stands twice, for causes and for reasons: an impl by a macro of our own is refused.
impl From<Cause> for u8 {
    fn from(cause: Cause) -> u8 {
        cause as u8
    }
}

impl From<Reason> for u8 {
    fn from(reason: Reason) -> u8 {
        reason as u8
    }
}

// A number that names no cause or no reason.
#[derive(Clone, Copy, Debug)]
pub struct UnknownNumber(u8);

impl fmt::Display for UnknownNumber {
    fn fmt<W: fmt::Write>(&self, f: &mut fmt::Formatter<W>) -> fmt::Result {
        let number = self.0;
        write!(f, "nothing has the number {number}")
    }
}

impl Error for UnknownNumber {}

// The case that has a number.
fn numbered<K: Copy + Into<u8>>(cases: &[K], number: u8) -> Result<K, UnknownNumber> {
    let case = cases.iter().copied().find(|case| {
        let told: u8 = (*case).into();
        told == number
    });
    case.ok_or(UnknownNumber(number))
}

impl TryFrom<u8> for Cause {
    type Error = UnknownNumber;

    fn try_from(number: u8) -> Result<Cause, UnknownNumber> {
        numbered(&Cause::ALL, number)
    }
}

impl TryFrom<u8> for Reason {
    type Error = UnknownNumber;

    fn try_from(number: u8) -> Result<Reason, UnknownNumber> {
        numbered(&Reason::ALL, number)
    }
}

impl fmt::Display for Cause {
    fn fmt<W: fmt::Write>(&self, f: &mut fmt::Formatter<W>) -> fmt::Result {
        u8::from(*self).fmt(f)
    }
}

impl fmt::Display for Reason {
    fn fmt<W: fmt::Write>(&self, f: &mut fmt::Formatter<W>) -> fmt::Result {
        u8::from(*self).fmt(f)
    }
}
