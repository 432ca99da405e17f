// Flow records, and what the profile fixes.
use crate::answer::Refusal;
use crate::numbered::Reason;
use crate::second::file::File;
use crate::second::network::Trip;
use crate::second::sections::Section;

// How often packets are sent, and by when they have to be there.
#[derive(Clone, Copy)]
pub struct Pace {
    pub separation: u64,
    pub deadline: u64,
}

// What a table says of a flow.
#[derive(Clone, Copy)]
pub struct Flow {
    pub source: u64,
    pub destination: u64,
    pub payload: u64,
    pub pace: Pace,
}

// A flow with its number, from 1, and the byte where its record starts.
#[derive(Clone, Copy)]
pub struct Record {
    pub number: u64,
    pub byte: u64,
    pub flow: Flow,
}

impl Record {
    // The way of its packets.
    pub fn trip(&self) -> Trip {
        Trip {
            flow: self.number,
            source: self.flow.source,
            destination: self.flow.destination,
        }
    }

    // A refusal that is about it.
    pub fn refused(&self, reason: Reason) -> Refusal {
        Refusal::new(reason, self.number, self.byte)
    }
}

// The cycles of an interval, of routing, of a flit over a link and of the pause; the bytes of a flit.
#[derive(Clone, Copy)]
pub struct Board {
    pub profile: u64,
    pub interval: u64,
    pub routing: u64,
    pub transfer: u64,
    pub pause: u64,
    pub flit: u64,
}

// The boards of all profiles.
pub const BOARDS: [Board; 4] = [
    Board {
        profile: 1,
        interval: 1,
        routing: 3,
        transfer: 1,
        pause: 0,
        flit: 4,
    },
    Board {
        profile: 2,
        interval: 1,
        routing: 3,
        transfer: 1,
        pause: 6,
        flit: 4,
    },
    Board {
        profile: 3,
        interval: 4,
        routing: 3,
        transfer: 2,
        pause: 8,
        flit: 8,
    },
    Board {
        profile: 4,
        interval: 2,
        routing: 1,
        transfer: 1,
        pause: 0,
        flit: 16,
    },
];

// A slot: the cycles of all its intervals, and with the pause.
#[derive(Clone, Copy)]
pub struct Slot {
    pub board: Board,
    pub open: u64,
    pub whole: u64,
}

impl Slot {
    // The slot of a profile with so many intervals; none where nobody knows the profile.
    pub fn new(profile: u64, intervals: u64) -> Option<Slot> {
        let board = BOARDS.into_iter().find(|board| board.profile == profile)?;
        let open = intervals.saturating_mul(board.interval);
        Some(Slot {
            board,
            open,
            whole: open.saturating_add(board.pause),
        })
    }
}

impl File<'_> {
    // The record of a flow.
    pub fn record(self, number: u64) -> Record {
        let byte = Section::Flows.place(self, number.saturating_sub(1));
        let flow = Flow {
            source: self.number(byte, 2),
            destination: self.number(byte.saturating_add(2), 2),
            payload: self.number(byte.saturating_add(4), 4),
            pace: Pace {
                separation: self.number(byte.saturating_add(8), 4),
                deadline: self.number(byte.saturating_add(12), 4),
            },
        };
        Record { number, byte, flow }
    }

    // The slot of the table; none where its profile is unknown.
    pub fn slot(self) -> Option<Slot> {
        Slot::new(self.profile(), self.flows().saturating_add(self.spare()))
    }
}
