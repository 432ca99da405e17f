// How a packet is cut into parts.
use crate::second::records::Slot;
use std::iter::successors;

// How many pieces of at most so much a total is cut into, and what the last one has.
fn pieces(total: u64, size: u64) -> (u64, u64) {
    let left = successors(Some(total), |left| {
        left.checked_sub(size).filter(|rest| *rest > 0)
    });
    (1..=total).zip(left).last().unwrap_or((0, 0))
}

// Parts, and the latency alone.
#[derive(Clone, Copy)]
pub struct Cut {
    pub parts: u64,
    pub alone: u64,
}

impl Slot {
    // The cycles in which a part of so many flits goes through, header and all.
    fn passage(&self, hops: u64, flits: u64) -> u64 {
        let routed = hops.saturating_sub(1).saturating_mul(self.board.routing);
        let moved = hops
            .saturating_add(flits)
            .saturating_add(1)
            .saturating_mul(self.board.transfer);
        routed.saturating_add(moved)
    }

    // The most flits that one part can carry: the last number, counting up, that goes through within the intervals.
    fn most_flits(&self, hops: u64) -> u64 {
        (1..=self.open)
            .take_while(|flits| self.passage(hops, *flits) <= self.open)
            .last()
            .unwrap_or(0)
    }

    // How a payload is cut up; none where one part could not carry a flit.
    pub fn cut_up(&self, hops: u64, payload: u64) -> Option<Cut> {
        let most = self.most_flits(hops);
        if most == 0 {
            return None;
        }
        let (parts, rest) = pieces(payload, most.saturating_mul(self.board.flit));
        let (flits, _) = pieces(rest, self.board.flit);
        let before = parts.saturating_sub(1).saturating_mul(self.whole);
        Some(Cut {
            parts,
            alone: before.saturating_add(self.passage(hops, flits)),
        })
    }
}
