// A table as it is drawn, and changed in several ways.
use crate::answer::{Answer, Row};
use crate::case::Case;
use crate::damage::{FIELD_VALUES, LENGTHS, damaged};
use crate::dice::Dice;
use crate::example::{example_file, has_known_figures};
use crate::layout::{put, put_pace, written};
use crate::plan::draw;
use crate::recipe::recipe_of;
use crate::second::file::File;
use crate::second::network::{Kind, Network};
use crate::second::records::Pace;
use crate::tally::Tally;
use anyhow::anyhow;

// Enough intervals for all flows.
const ENOUGH: u64 = 128;

// The sequence, and what was seen so far.
#[derive(Drop)]
pub struct Bench<'a> {
    pub rt: &'a HostRuntime,
    pub dice: Dice,
    pub tally: Tally,
}

// How far a flow's packets can be pushed back: its jitter for the flows below that do not see why.
fn jitter_of(file: File, row: &Row) -> Option<u64> {
    let slot = file.slot()?;
    let late = row.bound?.saturating_add(slot.board.pause);
    Some(late.saturating_sub(row.alone).saturating_sub(slot.whole))
}

// The separation of a higher flow at which, at a lower flow's bound, one more of its packets is about to count.
fn turn(file: File, lower: &Row, higher: &Row) -> Option<u64> {
    Some(lower.bound?.saturating_add(jitter_of(file, higher)?))
}

// A flow with a bound, looked for from a number on, with that bound.
fn bounded_flow(rows: &[Row], from: u64) -> Option<(u64, u64)> {
    rows.iter()
        .zip(1u64..)
        .skip(from as usize)
        .find_map(|(row, flow)| Some((flow, row.bound?)))
}

impl Bench<'_> {
    // A file with the fabric that another file, or itself, means, and enough intervals for all flows.
    fn load(&mut self, file: File, lender: File) -> anyhow::Result<Answer> {
        self.compare(&Case {
            file,
            network: Network::of(lender),
            limit: ENOUGH,
        })
    }

    // A changed file, with a fabric made from it, and with the fabric of the file as it was.
    fn changed(&mut self, changed: &[u8], file: File) -> anyhow::Result<()> {
        let changed = File { bytes: changed };
        let _ = self.load(changed, changed)?;
        let _ = self.load(changed, file)?;
        Ok(())
    }

    // The flow whose record starts at a byte gets one pace, and then another.
    fn at_paces(&mut self, file: File, record: u64, paces: [Pace; 2]) -> anyhow::Result<()> {
        let mut copy = Vec::from_slice(self.rt.alloc(), file.bytes)?;
        for pace in paces {
            put_pace(copy.as_mut_slice(), record, pace);
            let changed = File {
                bytes: copy.as_slice(),
            };
            let _ = self.load(changed, file)?;
        }
        Ok(())
    }

    // The deadline of one bounded flow is put at its bound, and then one cycle below.
    fn at_a_deadline(&mut self, file: File, rows: &[Row]) -> anyhow::Result<()> {
        let from = self.dice.below(file.flows());
        let Some((flow, bound)) = bounded_flow(rows, from) else {
            return Ok(());
        };
        let record = file.record(flow);
        let paces = [bound, bound.saturating_sub(1)].map(|deadline| Pace {
            deadline,
            ..record.flow.pace
        });
        self.at_paces(file, record.byte, paces)
    }

    // The separation of a higher flow is put where, at a lower flow's bound, one more of its packets is about to
    // count, and then one cycle below, where it counts.
    fn at_a_separation(&mut self, file: File, rows: &[Row]) -> anyhow::Result<()> {
        let low = self.dice.below(rows.len() as u64);
        let high = self.dice.below(low);
        let pair = rows.get(low as usize).zip(rows.get(high as usize));
        let Some(turn) = pair.and_then(|(lower, higher)| turn(file, lower, higher)) else {
            return Ok(());
        };
        let record = file.record(high.saturating_add(1));
        let paces = [turn, turn.saturating_sub(1)].map(|separation| Pace {
            separation,
            deadline: record.flow.pace.deadline.min(separation),
        });
        self.at_paces(file, record.byte, paces)
    }

    // The other fabric of the same file, the fabric of another file, one with a flow less, or a lower limit.
    fn otherwise(&mut self, file: File, other: File) -> anyhow::Result<Answer> {
        let limit = self.dice.below(file.flows().saturating_add(2));
        let case = Case {
            file,
            network: Network::of(file),
            limit: ENOUGH,
        };
        let of_kind = |kind| Case {
            network: Network { kind, file },
            ..case
        };
        match self.dice.below(5) {
            0 => self.compare(&of_kind(Kind::Mesh)),
            1 => self.compare(&of_kind(Kind::Listed)),
            2 => self.load(file, other),
            3 => {
                let mut fewer = Vec::from_slice(self.rt.alloc(), file.bytes)?;
                put(fewer.as_mut_slice(), 0, 2, file.flows().saturating_sub(1));
                let lender = File {
                    bytes: fewer.as_slice(),
                };
                self.load(file, lender)
            }
            _ => self.compare(&Case { limit, ..case }),
        }
    }

    // Every header field at and past the ends of its range, and many lengths.
    fn sweep(&mut self, file: File) -> anyhow::Result<()> {
        for (byte, width, value) in FIELD_VALUES {
            let mut copy = Vec::from_slice(self.rt.alloc(), file.bytes)?;
            put(copy.as_mut_slice(), byte, width, value);
            self.changed(copy.as_slice(), file)?;
        }
        for length in LENGTHS {
            let mut copy = Vec::from_slice(self.rt.alloc(), file.bytes)?;
            copy.resize(length, 0)?;
            self.changed(copy.as_slice(), file)?;
        }
        Ok(())
    }

    // The worked example: its known figures, and those with the third deadline one cycle short.
    pub fn example(&mut self) -> anyhow::Result<()> {
        for (deadline, bound, rounds) in [
            (400, Some(212), 3),
            (212, Some(212), 3),
            (211, None, 2),
        ] {
            let bytes = example_file(deadline);
            let file = File { bytes: &bytes };
            let answer = self.load(file, file)?;
            if !has_known_figures(&answer, bound, rounds) {
                return Err(anyhow!("the worked example has other figures"));
            }
        }
        Ok(())
    }

    // A loaded table with a deadline or a separation put where the figures turn.
    fn at_the_turns(&mut self, file: File, rows: &[Row]) -> anyhow::Result<()> {
        self.at_a_deadline(file, rows)?;
        for _pair in 0..3 {
            self.at_a_separation(file, rows)?;
        }
        Ok(())
    }

    fn damage(&mut self, number: u64, file: File) -> anyhow::Result<()> {
        let broken = damaged(self.rt.alloc(), &mut self.dice, file)?;
        self.changed(broken.as_slice(), file)?;
        if number % 500 == 7 {
            self.sweep(file)?;
        }
        Ok(())
    }

    fn draw(&mut self, number: u64) -> anyhow::Result<Vec<u8>> {
        let heap = self.rt.alloc();
        let recipe = recipe_of(&mut self.dice, number);
        let plan = draw(heap, &mut self.dice, recipe)?;
        Ok(written(heap, &mut self.dice, &plan)?)
    }

    // One table as drawn, and changed in several ways; the table before it lends its fabric once.
    pub fn table(&mut self, number: u64, other: &[u8]) -> anyhow::Result<Vec<u8>> {
        let bytes = self.draw(number)?;
        let file = File {
            bytes: bytes.as_slice(),
        };
        if let Ok(rows) = self.load(file, file)? {
            self.at_the_turns(file, rows.as_slice())?;
        }
        let _ = self.otherwise(file, File { bytes: other })?;
        self.damage(number, file)?;
        Ok(bytes)
    }
}
