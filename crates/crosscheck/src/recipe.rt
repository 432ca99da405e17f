// What kind of table is drawn.
use crate::dice::Dice;
use crate::second::records::Slot;
use crate::shape::Shape;

// How separations and deadlines are chosen.
#[derive(Clone, Copy)]
pub enum Times {
    // a separation of some slots, a deadline within it
    Slots { least: u64, most: u64 },
    // separations that just suffice for the flow alone, for the first flow and some others; this one for
    // the rest, whose bounds then take many rounds
    Slow { last: u64 },
    // separations and deadlines near the highest number of four bytes
    Far,
}

#[derive(Clone, Copy)]
pub struct Recipe {
    pub width: u64,
    pub height: u64,
    // none where the table means a mesh
    pub shape: Option<Shape>,
    pub profile: u64,
    pub spare: u64,
    pub flows: u64,
    // the first so many nodes are sources
    pub sources: u64,
    // the most bytes of a packet
    pub payload: u64,
    pub times: Times,
}

impl Recipe {
    pub fn nodes(&self) -> u64 {
        self.width.saturating_mul(self.height)
    }

    pub fn slot(&self) -> Option<Slot> {
        Slot::new(self.profile, self.flows.saturating_add(self.spare))
    }
}

fn few_slots(dice: &mut Dice) -> Times {
    let most = dice.pick(&[5, 10, 20, 60]);
    Times::Slots { least: 2, most }
}

// A few flows on a small mesh.
fn small(dice: &mut Dice) -> Recipe {
    let roomy = dice.between(20, 60);
    let tight = dice.below(20);
    Recipe {
        width: dice.between(1, 5),
        height: dice.between(1, 5),
        shape: None,
        profile: dice.between(1, 4),
        spare: dice.pick(&[0, tight, roomy, roomy, roomy]),
        flows: dice.between(1, 10),
        sources: 256,
        payload: dice.pick(&[16, 200, 2000]),
        times: few_slots(dice),
    }
}

// Long routes along a row or a column, to 64 links and over.
fn line(dice: &mut Dice) -> Recipe {
    let long = dice.between(2, 80);
    let row = dice.once_in(2);
    let roomy = dice.between(220, 300);
    let tight = dice.below(260);
    Recipe {
        width: if row { long } else { 1 },
        height: if row { 1 } else { long },
        spare: dice.pick(&[tight, roomy, roomy]),
        flows: dice.between(1, 6),
        ..small(dice)
    }
}

// A mesh of up to 256 nodes.
fn wide(dice: &mut Dice) -> Recipe {
    let height = dice.pick(&[1, 2, 4, 8, 16, 32, 64]);
    Recipe {
        width: 256 / height.max(1),
        height,
        spare: dice.between(60, 140),
        flows: dice.between(1, 20),
        ..small(dice)
    }
}

// Up to 128 flows, most of them bounded where the separations are long.
fn crowd(dice: &mut Dice) -> Recipe {
    let least = dice.pick(&[4, 50, 100]);
    Recipe {
        width: dice.between(3, 8),
        height: dice.between(3, 8),
        spare: dice.between(0, 20),
        flows: dice.pick(&[64, 100, 127, 128]),
        payload: dice.pick(&[60, 400]),
        times: Times::Slots {
            least,
            most: least.saturating_mul(3),
        },
        ..small(dice)
    }
}

// The same with listed links, as a ring, a tree or a grid.
// A throw is matched, here and elsewhere: a table of closures would be longer, and would hide what each face draws.
fn listed(dice: &mut Dice, base: Recipe) -> Recipe {
    let shape = match dice.below(3) {
        0 => Shape::Ring,
        1 => Shape::Tree {
            branches: dice.between(1, 4),
        },
        _ => Shape::Grid { width: base.width },
    };
    Recipe {
        shape: Some(shape),
        ..base
    }
}

// Two nodes and flows that all take the same route, with deadlines of up to a million.
fn slow(dice: &mut Dice) -> Recipe {
    Recipe {
        width: 2,
        height: 1,
        spare: dice.between(7, 12),
        flows: dice.between(2, 5),
        sources: 1,
        payload: dice.pick(&[1000, 4000, 8000]),
        times: Times::Slow {
            last: dice.between(100_000, 1_000_000),
        },
        ..small(dice)
    }
}

// Times near the highest number of four bytes.
fn far(dice: &mut Dice) -> Recipe {
    Recipe {
        spare: dice.between(20, 60),
        flows: dice.between(1, 4),
        payload: dice.pick(&[100, 65535]),
        times: Times::Far,
        ..small(dice)
    }
}

// As many empty intervals as there may be.
fn empty_intervals(dice: &mut Dice) -> Recipe {
    Recipe {
        spare: dice.between(4090, 4095),
        flows: dice.between(1, 3),
        payload: 65535,
        times: Times::Slots { least: 2, most: 6 },
        ..line(dice)
    }
}

// The recipe of the table with a number: rare kinds at fixed places, between them the common ones.
pub fn recipe_of(dice: &mut Dice, number: u64) -> Recipe {
    if number % 200 == 1 {
        return slow(dice);
    }
    if number % 50 == 2 {
        return far(dice);
    }
    let base = if number % 250 == 0 {
        crowd(dice)
    } else if number % 100 == 3 {
        empty_intervals(dice)
    } else if dice.once_in(12) {
        wide(dice)
    } else if dice.once_in(4) {
        line(dice)
    } else {
        small(dice)
    };
    if dice.once_in(2) {
        base
    } else {
        listed(dice, base)
    }
}
