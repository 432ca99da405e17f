// A table before it is written out, and how it is drawn.
use crate::dice::Dice;
use crate::recipe::{Recipe, Times};
use crate::second::link::Link;
use crate::second::records::{Flow, Pace, Slot};
use crate::shape::Net;
use std::alloc::{AllocError, Global};

// A listed route, and where its numbers stand in the number list.
#[derive(Drop)]
pub struct Placed {
    pub position: u64,
    pub numbers: Vec<u64>,
}

#[derive(Drop)]
pub struct Plan {
    pub recipe: Recipe,
    pub flows: Vec<Flow>,
    // both empty where the table means a mesh
    pub links: Vec<Link>,
    pub routes: Vec<Placed>,
    // the length of the number list
    pub numbers: u64,
}

// What flows are drawn by.
#[derive(Clone, Copy)]
struct Draft {
    recipe: Recipe,
    slot: Slot,
}

impl Draft {
    // A separation of so many slots and some cycles, and a deadline within it.
    fn pace_in_slots(&self, dice: &mut Dice, slots: u64) -> Pace {
        let whole = slots.saturating_mul(self.slot.whole);
        let separation = whole.saturating_add(dice.below(self.slot.whole));
        let deadline = match dice.below(6) {
            0 => dice.between(1, separation),
            1 | 2 => dice.between(separation / 2, separation),
            _ => separation,
        };
        Pace {
            separation,
            deadline,
        }
    }

    // A separation that just suffices for a payload alone, over three links.
    fn tight_separation(&self, dice: &mut Dice, payload: u64) -> u64 {
        let parts = self.slot.cut_up(3, payload).map_or(1, |cut| cut.parts);
        let slots = parts.saturating_add(2);
        slots
            .saturating_mul(self.slot.whole)
            .saturating_add(dice.below(9))
    }

    // Separation and deadline of a flow.
    fn pace(&self, dice: &mut Dice, first: bool, payload: u64) -> Pace {
        match self.recipe.times {
            Times::Slots { least, most } => {
                let slots = dice.between(least, most);
                self.pace_in_slots(dice, slots)
            }
            Times::Slow { last } => {
                let tight = self.tight_separation(dice, payload);
                let separation = if first {
                    tight
                } else {
                    dice.pick(&[tight, last, last])
                };
                Pace {
                    separation,
                    deadline: separation,
                }
            }
            Times::Far => {
                let separation = dice.between(0x8000_0000, 0xFFFF_FFFF);
                let deadline = dice.pick(&[separation, 0x8000_0000, 0x7FFF_FFFF]);
                Pace {
                    separation,
                    deadline,
                }
            }
        }
    }

    fn flow(&self, dice: &mut Dice, first: bool) -> Flow {
        let nodes = self.recipe.nodes();
        let source = dice.below(nodes.min(self.recipe.sources));
        let away = dice.below(nodes.saturating_sub(1)).saturating_add(1);
        let destination = source.saturating_add(away).checked_rem(nodes).unwrap_or(0);
        let payload = dice.between(1, self.recipe.payload);
        Flow {
            source,
            destination,
            payload,
            pace: self.pace(dice, first, payload),
        }
    }

    // A flow with one field at or past the end of its range.
    fn at_an_edge(&self, dice: &mut Dice, flow: Flow) -> Flow {
        let mut edge = flow;
        let nodes = self.recipe.nodes();
        let slot = self.slot.whole;
        match dice.below(8) {
            0 => edge.source = nodes,
            1 => edge.destination = dice.pick(&[nodes, flow.source]),
            2 => edge.payload = dice.pick(&[0, 65535, 65536]),
            3 => edge.pace.deadline = 0,
            4 => edge.pace.deadline = flow.pace.separation.saturating_add(1),
            5 => {
                edge.pace = Pace {
                    separation: slot,
                    deadline: slot,
                }
            }
            6 => {
                edge.pace = Pace {
                    separation: slot.saturating_sub(1),
                    deadline: 1,
                }
            }
            _ => {
                edge.pace = Pace {
                    separation: 0,
                    deadline: 0,
                }
            }
        }
        edge
    }

    // In one table of twelve, a flow at an edge.
    fn flows(&self, heap: Global, dice: &mut Dice) -> Result<Vec<Flow>, AllocError> {
        let mut flows = Vec::new(heap);
        let edge = dice.below(self.recipe.flows.saturating_mul(12));
        for place in 0..self.recipe.flows {
            let flow = self.flow(dice, place == 0);
            flows.push(if place == edge {
                self.at_an_edge(dice, flow)
            } else {
                flow
            })?;
        }
        Ok(flows)
    }
}

// The listed routes of all flows; in one table of ten, one that repeats a link.
fn draw_routes(
    heap: Global,
    dice: &mut Dice,
    net: &Net,
    flows: &[Flow],
) -> Result<Vec<Vec<u64>>, AllocError> {
    let mut routes = Vec::new(heap);
    let detour = dice.below((flows.len() as u64).saturating_mul(10)) as usize;
    for (place, flow) in flows.iter().enumerate() {
        let mut route = net.way(heap, flow.source, flow.destination)?;
        if place == detour {
            let hop = dice.below(route.len() as u64);
            net.detour(&mut route, hop as usize)?;
        }
        routes.push(route)?;
    }
    Ok(routes)
}

// Routes in the number list, with gaps, and the length of the list.
fn place_routes(
    heap: Global,
    dice: &mut Dice,
    routes: Vec<Vec<u64>>,
) -> Result<(Vec<Placed>, u64), AllocError> {
    let mut placed = Vec::new(heap);
    let mut end = 0u64;
    for numbers in routes {
        let position = end.saturating_add(dice.below(2));
        end = position.saturating_add(numbers.len() as u64);
        placed.push(Placed { position, numbers })?;
    }
    Ok((placed, end.saturating_add(dice.below(3))))
}

// A table after a recipe.
pub fn draw(heap: Global, dice: &mut Dice, recipe: Recipe) -> Result<Plan, AllocError> {
    let flows = match recipe.slot() {
        Some(slot) => Draft { recipe, slot }.flows(heap, dice)?,
        None => Vec::new(heap),
    };
    let mut links = Vec::new(heap);
    let mut routes = Vec::new(heap);
    if let Some(shape) = recipe.shape {
        let net = Net::draw(heap, dice, shape, recipe.nodes())?;
        routes = draw_routes(heap, dice, &net, flows.as_slice())?;
        links = net.links;
    }
    let (routes, numbers) = place_routes(heap, dice, routes)?;
    Ok(Plan {
        recipe,
        flows,
        links,
        routes,
        numbers,
    })
}
