// A table written out as bytes.
use crate::dice::Dice;
use crate::plan::{Placed, Plan};
use crate::second::link::Link;
use crate::second::records::{Flow, Pace};
use crate::second::sections::Section;
use std::alloc::{AllocError, Global};

// Writes a number into so many bytes, little-endian; what would lie past the end is left out.
pub fn put(file: &mut [u8], at: u64, width: u64, value: u64) {
    if let Some(rest) = file.get_mut(at as usize..) {
        let bytes = value.to_le_bytes();
        for (place, byte) in rest.iter_mut().zip(bytes.iter()).take(width as usize) {
            *place = *byte;
        }
    }
}

// Writes numbers one after another.
#[derive(Drop)]
struct Pen<'a> {
    file: &'a mut [u8],
    at: u64,
}

impl Pen<'_> {
    // Writes a number of so many bytes, and goes on behind it.
    fn put(&mut self, width: u64, value: u64) {
        put(self.file, self.at, width, value);
        self.at = self.at.saturating_add(width);
    }

    // Writes a separation and a deadline.
    fn put_pace(&mut self, pace: Pace) {
        self.put(4, pace.separation);
        self.put(4, pace.deadline);
    }
}

// Where each section begins, and how long the file is.
#[derive(Clone, Copy)]
struct Layout {
    flows: u64,
    links: u64,
    entries: u64,
    list: u64,
    end: u64,
}

// A section of so many records goes to the end, after a gap now and then.
fn place_section(dice: &mut Dice, end: &mut u64, section: Section, records: u64) -> u64 {
    if dice.once_in(3) {
        *end = end.saturating_add(dice.below(7));
    }
    let at = *end;
    *end = at.saturating_add(records.saturating_mul(section.width()));
    at
}

// The sections in one of two orders.
fn arrange(dice: &mut Dice, plan: &Plan) -> Layout {
    let flows = plan.flows.len() as u64;
    let mut end = 32;
    let early = if dice.once_in(2) {
        Some(place_section(dice, &mut end, Section::Flows, flows))
    } else {
        None
    };
    let links = place_section(dice, &mut end, Section::Links, plan.links.len() as u64);
    let entries = place_section(dice, &mut end, Section::Entries, plan.routes.len() as u64);
    let list = place_section(dice, &mut end, Section::List, plan.numbers);
    let flows = match early {
        Some(flows) => flows,
        None => place_section(dice, &mut end, Section::Flows, flows),
    };
    Layout {
        flows,
        links,
        entries,
        list,
        end,
    }
}

// Writes the header, with the sections that a mesh does not have left out.
fn put_header(file: &mut [u8], plan: &Plan, layout: &Layout) {
    let recipe = plan.recipe;
    let mut pen = Pen { file, at: 0 };
    pen.put(2, plan.flows.len() as u64);
    pen.put(2, recipe.width);
    pen.put(2, recipe.height);
    pen.put(2, recipe.profile);
    pen.put(2, recipe.spare);
    pen.put(2, plan.links.len() as u64);
    pen.put(4, layout.flows);
    if recipe.shape.is_some() {
        pen.put(4, layout.links);
        pen.put(4, layout.entries);
        pen.put(4, layout.list);
        pen.put(4, plan.numbers);
    } else {
        pen.put(8, 0);
        pen.put(8, 0);
    }
}

// Writes the separation and the deadline of the flow record at a byte.
pub fn put_pace(file: &mut [u8], record: u64, pace: Pace) {
    let mut pen = Pen {
        file,
        at: record.saturating_add(8),
    };
    pen.put_pace(pace);
}

// Writes flow records from a byte on.
pub fn put_flows(file: &mut [u8], at: u64, flows: &[Flow]) {
    let mut pen = Pen { file, at };
    for flow in flows {
        pen.put(2, flow.source);
        pen.put(2, flow.destination);
        pen.put(4, flow.payload);
        pen.put_pace(flow.pace);
    }
}

// Writes the ends of each link from a byte on.
fn put_links(file: &mut [u8], at: u64, links: &[Link]) {
    let mut pen = Pen { file, at };
    for link in links {
        pen.put(2, link.start);
        pen.put(2, link.stop);
    }
}

// Writes a route entry for each flow from a byte on.
fn put_entries(file: &mut [u8], at: u64, routes: &[Placed]) {
    let mut pen = Pen { file, at };
    for route in routes {
        pen.put(2, route.numbers.len() as u64);
        pen.put(2, route.position);
    }
}

// The numbers of each route at its position of the list.
fn put_list(file: &mut [u8], at: u64, routes: &[Placed]) {
    for route in routes {
        let mut pen = Pen {
            file,
            at: at.saturating_add(route.position.saturating_mul(2)),
        };
        for number in route.numbers.iter() {
            pen.put(2, *number);
        }
    }
}

// The bytes of a table; gaps hold bytes that mean nothing.
pub fn written(heap: Global, dice: &mut Dice, plan: &Plan) -> Result<Vec<u8>, AllocError> {
    let layout = arrange(dice, plan);
    let junk = u8::try_from(dice.below(256)).unwrap_or(0);
    let mut file = vec![in heap; junk; layout.end as usize]?;
    let bytes = file.as_mut_slice();
    put_header(bytes, plan, &layout);
    put_flows(bytes, layout.flows, plan.flows.as_slice());
    put_links(bytes, layout.links, plan.links.as_slice());
    put_entries(bytes, layout.entries, plan.routes.as_slice());
    put_list(bytes, layout.list, plan.routes.as_slice());
    Ok(file)
}
