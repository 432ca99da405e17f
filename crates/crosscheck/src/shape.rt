// Networks that are written out as listed links and routes.
use crate::dice::Dice;
use crate::second::link::Link;
use std::alloc::{AllocError, Global};
use std::iter::{once, successors};

// How routers are joined.
#[derive(Clone, Copy)]
pub enum Shape {
    // each with the next, and the last with the first
    Ring,
    // each with its parent, which has so many branches; 0 is the root, and one branch makes a line
    Tree { branches: u64 },
    // rows of so many; routes go along columns first
    Grid { width: u64 },
}

fn parent(node: u64, branches: u64) -> u64 {
    node.saturating_sub(1).checked_div(branches).unwrap_or(0)
}

// The next node in a tree on the way to another: the branch that the goal is in, else the parent.
fn tree_step(nodes: u64, branches: u64, node: u64, goal: u64) -> u64 {
    successors(Some(goal), |step| Some(parent(*step, branches)))
        .take(nodes as usize)
        .find(|step| *step > 0 && parent(*step, branches) == node)
        .unwrap_or(parent(node, branches))
}

fn grid_step(width: u64, node: u64, goal: u64) -> u64 {
    if width == 0 {
        return node;
    }
    if node / width < goal / width {
        node.saturating_add(width)
    } else if node / width > goal / width {
        node.saturating_sub(width)
    } else if node < goal {
        node.saturating_add(1)
    } else {
        node.saturating_sub(1)
    }
}

// Up the ring to an even goal, down the ring to an odd one.
fn ring_step(nodes: u64, node: u64, goal: u64) -> u64 {
    let steps = if goal % 2 == 0 {
        1
    } else {
        nodes.saturating_sub(1)
    };
    node.saturating_add(steps)
        .checked_rem(nodes)
        .unwrap_or(node)
}

// Nodes whose routers are joined in a shape, and their links in any order.
#[derive(Drop)]
pub struct Net {
    shape: Shape,
    nodes: u64,
    pub links: Vec<Link>,
}

// A link there and back.
fn join(links: &mut Vec<Link>, link: Link) -> Result<(), AllocError> {
    links.extend_from_slice(&[link, link.back()])
}

impl Net {
    // The node that comes next on the way from one to another.
    fn step(&self, node: u64, goal: u64) -> u64 {
        match self.shape {
            Shape::Ring => ring_step(self.nodes, node, goal),
            Shape::Tree { branches } => tree_step(self.nodes, branches, node, goal),
            Shape::Grid { width } => grid_step(width, node, goal),
        }
    }

    // Whether a router is joined with a later one.
    fn joins(&self, node: u64, later: u64) -> bool {
        let next = later == node.saturating_add(1);
        match self.shape {
            Shape::Ring => next || (node == 0 && later.saturating_add(1) == self.nodes),
            Shape::Tree { branches } => parent(later, branches) == node,
            Shape::Grid { width } => {
                later == node.saturating_add(width) || (width > 0 && next && later % width > 0)
            }
        }
    }

    pub fn draw(
        heap: Global,
        dice: &mut Dice,
        shape: Shape,
        nodes: u64,
    ) -> Result<Net, AllocError> {
        let mut net = Net {
            shape,
            nodes,
            links: Vec::new(heap),
        };
        for node in 0..nodes {
            join(&mut net.links, Link::from_core(node))?;
            for later in node.saturating_add(1)..nodes {
                if net.joins(node, later) {
                    join(&mut net.links, Link::between(node, later))?;
                }
            }
        }
        dice.shuffle(net.links.as_mut_slice());
        Ok(net)
    }

    // The number of a link; 0 where there is none.
    fn find(&self, link: Link) -> u64 {
        let place = self.links.iter().position(|listed| *listed == link);
        place.unwrap_or(0) as u64
    }

    // The links of the way from one node to another.
    pub fn way(&self, heap: Global, source: u64, destination: u64) -> Result<Vec<u64>, AllocError> {
        let steps = successors(Some(source), |node| Some(self.step(*node, destination)))
            .take(self.nodes as usize)
            .take_while(|node| *node != destination)
            .map(|node| Link::between(node, self.step(node, destination)));
        once(Link::from_core(source))
            .chain(steps)
            .chain(once(Link::from_core(destination).back()))
            .map(|link| self.find(link))
            .collect(heap)
    }

    // Lets a route take the link at a place, go back and take it again.
    pub fn detour(&self, route: &mut Vec<u64>, place: usize) -> Result<(), AllocError> {
        let Some(number) = route.get(place).copied() else {
            return Ok(());
        };
        if let Some(link) = self.links.get(number as usize) {
            route.insert(place, self.find(link.back()))?;
            route.insert(place, number)?;
        }
        Ok(())
    }
}
