// The mesh: nodes in rows, each joined with the nodes beside it.
use crate::answer::NoRoute;
use crate::numbered::Cause;
use crate::second::file::File;
use crate::second::link::Link;
use crate::second::network::{Route, Trip};
use std::alloc::{AllocError, Global};
use std::iter::successors;

// By its place among the four links that leave a router.
#[derive(Clone, Copy)]
enum Direction {
    East = 0,
    West = 1,
    North = 2,
    South = 3,
}

impl Direction {
    const ALL: [Direction; 4] = [
        Direction::East,
        Direction::West,
        Direction::North,
        Direction::South,
    ];
}

#[derive(Clone, Copy)]
pub struct Grid {
    width: u64,
    nodes: u64,
}

impl Grid {
    // The mesh of a file's width and height.
    pub fn of(file: File) -> Grid {
        Grid {
            width: file.width(),
            nodes: file.nodes(),
        }
    }

    // The node beside a node; none past the border.
    fn beside(self, node: u64, direction: Direction) -> Option<u64> {
        let x = node.checked_rem(self.width)?;
        let (inside, next) = match direction {
            Direction::East => (x.saturating_add(1) < self.width, node.saturating_add(1)),
            Direction::West => (x > 0, node.saturating_sub(1)),
            Direction::North => {
                let north = node.saturating_add(self.width);
                (north < self.nodes, north)
            }
            Direction::South => (node >= self.width, node.saturating_sub(self.width)),
        };
        inside.then_some(next)
    }

    // Where the next step goes from a node towards another: along x until the columns agree, then along y.
    fn heading(self, node: u64, goal: u64) -> Option<Direction> {
        let x = node.checked_rem(self.width)?;
        let goal_x = goal.checked_rem(self.width)?;
        if x < goal_x {
            Some(Direction::East)
        } else if x > goal_x {
            Some(Direction::West)
        } else if node < goal {
            Some(Direction::North)
        } else if node > goal {
            Some(Direction::South)
        } else {
            None
        }
    }

    // The number of the link that leaves a node's router in a direction.
    fn link(self, node: u64, direction: Direction) -> u64 {
        let cores = self.nodes.saturating_mul(2);
        cores
            .saturating_add(node.saturating_mul(4))
            .saturating_add(direction as u64)
    }

    // Out of the source's core, step by step, and into the destination's core.
    pub fn route(self, heap: Global, trip: Trip) -> Result<Route, AllocError> {
        let goal = trip.destination;
        let way = successors(Some(trip.source), |node| {
            let direction = self.heading(*node, goal)?;
            self.beside(*node, direction)
        });
        let steps = way
            .take(self.nodes as usize)
            .filter_map(|node| Some(self.link(node, self.heading(node, goal)?)));
        let mut links = Vec::new(heap);
        links.push(trip.source)?;
        links.extend(steps)?;
        links.push(self.nodes.saturating_add(goal))?;
        if links.len() > 64 {
            return Ok(Err(NoRoute {
                hop: 0,
                cause: Cause::Length,
            }));
        }
        Ok(Ok(links))
    }

    // The ends of a link, if it leaves or enters the core of a node or leaves its router.
    fn ends_at(self, node: u64, link: u64) -> Option<Link> {
        if link == node {
            return Some(Link::from_core(node));
        }
        if link == self.nodes.saturating_add(node) {
            return Some(Link::from_core(node).back());
        }
        let direction = Direction::ALL
            .into_iter()
            .find(|direction| link == self.link(node, *direction))?;
        let next = self.beside(node, direction).unwrap_or(node);
        Some(Link::between(node, next))
    }

    // The ends of a link, looked for at each node.
    pub fn ends(self, link: u64) -> Option<Link> {
        (0..self.nodes).find_map(|node| self.ends_at(node, link))
    }
}
