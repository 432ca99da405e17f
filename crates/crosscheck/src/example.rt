// A table whose figures are known: three flows on a mesh of four nodes in a row.
use crate::answer::{Answer, Row};
use crate::layout::{put, put_flows};
use crate::second::records::{Flow, Pace};

fn flow(source: u64, destination: u64, payload: u64, separation: u64, deadline: u64) -> Flow {
    Flow {
        source,
        destination,
        payload,
        pace: Pace {
            separation,
            deadline,
        },
    }
}

// Profile 1 and 17 empty intervals.
fn put_header(file: &mut [u8]) {
    for (at, value) in [(0, 3), (2, 4), (4, 1), (6, 1), (8, 17), (12, 32)] {
        put(file, at, 2, value);
    }
}

// The table, with the deadline of the third flow.
pub fn example_file(deadline: u64) -> [u8; 80] {
    let mut file = [0; 80];
    put_header(&mut file);
    let first = flow(0, 1, 40, 200, 200);
    let second = flow(0, 3, 20, 160, 160);
    let third = flow(2, 3, 100, 400, deadline);
    put_flows(&mut file, 32, &[first, second, third]);
    file
}

fn row(hops: u64, parts: u64, alone: u64, bound: Option<u64>, rounds: u64) -> Row {
    Row {
        hops,
        parts,
        alone,
        bound,
        rounds,
    }
}

// Whether an answer has the figures that were worked out by hand, and these of the third flow.
pub fn has_known_figures(answer: &Answer, bound: Option<u64>, rounds: u64) -> bool {
    let first = row(3, 1, 20, Some(59), 1);
    let second = row(5, 3, 59, Some(117), 2);
    let third = row(3, 3, 55, bound, rounds);
    let known = [first, second, third];
    answer
        .as_ref()
        .is_ok_and(|rows| rows.as_slice() == known.as_slice())
}
