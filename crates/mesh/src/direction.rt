// The ways from a router to its neighbours.

// The number of a direction is the place of its link among the links of a router.
#[derive(Clone, Copy)]
pub(crate) enum Direction {
    // to the next column, and to the one before
    East = 0,
    West = 1,
    // to the next row, and to the one before
    North = 2,
    South = 3,
}

impl Direction {
    // The directions in the order of their numbers.
    pub(crate) const ALL: [Direction; 4] = [
        Direction::East,
        Direction::West,
        Direction::North,
        Direction::South,
    ];
}
