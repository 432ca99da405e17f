// A table as it stands in a file: little-endian numbers, read off its bytes at each question.

#[derive(Clone, Copy)]
pub struct File<'a> {
    pub bytes: &'a [u8],
}

impl File<'_> {
    // The number in so many bytes from a place on; a byte past the end counts as 0.
    pub fn number(self, at: u64, width: u64) -> u64 {
        (0..width).rev().fold(0, |value: u64, i| {
            let place = at.saturating_add(i) as usize;
            let byte = self.bytes.get(place).copied().unwrap_or(0);
            value.wrapping_mul(256).wrapping_add(u64::from(byte))
        })
    }

    pub fn len(self) -> u64 {
        self.bytes.len() as u64
    }

    // What the header says: how many flows there are ..
    pub fn flows(self) -> u64 {
        self.number(0, 2)
    }

    // .. how many nodes a row has ..
    pub fn width(self) -> u64 {
        self.number(2, 2)
    }

    // .. how many nodes there are ..
    pub fn nodes(self) -> u64 {
        self.width().saturating_mul(self.number(4, 2))
    }

    // .. the profile ..
    pub fn profile(self) -> u64 {
        self.number(6, 2)
    }

    // .. the intervals that are left empty ..
    pub fn spare(self) -> u64 {
        self.number(8, 2)
    }

    // .. how many links are listed ..
    pub fn links(self) -> u64 {
        self.number(10, 2)
    }

    // .. and how many numbers the number list has.
    pub fn numbers(self) -> u64 {
        self.number(28, 2)
    }

    // Whether the table means a mesh.
    pub fn is_mesh(self) -> bool {
        self.links() == 0
    }
}
