// Marking the flows that share a link, and asking for one.
ghost use Rattle.std.specs.Prelude.{◌≡◌, ◌≤◌, map, length, take};
ghost use Rattle.analysis.specs.Marks.{marked, shares_with};

use super::Above;
use crate::row::Row;
use fabric::path::Path;

impl Above {
    // Marks which of the flows, from flow 1 on, share a link with a route.
    pub(crate) fn sharing(rows: &[Row], path: &Path) -> Above
        requires { length rows.now ≤ 128 }
        ensures { take (length rows.now) result.flags ≡ map (shares_with path.now) rows.now }
    {
        let mut flags = [false; 128];
        // a `for`: `collect` makes no array, and could answer want of memory
        for (h, row) in rows.iter().enumerate() {
            flags[h] = row.path.shares(path);
        }
        Above { flags }
    }

    // Whether a flow is marked, by its number.
    pub fn has(&self, flow: usize) -> bool
        ensures { result ≡ marked self.now flow }
    {
        (1..=128).contains(&flow) && self.flags[flow - 1]
    }
}
