// The flow whose turn it is to be loaded: the one that comes after the rows.
ghost use Rattle.std.specs.Prelude.{◌<◌, length};
ghost use Rattle.analysis.specs.Standing.{Apart};

use crate::row::Row;
use crate::setting::Setting;

#[derive(Clone, Copy)]
pub(crate) struct Turn<'a> {
    pub(crate) setting: &'a Setting,
    // of the flows before it, which are those above it
    pub(crate) rows: &'a [Row],
    // a table has no more than 128 flows, and none of them may release all the time
    ghost few: { length rows.now < 128 },
    ghost apart: { Apart rows.now },
}
