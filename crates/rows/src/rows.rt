// The flows of a run, flow 1 first. One row at a time is lent to be changed, and only by the functions here.
use crate::flow_row::FlowRow;
use std::marker::Model;

pub mod changes;
pub mod filled;

#[derive(Drop)]
pub struct Rows {
    items: Vec<FlowRow>,
}

impl Model for Rows {
    ghost use Rattle.std.specs.Prelude.{List};
    ghost use Rattle.rows.specs.declared.flow_row.FlowRow.{FlowRow};
    ghost use Rattle.rows.specs.Small.{Small};

    ghost Value = { List FlowRow };

    ghost view = { λ rows. rows.items.items };

    // nodes are numbered below 256, and the last part of a packet is on its way for less than 2^60 cycles
    ghost invariant = { λ rows. Small rows.items.items };
}
