// The theory of packets: each function carries a theorem in its contract and does nothing else.
#![tactic(auto)]

ghost use Rattle.packets.specs.Calls.{CallsInBound, NextFree, RowsTell, OpenPlaced, Decided, FlowsKnown};
ghost use Rattle.packets.specs.Statement.{InBound, InSlots, NeverOpen};

// In every run a bounded flow's packets arrive within the bound.
pub fn in_bound()
    ensures { InBound }
{}

// In every run a bounded flow's packet has left before the flow's next may be released.
pub fn never_open()
    ensures { NeverOpen }
{}

// In every run a packet arrives within a number of slots that holds its parts and all that the flows above can take.
pub fn in_slots()
    ensures { InSlots }
{}

// After any accepted calls every packet of a bounded flow has arrived, or can still arrive, within the bound.
pub fn calls_in_bound()
    ensures { CallsInBound }
{}

// After any accepted calls a bounded flow has no open packet when its next may be released.
pub fn next_free()
    ensures { NextFree }
{}

// The parts left of each flow, and the place of its newest packet, tell who wants and where the open packet stands.
pub fn rows_tell()
    ensures { RowsTell }
{}

// An open packet is its flow's newest, and parts of it are left.
pub fn open_placed()
    ensures { OpenPlaced }
{}

// A flow that wants is granted exactly when no flow above that shares a link with it is.
pub fn decided()
    ensures { Decided }
{}

// Every packet is of a flow of the table.
pub fn flows_known()
    ensures { FlowsKnown }
{}
