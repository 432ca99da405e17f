// From a flow's record to its row: its route, its parts and its bound.
ghost use Rattle.std.specs.Prelude.{◌≡◌, ℕ, ◌+◌, ◌^◌, ◌<◌, ◌≤◌, List, length, IfOk, slice_index_or};
ghost use Rattle.fabric.specs.Paths.{links_in};
ghost use Rattle.timing.specs.Model.{Table};
ghost use Rattle.analysis.specs.Standing.{Told, Stands};
ghost use Rattle.analysis.specs.Rows.{taken, links_taken, carried, Meets, Builds, RowFits, RowsFit};
ghost use Rattle.analysis.specs.Loading.{each_flow, record_byte, route_checks_of};
ghost use Rattle.analysis.specs.Tables.{no_record, record_of};
ghost use Rattle.table.specs.Checks.{first_fault};
ghost use Rattle.table.specs.declared.records.FlowRecord.{FlowRecord};

use crate::above::Above;
use crate::bounding::Rivals;
use crate::row::Row;
use crate::setting::Setting;
use crate::turn::Turn;
use fabric::fabric::Fabric;
use fabric::path::Path;
use fabric::trip::Trip;
use parts::split::{Split, split_packet};
use std::alloc::{AllocError, Global};
use table::fault::LoadFault;
use table::records::FlowRecord;

impl Turn<'_> {
    // The flow's number.
    pub(crate) fn number(&self) -> usize
        ensures { result ≡ length self.now.rows.now + 1 }
    {
        self.rows.len() + 1
    }

    // Where the flow's record begins.
    fn record_byte(&self) -> usize
        ensures { result ≡ record_byte self.now.setting.now.header (length self.now.rows.now + 1) }
    {
        self.setting.record_byte(self.number())
    }

    // The flow's route; where there is none, the fault tells the route's hop and cause inside the load's own.
    fn take_route<F: Fabric>(&self, fabric: &F, flow: &FlowRecord) -> Result<Path, LoadFault>
        ensures { let i = length self.now.rows.now + 1 in links_taken result ≡ taken self.now.setting.now.header i (F.route fabric.now i flow.now.source flow.now.destination) }
    {
        let number = self.number();
        let trip = Trip {
            flow: number,
            source: usize::from(flow.source),
            destination: usize::from(flow.destination),
        };
        // a rule of the project: the route is taken by `let .. else`, and its absence becomes the load's own fault
        let asked = Path::take(fabric, trip);
        let Ok(path) = asked else {
            let byte = self.record_byte();
            return asked.map_err(|fault| LoadFault::Route {
                flow: number,
                byte,
                fault,
            });
        };
        Ok(path)
    }

    // The parts of the flow's packets over its route.
    fn carry(&self, path: &Path, payload: u32) -> Result<Split, LoadFault>
        ensures near { IfOk result (λ s. s.tail < 2 ^ 60) }
        ensures value { let s = self.now.setting.now in result ≡ carried s.header s.profile s.slot.window (length self.now.rows.now + 1) (length (links_in path.now)) payload }
    {
        let Setting { profile, slot, .. } = self.setting;
        split_packet(profile, slot.window, path.len(), payload).ok_or(LoadFault::Capacity {
            flow: self.number(),
            byte: self.record_byte(),
        })
    }

    // The flow's row, from its record, its route and the split of its packets.
    fn row(
        &self,
        heap: Global,
        flow: FlowRecord,
        path: Path,
        split: Split,
    ) -> Result<Row, AllocError>
        requires { split.tail < 2 ^ 62 }
        ensures flow { IfOk result (λ row. row.record ≡ flow) }
        ensures path { IfOk result (λ row. row.path ≡ path) }
        ensures stands { let i = length self.now.rows.now + 1 in IfOk result (λ row. (b : Table) → Told b self.now.setting.now.slot self.now.rows.now → Meets b self.now.rows.now path → i ≤ b.z → split.parts ≡ b.w i → split.tail ≡ b.c i → flow.separation ≡ b.T i → flow.deadline ≡ b.D i → Stands b row i) }
    {
        let length = u64::from(self.setting.slot.length);
        let parts = u64::from(split.parts);
        let alone = parts.saturating_sub(1) * length + split.tail;
        let above = Above::sharing(self.rows, &path);
        let rivals = Rivals {
            turn: *self,
            marks: &above,
        };
        let climb = rivals.bound(heap, alone, flow.deadline)?;
        Ok(Row {
            record: flow,
            path,
            parts: split.parts,
            tail: split.tail,
            alone,
            above,
            bound: climb.least,
            rounds: climb.rounds,
        })
    }

    // The flow's row, from its record; the checks of its route come first.
    fn load<F: Fabric>(&self, heap: Global, fabric: &F, flow: FlowRecord) -> Result<Row, LoadFault>
        ensures { let s = self.now.setting.now in let rows = self.now.rows.now in let i = length rows + 1 in (rs : List FlowRecord) → i ≤ length rs → record_of rs i ≡ flow → RowsFit s.slot s.profile rs (F.route fabric.now) (length rows) rows → Builds (first_fault (route_checks_of s.header s.slot s.profile rs (F.route fabric.now) i)) (RowFits s.slot s.profile rs (F.route fabric.now) i) result }
    {
        let path = self.take_route(fabric, &flow)?;
        let split = self.carry(&path, flow.payload)?;
        let row = self.row(heap, flow, path, split)?;
        Ok(row)
    }
}

// The rows of all flows, in turn.
// Each is worked out from the list of those before it, so that a chain would be no plainer.
pub(crate) fn load_rows<F: Fabric>(
    heap: Global,
    fabric: &F,
    setting: &Setting,
    records: &[FlowRecord],
) -> Result<Vec<Row>, LoadFault>
    requires apart { (k : ℕ) → k < length records.now → 1 ≤ (slice_index_or records.now k no_record).separation }
    requires few { length records.now ≤ 128 }
    ensures { let s = setting.now in let rs = records.now in Builds (first_fault (each_flow (route_checks_of s.header s.slot s.profile rs (F.route fabric.now)) (length rs))) (λ v. RowsFit s.slot s.profile rs (F.route fabric.now) (length rs) v.items) result }
{
    let mut rows = Vec::new(heap);
    for flow in records {
        let turn = Turn {
            setting,
            rows: rows.as_slice(),
        };
        let row = turn.load(heap, fabric, *flow)?;
        rows.push(row)?;
    }
    Ok(rows)
}
