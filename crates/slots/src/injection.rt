// The injection of a slot: each flow has its grant or its denial.
ghost use Rattle.std.specs.Prelude.{◌≡◌, map};
ghost use Rattle.rows.specs.Serving.{served, ledger_after, grant_count};
ghost use Rattle.rows.specs.Small.{Small};
ghost use Rattle.rows.specs.Times.{slot_end};

use calls::record::Record;
use rows::clock::Clock;
use rows::rows::Rows;

// Serves each flow in turn, writes the ledger, and answers how many were granted: the second half of a slot, beside the first. The rows lend
// themselves one by one, so that the loop is theirs.
pub fn serve_all(rows: &mut Rows, clock: &Clock, ledger: &mut [Record]) -> usize
    ensures answer { result ≡ grant_count rows.old }
    ensures rows { rows.new ≡ map served rows.old }
    ensures small { Small rows.new }
    ensures ledger { ledger.new ≡ ledger_after (slot_end clock.now.times clock.now.slot) rows.old ledger.old }
{
    rows.serve_all(clock, ledger)
}
