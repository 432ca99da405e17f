// What any medium means.
ghost use Rattle.std.specs.Prelude.{◌≡◌, ℕ, ◌≤◌, List, [], length};
ghost use Rattle.medium.specs.declared.level.Level.{Level};
ghost use Rattle.medium.specs.Levels.{may_open, opened, may_pull, pulled, read_at};

use crate::fault::MediumFault;
use crate::level::Level;

// The wire that an arbitration runs over. Its meaning is the list of the levels of the intervals opened since it was last cleared.
pub trait Medium {
    // The levels of the intervals opened since the last clear, the oldest first.
    ghost levels: { Self → List Level };

    // The limit: the most intervals that it can hold. It belongs to the kind of medium, so that no call changes it.
    ghost most: { ℕ };

    // The limit.
    fn limit(&self) -> usize
        ensures { result ≡ most };

    // Empties the list.
    fn clear(&mut self)
        ensures { levels self.new ≡ [] };

    // Opens an interval, recessive at first. Refused at the limit, and then nothing changes.
    fn open(&mut self) -> Result<(), MediumFault>
        ensures answer { result ≡ may_open most (length (levels self.old)) }
        ensures after { levels self.new ≡ opened most (levels self.old) };

    // A node pulls the last interval, which is dominant from then on. Refused where none is open or there is no such node, and then nothing changes.
    fn pull(&mut self, node: usize) -> Result<(), MediumFault>
        ensures answer { result ≡ may_pull (length (levels self.old)) node }
        ensures after { levels self.new ≡ pulled (levels self.old) node };

    // The level of interval k, from 0, or none where it was not opened. Reading changes nothing.
    fn read(&self, k: usize) -> Option<Level>
        ensures answer { result ≡ read_at (levels self.now) k }
        ensures after { levels self.exit.now ≡ levels self.entry.now };

    // The list never passes the limit.
    ghost within: { (m : Self) → length (levels m) ≤ most };
}
