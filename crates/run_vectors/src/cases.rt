// The worked cases: each is a file, steps of a run of it over the mesh that it means, and the ledger that they must leave.
ghost use Rattle.std.specs.List.{AllByRecursion};
ghost use Rattle.run_vectors.specs.Cases.{Holds};

use crate::case::{Case, Step};
use calls::record::Record;
use calls::refusal::Refusal;

// The three-flow table: 32 bytes of header, and 16 for each flow.
const THREE_FLOWS: [u8; 80] = *b"\
    \x03\x00\x04\x00\x01\x00\x01\x00\x11\x00\x00\x00\x20\x00\x00\x00\
    \x00\x00\x00\x00\x00\x00\x00\x00\x00\x00\x00\x00\x00\x00\x00\x00\
    \x00\x00\x01\x00\x28\x00\x00\x00\xc8\x00\x00\x00\xc8\x00\x00\x00\
    \x00\x00\x03\x00\x14\x00\x00\x00\xa0\x00\x00\x00\xa0\x00\x00\x00\
    \x02\x00\x03\x00\x64\x00\x00\x00\x90\x01\x00\x00\x90\x01\x00\x00";

// A place of the ledger that no packet took.
pub const BLANK: Record = Record {
    flow: 0,
    release: 0,
    first: 0,
    grants: 0,
    denials: 0,
    arrival: 0,
    pending: false,
};

// Every case of the array holds of the definitions.
pub fn cases() -> [Case; 4]
    ensures { AllByRecursion Holds result }
{
    [
        // Three packets at once: flow 2 waits for flow 1, and flow 3 for flow 2.
        Case {
            file: THREE_FLOWS,
            steps: [
                Step::Release(1, 0, None),
                Step::Release(2, 0, None),
                Step::Release(3, 0, None),
                Step::Slots(6),
            ],
            ledger: [
                Record {
                    flow: 1,
                    release: 0,
                    first: 0,
                    grants: 1,
                    denials: 0,
                    arrival: 40,
                    pending: false,
                },
                Record {
                    flow: 2,
                    release: 0,
                    first: 0,
                    grants: 3,
                    denials: 1,
                    arrival: 99,
                    pending: false,
                },
                Record {
                    flow: 3,
                    release: 0,
                    first: 0,
                    grants: 3,
                    denials: 3,
                    arrival: 135,
                    pending: false,
                },
            ],
        },
        // A release at cycle 1 misses the interval of flow 1 in slot 0; it belongs to slot 1: refusal 23.
        Case {
            file: THREE_FLOWS,
            steps: [
                Step::Release(1, 1, Some(Refusal::Ahead)),
                Step::Slots(1),
                Step::Release(1, 1, None),
                Step::Slots(1),
            ],
            ledger: [
                Record {
                    flow: 1,
                    release: 1,
                    first: 1,
                    grants: 1,
                    denials: 0,
                    arrival: 60,
                    pending: false,
                },
                BLANK,
                BLANK,
            ],
        },
        // Releases of flow 1 are 200 cycles apart: refusal 24.
        Case {
            file: THREE_FLOWS,
            steps: [
                Step::Release(1, 0, None),
                Step::Slots(10),
                Step::Release(1, 199, Some(Refusal::Soon)),
                Step::Release(1, 200, None),
            ],
            ledger: [
                Record {
                    flow: 1,
                    release: 0,
                    first: 0,
                    grants: 1,
                    denials: 0,
                    arrival: 40,
                    pending: false,
                },
                Record {
                    flow: 1,
                    release: 200,
                    first: 10,
                    grants: 0,
                    denials: 0,
                    arrival: 0,
                    pending: true,
                },
                BLANK,
            ],
        },
        // Flow 2 may release every 20 cycles, but its packet is open for longer: refusal 25.
        Case {
            file: *b"\
                \x03\x00\x04\x00\x01\x00\x01\x00\x11\x00\x00\x00\x20\x00\x00\x00\
                \x00\x00\x00\x00\x00\x00\x00\x00\x00\x00\x00\x00\x00\x00\x00\x00\
                \x00\x00\x01\x00\x28\x00\x00\x00\xc8\x00\x00\x00\xc8\x00\x00\x00\
                \x00\x00\x03\x00\x14\x00\x00\x00\x14\x00\x00\x00\x14\x00\x00\x00\
                \x02\x00\x03\x00\x64\x00\x00\x00\x90\x01\x00\x00\x90\x01\x00\x00",
            steps: [
                Step::Release(2, 0, None),
                Step::Slots(1),
                Step::Release(2, 20, Some(Refusal::Busy)),
                Step::Slots(2),
            ],
            ledger: [
                Record {
                    flow: 2,
                    release: 0,
                    first: 0,
                    grants: 3,
                    denials: 0,
                    arrival: 79,
                    pending: false,
                },
                BLANK,
                BLANK,
            ],
        },
    ]
}
