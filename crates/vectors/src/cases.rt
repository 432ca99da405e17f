// The worked cases: each is a file with what loading it over the mesh that it means must answer.
ghost use Rattle.std.specs.List.{AllByRecursion};
ghost use Rattle.vectors.specs.Cases.{Holds};

use crate::case::Case;
use analysis::figures::Figures;
use table::fault::LoadFault;

// Every case of the array holds of the definitions.
pub fn cases() -> [Case; 5]
    ensures { AllByRecursion Holds result }
{
    [
        // The three-flow table.
        Case {
            file: [
                3, 0, 4, 0, 1, 0, 1, 0, 17, 0, 0, 0, 32, 0, 0, 0, 0, 0, 0, 0, 0, 0, 0, 0, 0, 0, 0,
                0, 0, 0, 0, 0, 0, 0, 1, 0, 40, 0, 0, 0, 200, 0, 0, 0, 200, 0, 0, 0, 0, 0, 3, 0, 20,
                0, 0, 0, 160, 0, 0, 0, 160, 0, 0, 0, 2, 0, 3, 0, 100, 0, 0, 0, 144, 1, 0, 0, 144,
                1, 0, 0,
            ],
            expected: Ok([
                Figures {
                    hops: 3,
                    parts: 1,
                    alone: 20,
                    bound: Some(59),
                    rounds: 1,
                },
                Figures {
                    hops: 5,
                    parts: 3,
                    alone: 59,
                    bound: Some(117),
                    rounds: 2,
                },
                Figures {
                    hops: 3,
                    parts: 3,
                    alone: 55,
                    bound: Some(212),
                    rounds: 3,
                },
            ]),
        },
        // The third deadline at the bound.
        Case {
            file: [
                3, 0, 4, 0, 1, 0, 1, 0, 17, 0, 0, 0, 32, 0, 0, 0, 0, 0, 0, 0, 0, 0, 0, 0, 0, 0, 0,
                0, 0, 0, 0, 0, 0, 0, 1, 0, 40, 0, 0, 0, 200, 0, 0, 0, 200, 0, 0, 0, 0, 0, 3, 0, 20,
                0, 0, 0, 160, 0, 0, 0, 160, 0, 0, 0, 2, 0, 3, 0, 100, 0, 0, 0, 144, 1, 0, 0, 212,
                0, 0, 0,
            ],
            expected: Ok([
                Figures {
                    hops: 3,
                    parts: 1,
                    alone: 20,
                    bound: Some(59),
                    rounds: 1,
                },
                Figures {
                    hops: 5,
                    parts: 3,
                    alone: 59,
                    bound: Some(117),
                    rounds: 2,
                },
                Figures {
                    hops: 3,
                    parts: 3,
                    alone: 55,
                    bound: Some(212),
                    rounds: 3,
                },
            ]),
        },
        // The third deadline one cycle short: no bound, after two rounds.
        Case {
            file: [
                3, 0, 4, 0, 1, 0, 1, 0, 17, 0, 0, 0, 32, 0, 0, 0, 0, 0, 0, 0, 0, 0, 0, 0, 0, 0, 0,
                0, 0, 0, 0, 0, 0, 0, 1, 0, 40, 0, 0, 0, 200, 0, 0, 0, 200, 0, 0, 0, 0, 0, 3, 0, 20,
                0, 0, 0, 160, 0, 0, 0, 160, 0, 0, 0, 2, 0, 3, 0, 100, 0, 0, 0, 144, 1, 0, 0, 211,
                0, 0, 0,
            ],
            expected: Ok([
                Figures {
                    hops: 3,
                    parts: 1,
                    alone: 20,
                    bound: Some(59),
                    rounds: 1,
                },
                Figures {
                    hops: 5,
                    parts: 3,
                    alone: 59,
                    bound: Some(117),
                    rounds: 2,
                },
                Figures {
                    hops: 3,
                    parts: 3,
                    alone: 55,
                    bound: None,
                    rounds: 2,
                },
            ]),
        },
        // A window of 19 cycles: a part of flow 2, over five links, carries one flit.
        Case {
            file: [
                3, 0, 4, 0, 1, 0, 1, 0, 16, 0, 0, 0, 32, 0, 0, 0, 0, 0, 0, 0, 0, 0, 0, 0, 0, 0, 0,
                0, 0, 0, 0, 0, 0, 0, 1, 0, 40, 0, 0, 0, 200, 0, 0, 0, 200, 0, 0, 0, 0, 0, 3, 0, 20,
                0, 0, 0, 160, 0, 0, 0, 160, 0, 0, 0, 2, 0, 3, 0, 100, 0, 0, 0, 144, 1, 0, 0, 144,
                1, 0, 0,
            ],
            expected: Ok([
                Figures {
                    hops: 3,
                    parts: 2,
                    alone: 30,
                    bound: Some(67),
                    rounds: 1,
                },
                Figures {
                    hops: 5,
                    parts: 5,
                    alone: 95,
                    bound: None,
                    rounds: 1,
                },
                Figures {
                    hops: 3,
                    parts: 3,
                    alone: 55,
                    bound: None,
                    rounds: 0,
                },
            ]),
        },
        // A window of 18 cycles: no flit fits into a part of flow 2.
        Case {
            file: [
                3, 0, 4, 0, 1, 0, 1, 0, 15, 0, 0, 0, 32, 0, 0, 0, 0, 0, 0, 0, 0, 0, 0, 0, 0, 0, 0,
                0, 0, 0, 0, 0, 0, 0, 1, 0, 40, 0, 0, 0, 200, 0, 0, 0, 200, 0, 0, 0, 0, 0, 3, 0, 20,
                0, 0, 0, 160, 0, 0, 0, 160, 0, 0, 0, 2, 0, 3, 0, 100, 0, 0, 0, 144, 1, 0, 0, 144,
                1, 0, 0,
            ],
            expected: Err(LoadFault::Capacity { flow: 2, byte: 48 }),
        },
    ]
}
