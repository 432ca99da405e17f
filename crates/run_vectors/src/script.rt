// The steps of a worked run as calls, and what they must be answered.
ghost use Rattle.std.specs.Prelude.{◌≡◌, ◌+◌, ◌^◌, ◌<◌, ◌++◌, IfOk, OnOk};
ghost use Rattle.run_vectors.specs.Runs.{slots_from, calls_in, refusal_of};

use crate::case::Step;
use calls::event::{Call, Event};
use calls::refusal::Refusal;
use calls::slip_name::SlipName;
use std::alloc::{AllocError, Global};

// The number that the run is loaded under.
pub const RUN: u32 = 1;

// Adds the calls of so many slots: each is arbitrated, and injected with its slip.
fn add_slots(calls: &mut Vec<Call>, first: u32, count: u8) -> Result<(), AllocError>
    requires { first + count < 2 ^ 32 }
    ensures { OnOk result (calls.new.items ≡ calls.old.items ++ slots_from first count) }
{
    for slot in first..first + u32::from(count) {
        calls.push(Call::Arbitrate)?;
        calls.push(Call::Inject {
            slip: SlipName { number: RUN, slot },
        })?;
    }
    Ok(())
}

// The calls of all steps. A match, since steps are data that the worked cases speak of.
pub fn calls_of(heap: Global, steps: &[Step; 4]) -> Result<Vec<Call>, AllocError>
    ensures { IfOk result (λ calls. calls.items ≡ calls_in 0 steps.now) }
{
    let mut calls = Vec::new(heap);
    let mut slot = 0;
    for step in steps {
        match *step {
            Step::Release(flow, cycle, _) => calls.push(Call::Release { flow, cycle })?,
            Step::Slots(count) => {
                add_slots(&mut calls, slot, count)?;
                slot += u32::from(count);
            }
        }
    }
    Ok(calls)
}

// The refusal of a call, if it was refused.
fn refusal_of(event: &Event) -> Option<Refusal>
    ensures { result ≡ refusal_of event.now }
{
    match *event {
        Event::Released { answer, .. } | Event::Abandoned { answer, .. } => answer.err(),
        Event::Arbitrated { answer } => answer.err(),
        Event::Injected { answer, .. } => answer.err(),
        Event::Reported { answer } => answer.err(),
        Event::Told { answer, .. } => answer.err(),
    }
}

// Whether all of these calls were accepted.
fn all_accepted(events: &[Event]) -> bool {
    events.iter().all(|event| refusal_of(event).is_none())
}

// Whether each step was answered as it must be.
pub fn answered(events: &[Event], steps: &[Step; 4]) -> bool {
    let mut left = events;
    for step in steps {
        match *step {
            Step::Release(_, _, refusal) => {
                let Some((event, rest)) = left.split_first() else {
                    return false;
                };
                if refusal_of(event) != refusal {
                    return false;
                }
                left = rest;
            }
            Step::Slots(count) => {
                let Some((calls, rest)) = left.split_at_checked(2 * usize::from(count)) else {
                    return false;
                };
                if !all_accepted(calls) {
                    return false;
                }
                left = rest;
            }
        }
    }
    left.is_empty()
}
