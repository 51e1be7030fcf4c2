// The judge's state and its answers (document 01's judge is the run-time monitor): what it keeps between steps, a step as it is
// read, and the answer to it. The definition of the judge stands in specs/, and proofs/ has that it answers as the whole past says.
#![tactic(auto)]

ghost use Rattle.std.specs.Prelude.{◌≡◌};
ghost use Rattle.usage.specs.Judge.{step_of};
ghost use Rattle.monitor_state.specs.declared.Answer.TheVariants.{Refused};
ghost use Rattle.monitor_state.specs.Code.{says, told_of};

use monitor_sets::SETS;
use usage::{MOST_CREATED, MOST_UNCLOSED, POLICIES, RawStep, Reason};

// The sets of the policies about two resources, as `monitor_pairs` lays them out.
pub const PAIR_SETS: usize = monitor_pairs::PAIR_SETS;

// What is tracked: the sets of states of the instances, as `monitor_sets::instances` lays them out, those of the policies about two
// resources, of which none can be written yet, and for each policy the set of states that any of its instances may be in.
#[derive(Clone, Copy)]
pub struct Tracked {
    pub sets: [u8; SETS],
    pub pairs: [u8; PAIR_SETS],
    pub possible: [u8; POLICIES],
}

// What is created: the live resources, which are the first `count` numbers, and the highest number that was created.
#[derive(Clone, Copy)]
pub struct Created {
    pub numbers: [u32; MOST_CREATED],
    pub count: usize,
    pub highest: u32,
}

// What is not closed: for each policy how many of its openings, and the policies of all these openings in their order, the oldest first,
// which are the first `depth` numbers.
#[derive(Clone, Copy)]
pub struct Unclosed {
    pub counts: [u8; POLICIES],
    pub order: [u8; MOST_UNCLOSED],
    pub depth: usize,
}

// What the judge keeps between steps, in its parts, and whether a step was violated.
#[derive(Clone, Copy)]
pub struct State {
    pub tracked: Tracked,
    pub created: Created,
    pub unclosed: Unclosed,
    pub halted: bool,
}

// What a state has beside its arrays: how many resources are live, the highest number that was created, how many openings are not closed,
// and whether it is halted.
#[derive(Clone, Copy)]
pub struct Sizes {
    pub count: usize,
    pub highest: u32,
    pub depth: usize,
    pub halted: bool,
}

// An answer, over what a refusal says; the judge's own answers say a `Reason`.
#[derive(Clone, Copy, PartialEq, Eq, Debug)]
pub enum Answer<E> {
    Allowed,
    Violated(u8),
    Refused(E),
}

#[derive(Clone, Copy)]
pub struct Judgement {
    pub answer: Answer<Reason>,
    pub state: State,
}

// A judgement without the arrays of its state, which are lent.
#[derive(Clone, Copy)]
pub struct Told<E> {
    pub answer: Answer<E>,
    pub sizes: Sizes,
}

// A step whose numbers are in their ranges.
#[derive(Clone, Copy, PartialEq, Eq, Debug)]
pub enum Step {
    Event { action: u32, resource: u32 },
    Opening { policy: usize },
    Closing { policy: usize },
    Retiring { resource: u32 },
}

// A step as it is handed over; none where its numbers are those of no step.
pub fn read_step(step: RawStep) -> Option<Step>
    ensures { says result ≡ step_of step }
{
    let RawStep { kind, a, b } = step;
    if !sheet_fields::step_fits(kind, a, b) {
        return None;
    }
    Some(match kind {
        0 => Step::Event {
            action: a,
            resource: b,
        },
        1 => Step::Opening { policy: a as usize },
        2 => Step::Closing { policy: a as usize },
        3 => Step::Retiring { resource: a },
        _ => return None,
    })
}

// A refused step, for whatever reason is given: nothing is changed.
pub fn refused<E>(reason: E, sizes: Sizes) -> Told<E>
    ensures { result ≡ record { answer = Refused reason; sizes = sizes } }
{
    Told {
        answer: Answer::Refused(reason),
        sizes,
    }
}

// The answer to a step that leaves these policies open and not respected: the lowest of them, if any. `before` and `after` are
// the sizes before the step and after it.
pub fn settled(broken: u8, before: Sizes, after: Sizes) -> Told<Reason>
    ensures { result ≡ told_of broken before after }
{
    if broken == 0 {
        return Told {
            answer: Answer::Allowed,
            sizes: after,
        };
    }
    let lowest = u8::trailing_zeros(broken);
    let p = lowest as u8;
    let sizes = Sizes {
        halted: true,
        ..before
    };
    Told {
        answer: Answer::Violated(p),
        sizes,
    }
}
