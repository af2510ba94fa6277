// An answer put whole into the room, and how far a run of questions is.
#![tactic(auto)]

ghost use Rattle.std.specs.Prelude.{◌+◌, ◌^◌, ◌<◌};
ghost use Rattle.questions.specs.Wrote.{Wrote};
ghost use Rattle.replies.specs.Running.{Started, Further, Stopped, Ended};

use rules::{Outcome, Refusal};

// How far a run of questions is: the place behind those answered, how many they are, and how much of the room is used.
#[derive(Clone, Copy)]
pub struct Run {
    pub at: usize,
    pub answered: usize,
    pub used: usize,
}

// Puts an answer whole at the front of the room, if it fits; how many numbers it has.
pub fn put(answer: &[u32], room: &mut [u32]) -> Option<usize>
    ensures { Wrote answer.now room.old result room.new }
{
    let size = answer.len();
    if room.len() < size {
        return None;
    }
    room[..size].copy_from_slice(answer);
    Some(size)
}

// The run before its first question, with its zeros written out: a wrong program (`used_one_off`) has others.
pub fn started() -> Run
    ensures { Started result }
{
    Run {
        at: 0,
        answered: 0,
        used: 0,
    }
}

// The run behind one question more, which ends at `to` and has an answer of that size.
pub fn further(run: Run, to: usize, size: usize) -> Run
    requires { (run.answered + 1 < 2 ^ 64) × (run.used + size < 2 ^ 64) }
    ensures { Further run to size result }
{
    Run {
        at: to,
        answered: run.answered + 1,
        used: run.used + size,
    }
}

// The outcome of a run whose next answer does not fit.
pub fn stopped(run: Run) -> Outcome
    ensures { Stopped run result }
{
    Outcome {
        verdict: Err(Refusal::Room),
        answered: run.answered,
        used: run.used,
    }
}

// The outcome of a run behind its last question.
pub fn ended(run: Run) -> Outcome
    ensures { Ended run result }
{
    Outcome {
        verdict: Ok(()),
        answered: run.answered,
        used: run.used,
    }
}
