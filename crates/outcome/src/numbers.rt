// A decision's outcome in the numbers of the C interface.
ghost use Rattle.std.specs.Prelude.{◌≡◌, [], ◌<◌};
ghost use Rattle.slices.specs.Steps.{number_of};
ghost use Rattle.slices.specs.Sides.{side_of};
ghost use Rattle.outcome.specs.Reported.{report_of};
ghost use Rattle.outcome.specs.Numbers.{numbers, numbers_of};

use super::{Outcome, Report};
use slices::{Refusal, Side};

// A decision and its counts.
fn told(decision: u32, facts: usize, rounds: usize, answers: usize) -> Report
    requires { (facts < 4294967296) × (rounds < 4294967296) }
    ensures { result ≡ numbers decision 0 0 0 facts rounds answers }
{
    Report {
        decision,
        facts: facts as u32,
        rounds: rounds as u32,
        answers: answers as u64,
        ..Report::default()
    }
}

// A refusal by its numbers, whichever they are: 8 and 9 are of no slice, and 9 has counts.
pub fn refused_by(number: u8, side: u8, place: usize, facts: usize, rounds: usize) -> Report
    requires { (facts < 4294967296) × (rounds < 4294967296) }
    ensures { result ≡ numbers 0 number side place facts rounds 0 }
{
    Report {
        refusal: number as u32,
        side: side as u32,
        place: place as u64,
        ..told(0, facts, rounds, 0)
    }
}

// A refusal from the input.
pub fn refused(side: Side, why: Refusal) -> Report
    ensures { result ≡ numbers 0 (number_of why.reason) (side_of side) why.place 0 0 0 }
{
    refused_by(why.reason.number(), side.number(), why.place, 0, 0)
}

// "the promises use a definition that gives this paper's number and values for each case of the enum"; a function and no `From`, which could ask nothing
pub fn in_numbers(outcome: Outcome) -> Report
    requires { ((report_of outcome [] []).facts < 4294967296) × ((report_of outcome [] []).rounds < 4294967296) }
    ensures { result ≡ numbers_of (report_of outcome [] []) }
{
    match outcome {
        Outcome::Allow(facts, rounds, answers) => told(1, facts, rounds, answers),
        Outcome::Deny(facts, rounds) => told(2, facts, rounds, 0),
        Outcome::Refused(side, why) => refused(side, why),
        Outcome::TooManyFacts => refused_by(super::FACTS, 0, 0, 0, 0),
        Outcome::TooManyAnswers(facts, rounds) => refused_by(super::ANSWERS, 0, 0, facts, rounds),
    }
}
