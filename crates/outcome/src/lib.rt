// What a decision says, the line that a program prints of it, and its numbers for C.
#![tactic(auto)]

pub mod numbers;

ghost use Rattle.std.specs.Prelude.{◌≡◌, [], ◌++◌, ◌+◌, ◌≤◌, ◌<◌, length, take, drop};
ghost use Rattle.model.specs.Decision.{report, refusal};
ghost use Rattle.slices.specs.Sides.{side_of};
ghost use Rattle.outcome.specs.Line.{decimal, decision_line, side_word, refusal_line, line_of};
ghost use Rattle.outcome.specs.Reported.{side_number, report_of};
ghost use Rattle.outcome.specs.Wrote.{Wrote};

use slices::{Refusal, Side};

// A decision, or one of the numbered refusals with a place: one outcome for each report (`specs/Reported.OneSpelling`).
#[derive(Clone, Copy)]
pub enum Outcome {
    // the counts of facts, rounds and answers
    Allow(usize, usize, usize),
    // the counts of facts and rounds
    Deny(usize, usize),
    // from the input: side policy, 1 to 6; request, 1, 2, 3, 5 or 7; withdrawals, 1, 2, 3, 5 or 10; hierarchy, 1, 2, 3, 5 or 11
    Refused(Side, Refusal),
    // 8
    TooManyFacts,
    // 9: the counts of facts and rounds
    TooManyAnswers(usize, usize),
}

// The numbers of the refusals that are of no slice.
const FACTS: u8 = 8;

const ANSWERS: u8 = 9;

// What the C interface returns: numbers alone, since C has no such enum.
#[repr(C)]
#[derive(Clone, Copy, Default)]
pub struct Report {
    // 0 refused, 1 allow, 2 deny
    pub decision: u32,
    // 1 to 11, 0 with a decision
    pub refusal: u32,
    // 1 policy, 2 request, 3 withdrawals, 4 hierarchy, 0 none
    pub side: u32,
    pub facts: u32,
    pub rounds: u32,
    pub place: u64,
    pub answers: u64,
}

// ---- each function writes to `out` from `at` on, and answers where what it wrote ends: the buffer is lent and its bytes are promised, so no Display

fn word(out: &mut [u8], at: usize, text: &[u8]) -> usize
    requires { at + length text.now ≤ length out.old }
    ensures { Wrote out.old out.new at result (at + length text.now) (take at out.old ++ text.now) }
{
    let end = at + text.len();
    out[at..end].copy_from_slice(text);
    end
}

fn digit(value: usize) -> u8
    requires { value < 10 }
    ensures { result ≡ 48 + value }
{
    48 + value as u8
}

// The digits of n, the last of them after those of n / 10. It calls itself: the first digit is written first and found last.
#[tactic(auto, using(crate::proofs::Decimals::one_length, crate::proofs::Decimals::more_length))]
fn digits(out: &mut [u8], at: usize, n: usize) -> usize
    requires { at + length (decimal n) ≤ length out.old }
    ensures { Wrote out.old out.new at result (at + length (decimal n)) (take at out.old ++ decimal n) }
{
    if n < 10 {
        out[at] = digit(n);
        return at + 1;
    }
    let end = digits(out, at, n / 10);
    out[end] = digit(n % 10);
    end + 1
}

// A word and a number, which has 20 digits at most.
#[tactic(auto, using(crate::proofs::Decimals::twenty, crate::proofs::Lines::labelled_is))]
fn labelled(out: &mut [u8], at: usize, text: &[u8], n: usize) -> usize
    requires { at + length text.now + 20 ≤ length out.old }
    ensures { Wrote out.old out.new at result (at + length text.now + 20)
        (take at out.old ++ text.now ++ decimal n) }
{
    let end = word(out, at, text);
    digits(out, end, n)
}

// The three counts, after the decision word.
fn counted(out: &mut [u8], at: usize, facts: usize, rounds: usize, answers: usize) -> usize
    requires { at + 85 ≤ length out.old }
    ensures { Wrote out.old out.new at result (at + 85) (decision_line (take at out.old) facts rounds answers) }
{
    let mut end = labelled(out, at, b" facts ", facts);
    end = labelled(out, end, b" rounds ", rounds);
    end = labelled(out, end, b" answers ", answers);
    word(out, end, b"\n")
}

// The word of a slice, or of none.
#[tactic(auto, unfolding(crate::specs::Line::side_word))]
fn side_word(side: Option<Side>) -> &'static [u8]
    ensures is { result.now ≡ side_word (side_number side) }
    ensures short { length result.now ≤ 13 }
{
    match side {
        Some(Side::Policy) => b" policy ",
        Some(Side::Request) => b" request ",
        Some(Side::Withdrawals) => b" withdrawals ",
        Some(Side::Hierarchy) => b" hierarchy ",
        None => b" none ",
    }
}

#[tactic(auto, using(crate::proofs::Decimals::twenty))]
fn refusal(out: &mut [u8], number: u8, side: Option<Side>, place: usize) -> usize
    requires { 96 ≤ length out.old }
    ensures { Wrote out.old out.new 0 result 96 (refusal_line number (side_number side) place) }
{
    let mut end = labelled(out, 0, b"refused ", number as usize);
    end = word(out, end, side_word(side));
    end = digits(out, end, place);
    word(out, end, b"\n")
}

// Writes the line of a refusal from the input, whichever its number, as `line` does.
#[tactic(auto, unfolding(crate::specs::Line::line_of, crate::specs::Line::line_by))]
pub fn refused_line(side: Side, number: u8, place: usize, out: &mut [u8; 96]) -> usize
    ensures upper_bound { (result ≤ length out.new) × (result ≡ length (take result out.new)) }
    ensures out_after { take result out.new ≡ line_of (report (refusal number (side_of side) place) 0 0 0 [] []) }
    ensures out_unchanged { drop result out.new ≡ drop result out.old }
{
    refusal(out, number, Some(side), place)
}

// Writes the line of an outcome to the front of `out`, and answers how long it is. The first clause is for a caller who lends `out[..r]` on.
pub fn line(outcome: Outcome, out: &mut [u8; 96]) -> usize
    ensures upper_bound { (result ≤ length out.new) × (result ≡ length (take result out.new)) }
    ensures out_after { take result out.new ≡ line_of (report_of outcome [] []) }
    ensures out_unchanged { drop result out.new ≡ drop result out.old }
{
    match outcome {
        Outcome::Allow(facts, rounds, answers) => {
            let end = word(out, 0, b"allow");
            counted(out, end, facts, rounds, answers)
        }
        Outcome::Deny(facts, rounds) => {
            let end = word(out, 0, b"deny");
            counted(out, end, facts, rounds, 0)
        }
        Outcome::Refused(side, why) => refused_line(side, why.reason.number(), why.place, out),
        Outcome::TooManyFacts => refusal(out, FACTS, None, 0),
        Outcome::TooManyAnswers(_, _) => refusal(out, ANSWERS, None, 0),
    }
}
