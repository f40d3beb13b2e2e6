// What every slice has: version and length, lists led by a count, and an end.
#![tactic(auto)]

ghost use Rattle.std.specs.Prelude.{◌≡◌, true, ◌+◌, ◌≤◌, length};
ghost use Rattle.model.specs.Policies.{version_there, length_right};
ghost use Rattle.wire.specs.Budget.{farthest, longest};
ghost use Rattle.slices.specs.Steps.{number_of, step_of, count_right, ended_at};

pub mod lists;
mod sides;

pub use sides::{Refused, Side};

// Why a slice is refused, by the numbers of docs/FORMAT.md.
#[derive(Clone, Copy, PartialEq, Eq)]
pub enum Reason {
    Version = 1,
    Length,
    Form,
    Repeated,
    Unfit,
    UnsafeAssertion,
    UnsafeRequest,
    Variable = 10,
    OwnPart,
}

// A refusal, with the place of what it refuses.
#[derive(Clone, Copy, PartialEq, Eq)]
pub struct Refusal {
    pub reason: Reason,
    pub place: usize,
}

impl Reason {
    // The refusal for this reason at a place.
    pub fn at(self, place: usize) -> Refusal
        ensures { result ≡ record { reason = self; place = place } }
    {
        Refusal {
            reason: self,
            place,
        }
    }

    pub fn number(self) -> u8
        ensures { result ≡ number_of self }
    {
        self as u8
    }
}

// "1 version absent or not 1": a slice takes the versions 1 to `latest`.
#[tactic(auto, unfolding(model::specs::Policies::version_there, model::specs::Bytes::both, model::specs::Bytes::choose))]
pub fn version_there(bytes: &[u8], latest: usize) -> bool
    ensures { result ≡ version_there latest bytes.now }
{
    match bytes.first() {
        Some(&version) => 1 <= version && usize::from(version) <= latest,
        None => false,
    }
}

// "2 length field short or wrong"
#[tactic(auto, unfolding(model::specs::Policies::length_right, model::specs::Bytes::both, model::specs::Bytes::choose))]
pub fn length_right(bytes: &[u8]) -> bool
    ensures { (result ≡ length_right bytes.now) × (result ≡ true → length bytes.now ≤ longest) }
{
    limits::HEADER <= bytes.len()
        && wire::u32_at(bytes, limits::LENGTH_AT) == bytes.len() - limits::HEADER
}

// The 2-byte count at `at` is there and in its range.
#[tactic(auto, unfolding(crate::specs::Steps::count_right, model::specs::Bytes::choose))]
pub fn count_right(bytes: &[u8], lowest: usize, highest: usize, at: usize) -> bool
    requires { at ≤ farthest }
    ensures { result ≡ count_right bytes.now lowest highest at }
{
    at + 2 <= bytes.len() && (lowest..=highest).contains(&wire::u16_at(bytes, at))
}

// "bytes left over": the place is the first of them.
#[tactic(auto, unfolding(crate::specs::Steps::ended_at, model::specs::Bytes::choose))]
pub fn ended(bytes: &[u8], at: usize) -> Result<usize, Refusal>
    ensures { step_of result ≡ ended_at bytes.now at }
{
    if at == bytes.len() {
        Ok(at)
    } else {
        Err(Reason::Form.at(at))
    }
}
