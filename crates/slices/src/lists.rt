// Lists led by a count, whatever their items, and slices that are one such list.
ghost use Rattle.std.specs.Prelude.{◌≡◌, List, ℕ, ◌+◌, ◌≤◌, length, IfOk, Result};
ghost use Rattle.model.specs.Limits.{header_bytes};
ghost use Rattle.wire.specs.Budget.{farthest, longest};
ghost use Rattle.slices.specs.declared.Reason.{Reason};
ghost use Rattle.slices.specs.Steps.{step_of};
ghost use Rattle.slices.specs.Lists.{items_by, list_by, headed_at, only_list_by};

use super::{Reason, Refusal, count_right, ended, length_right, version_there};
use limits::HEADER;

// Where the first item stands in a slice that begins with a list: behind the 2-byte count.
pub const FIRST_ITEM: usize = HEADER + 2;

// What reads the items of a list. It is lent what begins with an item, and does not know where in a slice that stands.
pub trait Reader {
    // what the bytes that begin with an item say of it
    ghost read: { Self → List ℕ → Result ℕ Reason };

    // The item that the bytes begin with: how many bytes it has, or why it is refused.
    fn item(&self, bytes: &[u8]) -> Result<usize, Reason>
        requires { length bytes.now ≤ longest }
        ensures read { result ≡ read self.now bytes.now }
        ensures within { IfOk result (λ n. n ≤ length bytes.now) };
}

// `count` items from `at` on.
#[tactic(auto, using(crate::proofs::ListSteps::items_none))]
fn items<R: Reader>(reader: &R, bytes: &[u8], count: usize, at: usize) -> Result<usize, Refusal>
    requires { (at ≤ length bytes.now) × (length bytes.now ≤ longest) }
    ensures { step_of result ≡ items_by (R.read reader.now) bytes.now count at }
{
    let mut here = at;
    for _ in 0..count {
        match reader.item(&bytes[here..]) {
            Ok(n) => here += n,
            Err(reason) => return Err(reason.at(here)),
        }
    }
    Ok(here)
}

// The list whose count stands at `at`, with nothing left over after its items.
#[tactic(auto, using(crate::proofs::ListFacts::count_there), unfolding(crate::specs::Lists::list_by, crate::specs::Steps::then_step))]
pub fn list<R: Reader>(
    reader: &R,
    bytes: &[u8],
    lowest: usize,
    highest: usize,
    at: usize,
) -> Result<usize, Refusal>
    requires { (at ≤ farthest) × (length bytes.now ≤ longest) }
    ensures { step_of result ≡ list_by (R.read reader.now) bytes.now lowest highest at }
{
    if !count_right(bytes, lowest, highest, at) {
        return Err(Reason::Form.at(at));
    }
    let count = wire::u16_or(bytes, at);
    ended(bytes, items(reader, bytes, count, at + 2)?)
}

// Version and length are in order: what the slice says begins behind them.
#[tactic(auto, unfolding(crate::specs::Lists::headed_at))]
pub fn headed(bytes: &[u8], latest: usize) -> Result<usize, Refusal>
    ensures step { step_of result ≡ headed_at latest bytes.now }
    ensures short { IfOk result (λ at. (at ≡ header_bytes) × (length bytes.now ≤ longest)) }
{
    if !version_there(bytes, latest) {
        return Err(Reason::Version.at(0));
    }
    if !length_right(bytes) {
        return Err(Reason::Length.at(limits::LENGTH_AT));
    }
    Ok(HEADER)
}

// A slice that is one list of up to `most` items: how many there are.
#[tactic(auto, unfolding(crate::specs::Lists::only_list_by, crate::specs::Steps::then_step))]
pub fn only_list<R: Reader>(
    reader: &R,
    bytes: &[u8],
    latest: usize,
    most: usize,
) -> Result<usize, Refusal>
    ensures step { step_of result ≡ only_list_by (R.read reader.now) bytes.now latest most }
    ensures short { IfOk result (λ n. length bytes.now ≤ longest) }
{
    let at = headed(bytes, latest)?;
    list(reader, bytes, 0, most, at)?;
    Ok(wire::u16_or(bytes, at))
}
