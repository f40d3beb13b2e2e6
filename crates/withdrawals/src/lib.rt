// Withdrawals (request 02): the reader of the slice, and which assertions are left.
// An entry has no length: issuer, serial, the count of its constraints, and these.
#![tactic(auto)]

ghost use Rattle.std.specs.Prelude.{◌≡◌, List, ℕ, ◌+◌, ◌<◌, ◌≤◌, length, IfOk};
ghost use Rattle.model.specs.Syntax.{Constant, Verb};
ghost use Rattle.model.specs.Bytes.{byte_at};
ghost use Rattle.model.specs.Entries.{withdrawal_end, withdrawal_form, read_withdrawals};
ghost use Rattle.wire.specs.Budget.{farthest, longest};
ghost use Rattle.kinds.specs.Cells.{feed, nothing};
ghost use Rattle.phrases.specs.Tables.{Tables};
ghost use Rattle.slices.specs.Steps.{step_of};
ghost use Rattle.slices.specs.Lists.{count_of};
ghost use Rattle.withdrawals.specs.Reading.{closed_expr, closed_by, entry_asks, check_by};

use kinds::{Cells, Term};
use limits::Kind;
use phrases::Text;
use slices::lists::{self, Reader};
use slices::{Reason, Refusal};

mod chained;
mod entry;
pub mod left;

// Where parts of an entry stand.
const ISSUER: usize = 0;

const SERIAL: usize = 2;

const COUNT: usize = 6;

const TESTS: usize = 7;

// ---- an entry, in whatever slice: `entry` is the bytes that begin with it

// How many constraints it has.
fn count(entry: &[u8]) -> usize
    ensures { (result ≡ byte_at entry.now 6) × (result < 256) }
{
    wire::byte_or(entry, COUNT)
}

// How many bytes it has.
#[tactic(auto, unfolding(model::specs::Entries::withdrawal_end))]
fn size(entry: &[u8]) -> usize
    ensures { result ≡ withdrawal_end entry.now 0 }
{
    TESTS + phrases::CONSTRAINT * count(entry)
}

// Its bytes as a text: no verb stands in it, so there is no table to read it by.
fn text(entry: &[u8]) -> Text<'_>
    ensures { result.bytes.now ≡ entry.now }
{
    Text {
        signatures: &[],
        bytes: entry,
    }
}

// It is there, with at most four constraints, whose operators have a meaning.
#[tactic(auto, unfolding(model::specs::Entries::withdrawal_form, model::specs::Bytes::choose))]
fn form(entry: &[u8]) -> bool
    ensures { result ≡ withdrawal_form entry.now 0 }
{
    if entry.len() < TESTS {
        return false;
    }
    let n = count(entry);
    n <= limits::CONSTRAINTS && size(entry) <= entry.len() && text(entry).operators_form(n, TESTS)
}

// The kinds, if some choice of them fits: the issuer is a principal, and then the constraints.
#[tactic(auto, using(kinds::proofs::Laws::feed_more, kinds::proofs::Laws::asking), unfolding(crate::specs::Reading::entry_asks))]
fn fitted(kinds: &[u8], entry: &[u8]) -> Option<Cells>
    ensures { result ≡ feed (entry_asks kinds.now entry.now) nothing }
{
    let issuer = text(entry).place_at(kinds, ISSUER)?;
    let cells = kinds::alike(kinds::nothing(), issuer, Term::Any(Kind::Principal))?;
    text(entry).tests_fit(kinds, count(entry), TESTS, cells)
}

// The expression at `at` is no variable.
fn no_variable(entry: &[u8], at: usize) -> bool
    requires { at ≤ farthest }
    ensures { result ≡ closed_expr entry.now at }
{
    wire::u16_or(entry, at) < limits::FIRST_VARIABLE
}

// None of its expressions is one: "an entry with a variable, as issuer too" is refused.
fn closed(entry: &[u8]) -> bool
    ensures { result ≡ closed_by entry.now }
{
    no_variable(entry, ISSUER)
        && (0..count(entry)).all(|i| {
            let test = TESTS + phrases::CONSTRAINT * i;
            no_variable(entry, test + 1) && no_variable(entry, test + 3)
        })
}

// How many bytes the entry has, or why it is refused, under a policy with these kinds of its constants (crate phrases, specs/Tables).
// "10 .. after 5 within its item".
#[tactic(auto, using(crate::proofs::Steps::form_within), unfolding(crate::specs::Reading::check_by))]
pub fn check(kinds: &[u8], entry: &[u8]) -> Result<usize, Reason>
    ensures read { result ≡ check_by kinds.now entry.now }
    ensures within { IfOk result (λ n. n ≤ length entry.now) }
{
    if !form(entry) {
        return Err(Reason::Form);
    }
    if fitted(kinds, entry).is_none() {
        return Err(Reason::Unfit);
    }
    if !closed(entry) {
        return Err(Reason::Variable);
    }
    Ok(size(entry))
}

// ---- the entries

// What entries are read by: the kinds of the policy's constants.
#[derive(Clone, Copy)]
struct Entries<'a> {
    kinds: &'a [u8],
}

impl Reader for Entries<'_> {
    ghost read = { λ it entry. check_by it.kinds.now entry };

    fn item(&self, bytes: &[u8]) -> Result<usize, Reason> {
        check(self.kinds, bytes)
    }
}

// How many entries the withdrawals have, under a policy with these kinds of its constants (crate phrases, specs/Tables).
#[tactic(auto, using(crate::proofs::Meaning::means))]
pub fn read(kinds: &[u8], withdrawals: &[u8]) -> Result<usize, Refusal>
    ensures meant { (cs : List Constant) (vs : List Verb) (sg : List ℕ) → Tables cs vs kinds.now sg
        → step_of result ≡ count_of (read_withdrawals cs withdrawals.now) }
    ensures short { IfOk result (λ n. length withdrawals.now ≤ longest) }
{
    let entries = Entries { kinds };
    lists::only_list(&entries, withdrawals, limits::VERSION, limits::WITHDRAWALS)
}
