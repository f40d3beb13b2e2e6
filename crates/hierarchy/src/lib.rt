// The reader of the hierarchy (request 05). An entry has 6 bytes and no length: verb, position, parent and child.
#![tactic(auto)]

ghost use Rattle.std.specs.Prelude.{◌≡◌, List, ℕ, ◌+◌, ◌*◌, ◌≤◌, length, IfOk};
ghost use Rattle.model.specs.Limits.{max_links};
ghost use Rattle.model.specs.Syntax.{Constant, Verb};
ghost use Rattle.model.specs.Entries.{read_hierarchy};
ghost use Rattle.wire.specs.Budget.{longest};
ghost use Rattle.phrases.specs.Tables.{Tables};
ghost use Rattle.slices.specs.Steps.{step_of};
ghost use Rattle.slices.specs.Lists.{count_of};
ghost use Rattle.hierarchy.specs.Links.{entry_at, told};
ghost use Rattle.hierarchy.specs.Reading.{fits_by, check_by};

use phrases::ROW;
use slices::lists::{self, Reader};
use slices::{Reason, Refusal};

// Where parts of an entry stand, and how many bytes it has.
const VERB: usize = 0;

const POSITION: usize = 1;

const PARENT: usize = 2;

const CHILD: usize = 4;

const ENTRY: usize = 6;

// ---- an entry, in whatever slice: `entry` is the bytes that begin with it

// "an entry for verb 0, for a position 0 or past the verb's arity": none of these. And parent and child are constants of the parameter's kind.
fn fits(kinds: &[u8], signatures: &[u8], entry: &[u8]) -> bool
    ensures { result ≡ fits_by kinds.now signatures.now entry.now }
{
    let verb = wire::byte_or(entry, VERB);
    let position = wire::byte_or(entry, POSITION);
    let kind = wire::byte_or(signatures, ROW * verb + position);
    verb != 0
        && position != 0
        && position < wire::byte_or(signatures, ROW * verb)
        && wire::byte_or(kinds, wire::u16_or(entry, PARENT)) == kind
        && wire::byte_or(kinds, wire::u16_or(entry, CHILD)) == kind
}

// How many bytes the entry has, or why it is refused, under a policy with these kinds of its constants and signatures of its verbs (crate phrases,
// specs/Tables).
// "A verb number past the verbs ends the reading of its item: it gives 5"; "11, parent equal to child, after 5 in its entry".
#[tactic(auto, unfolding(crate::specs::Reading::check_by))]
pub fn check(kinds: &[u8], signatures: &[u8], entry: &[u8]) -> Result<usize, Reason>
    ensures read { result ≡ check_by kinds.now signatures.now entry.now }
    ensures within { IfOk result (λ n. n ≤ length entry.now) }
{
    if entry.is_empty() {
        return Err(Reason::Form);
    }
    if wire::byte_or(signatures, ROW * wire::byte_or(entry, VERB)) == 0 {
        return Err(Reason::Unfit);
    }
    if entry.len() < ENTRY {
        return Err(Reason::Form);
    }
    if !fits(kinds, signatures, entry) {
        return Err(Reason::Unfit);
    }
    if wire::u16_or(entry, PARENT) == wire::u16_or(entry, CHILD) {
        return Err(Reason::OwnPart);
    }
    Ok(ENTRY)
}

// ---- the entries

// What entries are read by: the kinds of the policy's constants, and the signatures of its verbs.
#[derive(Clone, Copy)]
struct Entries<'a> {
    kinds: &'a [u8],
    signatures: &'a [u8],
}

impl Reader for Entries<'_> {
    ghost read = { λ it entry. check_by it.kinds.now it.signatures.now entry };

    fn item(&self, bytes: &[u8]) -> Result<usize, Reason> {
        check(self.kinds, self.signatures, bytes)
    }
}

// How many entries the hierarchy has, under a policy with these kinds of its constants and signatures of its verbs (crate phrases, specs/Tables).
#[tactic(auto, using(crate::proofs::Meaning::means))]
pub fn read(kinds: &[u8], signatures: &[u8], hierarchy: &[u8]) -> Result<usize, Refusal>
    ensures meant { (cs : List Constant) (vs : List Verb) → Tables cs vs kinds.now signatures.now
        → step_of result ≡ count_of (read_hierarchy cs vs hierarchy.now) }
    ensures short { IfOk result (λ n. length hierarchy.now ≤ longest) }
{
    let entries = Entries { kinds, signatures };
    lists::only_list(&entries, hierarchy, limits::VERSION, limits::HIERARCHY)
}

// ---- what an accepted hierarchy says

// An entry's numbers.
#[derive(Clone, Copy)]
pub struct Numbers {
    pub verb: u16,
    pub position: u16,
    pub parent: u16,
    pub child: u16,
}

// Entry k, counted from 0.
#[tactic(auto, unfolding(model::specs::Entries::link_at))]
pub fn entry_at(hierarchy: &[u8], k: usize) -> Numbers
    requires { k ≤ max_links }
    ensures { result ≡ told (entry_at hierarchy.now k) }
{
    let at = lists::FIRST_ITEM + ENTRY * k;
    Numbers {
        verb: wire::byte_or(hierarchy, at) as u16,
        position: wire::byte_or(hierarchy, at + POSITION) as u16,
        parent: wire::u16_or(hierarchy, at + PARENT) as u16,
        child: wire::u16_or(hierarchy, at + CHILD) as u16,
    }
}
