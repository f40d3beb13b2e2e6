// The policy reader: accepted, with where everything stands, or refusal 1 to 6 with its place. And the label of a constant.
#![tactic(auto)]

ghost use Rattle.std.specs.Prelude.{◌≡◌, ◌+◌, ◌≤◌, length};
ghost use Rattle.model.specs.Bytes.{u16_at};
ghost use Rattle.model.specs.Limits.{max_constants, max_verbs, max_assertions};
ghost use Rattle.model.specs.Policies.{read_policy};
ghost use Rattle.wire.specs.Budget.{longest};
ghost use Rattle.policy.specs.Index.{empty, with_tables, index_at, handed_out, said, label_of, label_part};

use slices::Refusal;
use slices::lists::FIRST_ITEM;

pub mod tables;

// What a policy's reader hands out. There is no heap: each list is an array of fixed length, and how many of its numbers count stands beside it.
#[derive(Clone, Copy)]
pub struct Index {
    // as read
    pub version: usize,
    // how many there are
    pub constants: usize,
    pub verbs: usize,
    pub assertions: usize,
    // the first byte of each; those of assertions are for hosts in Rattle, as the definitions have them (specs/Index), and nothing here reads them
    pub constant_at: [usize; limits::CONSTANTS],
    pub verb_at: [usize; limits::VERBS],
    pub assertion_at: [usize; limits::ASSERTIONS],
    // and of each assertion's issuer, which others take it by
    pub issuer_at: [usize; limits::ASSERTIONS],
    // the kind of each constant, and four bytes for each verb from verb 0 on: arity and one, then the kinds of its parameters
    pub kinds: [u8; limits::CONSTANTS],
    pub signatures: [u8; tables::SIGNATURES],
}

// Nothing is read yet: this is what a reader is lent.
#[inline(always)]
#[tactic(auto, unfolding(crate::specs::Index::with_tables))]
pub fn empty() -> Index
    ensures { result ≡ empty }
{
    Index {
        version: 0,
        constants: 0,
        verbs: 0,
        assertions: 0,
        constant_at: [0; limits::CONSTANTS],
        verb_at: [0; limits::VERBS],
        assertion_at: [0; limits::ASSERTIONS],
        issuer_at: [0; limits::ASSERTIONS],
        kinds: [0; limits::CONSTANTS],
        signatures: [0; tables::SIGNATURES],
    }
}

// Everything is in order: the verbs' count stands at `second`, the assertions' at `third`. What assertions are read by is there already.
fn put_offsets(index: &mut Index, policy: &[u8], second: usize, third: usize)
    requires { (index.old ≡ with_tables index.old.kinds index.old.signatures) × (second ≤ length policy.now) × (third ≤ length policy.now)
        × (length policy.now ≤ longest) × (u16_at policy.now 5 ≤ max_constants) × (u16_at policy.now second ≤ max_verbs)
        × (u16_at policy.now third ≤ max_assertions) }
    ensures { index.new ≡ index_at policy.now second third index.old.kinds index.old.signatures }
{
    let constants = wire::u16_or(policy, limits::HEADER);
    let verbs = wire::u16_or(policy, second);
    let assertions = wire::u16_or(policy, third);
    index.version = wire::byte_or(policy, 0);
    index.constants = constants;
    index.verbs = verbs;
    index.assertions = assertions;
    tables::put_items(&mut index.constant_at, policy, constants, FIRST_ITEM);
    tables::put_items(&mut index.verb_at, policy, verbs, second + 2);
    tables::put_assertions(&mut index.assertion_at, policy, assertions, third + 2);
    tables::put_issuers(&mut index.issuer_at, policy, assertions, third + 2);
}

// The policy that these bytes hold, into an index that is lent empty: by value its seven thousand bytes would be copied from call to call.
pub fn read(policy: &[u8], index: &mut Index) -> Result<(), Refusal>
    requires { index.old ≡ empty }
    ensures { said result index.new ≡ handed_out (read_policy policy.now) }
{
    slices::lists::headed(policy, limits::POLICY_VERSIONS)?;
    let second = names::constants::constants(policy, limits::HEADER)?;
    let third = names::verbs::verbs(policy, second)?;
    let constants = wire::u16_or(policy, limits::HEADER);
    tables::put_kinds(&mut index.kinds, policy, constants, FIRST_ITEM);
    let verbs = wire::u16_or(policy, second);
    tables::put_signatures(&mut index.signatures, policy, verbs, second + 2);
    assertions::assertions(&index.kinds, &index.signatures, policy, third)?;
    put_offsets(index, policy, second, third);
    Ok(())
}

// A part of the policy's bytes.
#[derive(Clone, Copy)]
pub struct Part {
    pub from: usize,
    pub to: usize,
}

// Where the label of the constant stands; an empty part at 0 where there is none. A function of its own, since only so a contract speaks of the place.
// No Option: where there is none an empty part is handed out, cut like any other.
#[tactic(auto, unfolding(crate::specs::Index::label_part))]
fn label_part(policy: &[u8], constant: usize) -> Part
    ensures { result ≡ label_part (handed_out (read_policy policy.now)) policy.now constant }
{
    let mut index = empty();
    match read(policy, &mut index) {
        Ok(()) => {
            if constant < index.constants && labels::has_label(index.kinds[constant] as usize) {
                let at = index.constant_at[constant];
                return Part {
                    from: at + 2,
                    to: at + 1 + wire::byte_or(policy, at),
                };
            }
            Part { from: 0, to: 0 }
        }
        Err(_) => Part { from: 0, to: 0 },
    }
}

// The label of a principal or a thing: that part of the policy's bytes. An empty part for other kinds, numbers not present and policies not accepted.
pub fn label(policy: &[u8], constant: usize) -> &[u8]
    ensures { result.now ≡ label_of policy.now constant }
{
    let part = label_part(policy, constant);
    &policy[part.from..part.to]
}
