// What later stages read of a policy: where its items begin, the kind of each constant, and arity and kinds of each verb.
ghost use Rattle.std.specs.Prelude.{◌≡◌, ℕ, [], ◌∷◌, map, ◌+◌, ◌*◌, ◌≤◌, length};
ghost use Rattle.std.proofs.lemmas.List.Edits.{sets};
ghost use Rattle.model.specs.Limits.{max_verbs};
ghost use Rattle.model.specs.Lists.{each};
ghost use Rattle.model.specs.Readings.{item_end, assertion_end};
ghost use Rattle.wire.specs.Budget.{farthest};
ghost use Rattle.slices.specs.Items.{starts_at};
ghost use Rattle.assertions.specs.Assertions.{issuer_read_at};
ghost use Rattle.policy.specs.Index.{kind_of, row_at};

use phrases::ROW;

// The rows of all verbs, verb 0 first.
pub const SIGNATURES: usize = ROW * (1 + limits::VERBS);

const ACTED_AS: u8 = limits::Kind::Principal as u8;

// Where the constant or verb at `at` ends.
#[tactic(auto, unfolding(model::specs::Readings::item_end))]
fn item_end(policy: &[u8], at: usize) -> usize
    requires { at ≤ farthest }
    ensures { (result ≡ item_end policy.now at) × (result ≤ at + 256) }
{
    at + 1 + wire::byte_or(policy, at)
}

// Where the assertion at `at` ends.
#[tactic(auto, unfolding(model::specs::Readings::assertion_end))]
fn assertion_end(policy: &[u8], at: usize) -> usize
    requires { at ≤ farthest }
    ensures { (result ≡ assertion_end policy.now at) × (result ≤ at + 65537) }
{
    at + 2 + wire::u16_or(policy, at)
}

// ---- put down from the front of a lent slice on; what stands past the last stays

// Policy, count and place are no struct: one would be made for each of the calls from outside, and taken apart at once.
// Where `count` items begin, the first at `from` and each other where `end` says that the one before it ends.
fn put_offsets<const MOST: usize, F: Fn(usize) -> usize>(
    table: &mut [usize],
    count: usize,
    from: usize,
    end: F,
)
    requires few { (count ≤ length table.old) × (from + MOST * count ≤ farthest) }
    requires callable { (at : ℕ) → at ≤ farthest → F.pre end at }
    requires near { (at next : ℕ) → F.post end at next → next ≤ at + MOST }
    ensures { (g : ℕ → ℕ) → ((at next : ℕ) → F.post end at next → next ≡ g at) → table.new ≡ sets table.old 0 (starts_at g count from) }
{
    let mut at = from;
    for i in 0..count {
        table[i] = at;
        at = end(at);
    }
}

// Where `count` constants or verbs from `from` on begin.
pub fn put_items(table: &mut [usize], policy: &[u8], count: usize, from: usize)
    requires { (count ≤ length table.old) × (from + 256 * count ≤ farthest) }
    ensures { table.new ≡ sets table.old 0 (starts_at (item_end policy.now) count from) }
{
    put_offsets::<256, _>(table, count, from, |at| item_end(policy, at));
}

// Where `count` assertions from `from` on begin.
pub fn put_assertions(table: &mut [usize], policy: &[u8], count: usize, from: usize)
    requires { (count ≤ length table.old) × (from + 65537 * count ≤ farthest) }
    ensures { table.new ≡ sets table.old 0 (starts_at (assertion_end policy.now) count from) }
{
    put_offsets::<65537, _>(table, count, from, |at| assertion_end(policy, at));
}

// This and the loops below stand apart: each writes something else of an item, and a function over a second closure is no shorter.
// Where the issuers of `count` assertions from `from` on stand.
pub fn put_issuers(table: &mut [usize], policy: &[u8], count: usize, from: usize)
    requires { (count ≤ length table.old) × (from + 65537 * count + 6 ≤ farthest) }
    ensures { table.new ≡ sets table.old 0 (map issuer_read_at (starts_at (assertion_end policy.now) count from)) }
{
    let mut at = from;
    for i in 0..count {
        table[i] = at + assertions::ISSUER;
        at = assertion_end(policy, at);
    }
}

// The kind of each of `count` constants from `from` on.
pub fn put_kinds(table: &mut [u8], policy: &[u8], count: usize, from: usize)
    requires { (count ≤ length table.old) × (from + 256 * count + 2 ≤ farthest) }
    ensures { table.new ≡ sets table.old 0 (map (kind_of policy.now) (starts_at (item_end policy.now) count from)) }
{
    let mut at = from;
    for i in 0..count {
        table[i] = wire::u8_or(policy, at + 1);
        at = item_end(policy, at);
    }
}

// The row of the verb at `at`: its arity and one, and the kinds of its parameters.
#[tactic(auto, unfolding(crate::specs::Index::row_at, model::specs::Bytes::choose))]
fn row(policy: &[u8], at: usize) -> [u8; ROW]
    requires { at + 4 ≤ farthest }
    ensures { result ≡ row_at policy.now at }
{
    let first = wire::u8_or(policy, at + 2);
    let second = wire::u8_or(policy, at + 3);
    match wire::byte_or(policy, at + 1) {
        0 => [1, 0, 0, 0],
        1 => [2, first, 0, 0],
        2 => [3, first, second, 0],
        _ => [4, first, second, wire::u8_or(policy, at + 4)],
    }
}

// The row of each verb: verb 0, "can act as", has one principal parameter, and `count` verbs from `from` on stand behind it.
pub fn put_signatures(table: &mut [u8; SIGNATURES], policy: &[u8], count: usize, from: usize)
    requires { (count ≤ max_verbs) × (from + 256 * count + 4 ≤ farthest) }
    ensures { table.new ≡ sets (sets table.old 0 (2 ∷ 1 ∷ [])) 4 (each (starts_at (item_end policy.now) count from) (row_at policy.now)) }
{
    table[0] = 2;
    table[1] = ACTED_AS;
    let mut at = from;
    for i in 0..count {
        table[ROW * i + 4..ROW * i + 8].copy_from_slice(&row(policy, at));
        at = item_end(policy, at);
    }
}
