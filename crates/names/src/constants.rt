// Constants: their form, which are alike, and into which bucket one falls.
ghost use Rattle.std.specs.Prelude.{◌≡◌, true, ◌+◌, ◌-◌, ◌<◌, ◌≤◌, length};
ghost use Rattle.model.specs.Bytes.{byte_at, bytes_at};
ghost use Rattle.wire.specs.Budget.{farthest};
ghost use Rattle.model.specs.Limits.{max_constants};
ghost use Rattle.model.specs.Values as values;
ghost use Rattle.model.specs.Readings.{item_end, constant_read_at};
ghost use Rattle.model.specs.Forms.{item_there, number_form, value_form};
ghost use Rattle.model.specs.Policies.{list_at, constant_item};
ghost use Rattle.slices.specs.Steps.{step, step_of};
ghost use Rattle.labels.specs.Hash.{buckets};
ghost use Rattle.names.specs.Names.{constant_right, constants_same};
ghost use Rattle.names.specs.Seeking.{constant_bucket};

use crate::named::{self, Named};
use limits::Kind;
use slices::Refusal;

// Where the parts of a constant stand behind its length byte.
const KIND: usize = 1;

const VALUE: usize = 2;

// ---- a constant, in whatever slice: `item` is the bytes that begin with it

// The item is there, and ends by the end of the bytes.
#[tactic(auto, unfolding(model::specs::Forms::item_there, model::specs::Readings::item_end, model::specs::Bytes::both, model::specs::Bytes::choose))]
pub fn item_there(item: &[u8]) -> bool
    ensures { result ≡ item_there item.now 0 }
{
    0 < item.len() && 1 + wire::byte(item, 0) <= item.len()
}

// "Kind 3 day: .. 0 to 36,524. Kind 4 quantity: .. any value."
#[tactic(auto, unfolding(model::specs::Forms::number_form, model::specs::Bytes::choose))]
fn number_form(item: &[u8]) -> bool
    requires { 6 ≤ length item.now }
    ensures { result ≡ number_form item.now 0 }
{
    match Kind::of(item[KIND]) {
        Some(Kind::Day) => wire::u32_at(item, VALUE) <= limits::LAST_DAY,
        Some(Kind::Quantity) => true,
        _ => false,
    }
}

#[tactic(auto, unfolding(model::specs::Forms::value_form, model::specs::Readings::item_end, model::specs::Bytes::both, model::specs::Bytes::choose))]
fn value_form(item: &[u8]) -> bool
    requires { (item_end item.now 0 ≤ length item.now) × (2 ≤ byte_at item.now 0) }
    ensures { result ≡ value_form item.now 0 }
{
    let n = wire::byte(item, 0);
    if labels::has_label(wire::byte(item, KIND)) {
        wire::label_form(item, VALUE, n - 1)
    } else {
        n == 5 && number_form(item)
    }
}

// The constant's form. One of right form ends by the end of the bytes.
#[tactic(auto, using(crate::proofs::FormFacts::form_tests))]
pub fn form(item: &[u8]) -> bool
    ensures form { result ≡ constant_right item.now }
    ensures within { constant_right item.now ≡ true → 1 + byte_at item.now 0 ≤ length item.now }
{
    item_there(item) && 2 <= wire::byte(item, 0) && value_form(item)
}

// Two constants of right form are alike in kind and value.
#[tactic(auto, using(crate::proofs::Buckets::constant_facts), unfolding(model::specs::Readings::item_end))]
pub fn alike(item: &[u8], other: &[u8]) -> bool
    requires { (constant_right item.now ≡ true) × (constant_right other.now ≡ true) }
    ensures { result ≡ constants_same item.now other.now }
{
    let kind = wire::byte(item, KIND);
    if kind != wire::byte(other, KIND) {
        return false;
    }
    if labels::has_label(kind) {
        let n = wire::byte(item, 0);
        n == wire::byte(other, 0) && labels::alike(item, VALUE, other, VALUE, n - 1)
    } else {
        wire::u32_at(item, VALUE) == wire::u32_at(other, VALUE)
    }
}

// Into which bucket a constant of right form falls: by its label, or by its number.
#[tactic(auto, using(crate::proofs::Buckets::constant_facts), unfolding(model::specs::Readings::item_end))]
fn bucket(item: &[u8]) -> usize
    requires { constant_right item.now ≡ true }
    ensures { (result ≡ constant_bucket (constant_read_at item.now 0)) × (result < buckets) }
{
    if labels::has_label(wire::byte(item, KIND)) {
        labels::hash(item, VALUE, wire::byte(item, 0) - 1)
    } else {
        wire::u32_at(item, VALUE) % labels::BUCKETS
    }
}

// ---- the list

// A link for each bucket and constant, and one for "none". A const argument cannot be computed, but it can be named.
const LINKS: usize = labels::BUCKETS + limits::CONSTANTS + 1;

struct Constant;

impl Named for Constant {
    ghost form_of = { constant_right };

    ghost alike_of = { constants_same };

    ghost bucket_of = { λ s. constant_bucket (constant_read_at s 0) };

    fn form(item: &[u8]) -> bool {
        form(item)
    }

    fn alike(item: &[u8], other: &[u8]) -> bool {
        alike(item, other)
    }

    #[tactic(auto, using(crate::proofs::Buckets::constants_apart))]
    fn bucket(item: &[u8]) -> usize {
        bucket(item)
    }
}

// "Constants (1 to 255, numbered from 0)", their count at `at`.
pub fn constants(bytes: &[u8], at: usize) -> Result<usize, Refusal>
    requires { at ≤ farthest }
    ensures { step_of result ≡ step (list_at bytes.now 1 max_constants (constant_item bytes.now) at) }
{
    named::list::<Constant, { limits::CONSTANTS }, { LINKS }>(bytes, 1, at)
}
