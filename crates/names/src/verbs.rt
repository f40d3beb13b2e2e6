// Verbs: their form, which have labels that are alike, and into which bucket one falls.
ghost use Rattle.std.specs.Prelude.{◌≡◌, true, ◌+◌, ◌-◌, ◌<◌, ◌≤◌, length};
ghost use Rattle.model.specs.Bytes.{byte_at, bytes_at};
ghost use Rattle.model.specs.Limits.{max_verbs};
ghost use Rattle.model.specs.Lists.{all};
ghost use Rattle.model.specs.Readings.{item_end, verb_at};
ghost use Rattle.model.specs.Forms.{is_kind, signature_form};
ghost use Rattle.model.specs.Policies.{list_at, verb_item};
ghost use Rattle.wire.specs.Budget.{farthest};
ghost use Rattle.slices.specs.Steps.{step, step_of};
ghost use Rattle.labels.specs.Hash.{buckets};
ghost use Rattle.names.specs.Names.{verb_right, verbs_same};
ghost use Rattle.names.specs.Seeking.{verb_bucket};

use crate::constants;
use crate::named::{self, Named};
use limits::Kind;
use slices::Refusal;

// Where the parts of a verb stand behind its length byte; its label stands behind the kinds.
const ARITY: usize = 1;

const KINDS: usize = 2;

// ---- a verb, in whatever slice: `item` is the bytes that begin with it

fn is_kind(kind: u8) -> bool
    ensures { result ≡ is_kind kind }
{
    Kind::of(kind).is_some()
}

// "one kind byte per parameter"
fn kinds_form(item: &[u8], arity: usize) -> bool
    requires { 2 + arity ≤ length item.now }
    ensures { result ≡ all is_kind (bytes_at arity item.now 2) }
{
    item[KINDS..KINDS + arity].iter().all(|kind| is_kind(*kind))
}

// Arity, kinds and label of the verb, whose item fits.
#[tactic(auto, unfolding(model::specs::Forms::signature_form, model::specs::Readings::item_end, model::specs::Bytes::both, model::specs::Bytes::choose))]
fn signature_form(item: &[u8]) -> bool
    requires { (item_end item.now 0 ≤ length item.now) × (1 ≤ byte_at item.now 0) }
    ensures { result ≡ signature_form item.now 0 }
{
    let n = wire::byte(item, 0);
    let arity = wire::byte(item, ARITY);
    arity <= limits::ARITY
        && 1 + arity <= n
        && kinds_form(item, arity)
        && wire::label_form(item, KINDS + arity, n - 1 - arity)
}

// The verb's form. One of right form ends by the end of the bytes.
#[tactic(auto, using(crate::proofs::FormFacts::form_tests))]
pub fn form(item: &[u8]) -> bool
    ensures form { result ≡ verb_right item.now }
    ensures within { verb_right item.now ≡ true → 1 + byte_at item.now 0 ≤ length item.now }
{
    constants::item_there(item) && 1 <= wire::byte(item, 0) && signature_form(item)
}

// The labels of two verbs of right form are alike.
#[tactic(auto, using(crate::proofs::Buckets::verb_facts), unfolding(model::specs::Readings::item_end))]
pub fn alike(item: &[u8], other: &[u8]) -> bool
    requires { (verb_right item.now ≡ true) × (verb_right other.now ≡ true) }
    ensures { result ≡ verbs_same item.now other.now }
{
    let arity = wire::byte(item, ARITY);
    let n = wire::byte(item, 0) - 1 - arity;
    let b = wire::byte(other, ARITY);
    n + 1 + b == wire::byte(other, 0) && labels::alike(item, KINDS + arity, other, KINDS + b, n)
}

// Into which bucket a verb of right form falls: by its label.
#[tactic(auto, using(crate::proofs::Buckets::verb_facts), unfolding(model::specs::Readings::item_end))]
fn bucket(item: &[u8]) -> usize
    requires { verb_right item.now ≡ true }
    ensures { (result ≡ verb_bucket (verb_at item.now 0)) × (result < buckets) }
{
    let arity = wire::byte(item, ARITY);
    labels::hash(item, KINDS + arity, wire::byte(item, 0) - 1 - arity)
}

// ---- the list

// A link for each bucket and verb, and one for "none".
const LINKS: usize = labels::BUCKETS + limits::VERBS + 1;

struct Verb;

impl Named for Verb {
    ghost form_of = { verb_right };

    ghost alike_of = { verbs_same };

    ghost bucket_of = { λ s. verb_bucket (verb_at s 0) };

    fn form(item: &[u8]) -> bool {
        form(item)
    }

    fn alike(item: &[u8], other: &[u8]) -> bool {
        alike(item, other)
    }

    #[tactic(auto, using(crate::proofs::Buckets::verbs_apart))]
    fn bucket(item: &[u8]) -> usize {
        bucket(item)
    }
}

// "Verbs (0 to 64, numbered from 1)", their count at `at`.
pub fn verbs(bytes: &[u8], at: usize) -> Result<usize, Refusal>
    requires { at ≤ farthest }
    ensures { step_of result ≡ step (list_at bytes.now 0 max_verbs (verb_item bytes.now) at) }
{
    named::list::<Verb, { limits::VERBS }, { LINKS }>(bytes, 0, at)
}
