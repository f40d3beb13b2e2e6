// A list of names, whatever they are: the form of each (3), and whether one is alike to an earlier one (4). The names before one are listed by
// where they stand, and those that fall into one bucket are chained, so that only these are compared.
ghost use Rattle.std.specs.Prelude.{◌≡◌, ◌≢◌, true, false, [], List, ℕ, Bool, ◌+◌, ◌<◌, ◌≤◌, length, drop, IfOk};
ghost use Rattle.wire.specs.Budget.{farthest};
ghost use Rattle.model.specs.Bytes.{byte_at};
ghost use Rattle.model.specs.Lists.{any};
ghost use Rattle.slices.specs.Steps.{step_of};
ghost use Rattle.labels.specs.Hash.{buckets};
ghost use Rattle.chains.specs.Offsets.{ChainedBy};
ghost use Rattle.names.specs.Names.{size_of, name_by, names_by, name_list};
ghost use Rattle.names.specs.Seeking.{Listed};

use slices::{Reason, Refusal};

// What a name is: an item led by its length byte. All is asked of the bytes that begin with it, in whatever slice.
pub trait Named {
    // the bytes begin with an item of right form
    ghost form_of: { List ℕ → Bool };

    // the items that two slices begin with are alike
    ghost alike_of: { List ℕ → List ℕ → Bool };

    // into which bucket an item falls
    ghost bucket_of: { List ℕ → ℕ };

    // The item's form. An item of right form ends by the end of the bytes.
    fn form(item: &[u8]) -> bool
        ensures form { result ≡ form_of item.now }
        ensures within { form_of item.now ≡ true → 1 + byte_at item.now 0 ≤ length item.now };

    // Two items of right form are alike.
    fn alike(item: &[u8], other: &[u8]) -> bool
        requires { (form_of item.now ≡ true) × (form_of other.now ≡ true) }
        ensures { result ≡ alike_of item.now other.now };

    // Into which bucket an item of right form falls. No item of another bucket is alike to it.
    fn bucket(item: &[u8]) -> usize
        requires { form_of item.now ≡ true }
        ensures bucket { result ≡ bucket_of item.now }
        ensures below { result < buckets }
        ensures alone { (other : List ℕ) → bucket_of other ≢ bucket_of item.now → alike_of item.now other ≡ false };
}

// A name that is taken: how many bytes it has, and its bucket, by which it was sought and is listed.
#[derive(Clone, Copy)]
struct Taken {
    size: usize,
    bucket: usize,
}

// One of the names that stand at `ats` in the bytes is alike to the item, which falls into this bucket: none of another bucket is.
#[tactic(auto, using(chains::proofs::Offsets::looking))]
fn seen<N: Named>(item: &[u8], bucket: usize, bytes: &[u8], ats: &[usize], links: &[u16]) -> bool
    requires { (N.form_of item.now ≡ true) × Listed N.form_of N.bucket_of bytes.now ats.now links.now × (bucket < buckets)
        × ((other : List ℕ) → N.bucket_of other ≢ bucket → N.alike_of item.now other ≡ false) }
    ensures { result ≡ any (λ at. N.alike_of item.now (drop at bytes.now)) ats.now }
{
    for i in chains::bucket(links, labels::BUCKETS, bucket) {
        if N::alike(item, &bytes[ats[i - 1]..]) {
            return true;
        }
    }
    false
}

// The item, after the names that stand at `ats` in the bytes.
#[tactic(auto, unfolding(crate::specs::Names::name_by, model::specs::Readings::item_end))]
fn name<N: Named>(item: &[u8], bytes: &[u8], ats: &[usize], links: &[u16]) -> Result<Taken, Reason>
    requires { Listed N.form_of N.bucket_of bytes.now ats.now links.now }
    ensures read { size_of result ≡ name_by N.form_of N.alike_of bytes.now ats.now item.now }
    ensures taken { IfOk result (λ x. (x.size ≤ length item.now) × (x.bucket ≡ N.bucket_of item.now) × (x.bucket < buckets)) }
{
    if !N::form(item) {
        return Err(Reason::Form);
    }
    let bucket = N::bucket(item);
    if seen::<N>(item, bucket, bytes, ats, links) {
        return Err(Reason::Repeated);
    }
    Ok(Taken {
        size: 1 + wire::byte(item, 0),
        bucket,
    })
}

// `count` names from `from` on, which are listed in their turn.
fn names<N: Named>(
    bytes: &[u8],
    count: usize,
    from: usize,
    ats: &mut [usize],
    links: &mut [u16],
) -> Result<usize, Refusal>
    requires { ChainedBy (λ at. N.bucket_of (drop at bytes.now)) links.old buckets ats.old 0
        × (count ≤ length ats.old) × (buckets + count < length links.old) × (count ≤ 65535) × (from ≤ length bytes.now) }
    ensures { step_of result ≡ names_by N.form_of N.alike_of bytes.now count [] from }
{
    let mut at = from;
    for k in 0..count {
        match name::<N>(&bytes[at..], bytes, &ats[..k], links) {
            Ok(taken) => {
                ats[k] = at;
                chains::add(links, labels::BUCKETS, k, taken.bucket);
                at += taken.size;
            }
            Err(reason) => return Err(reason.at(at)),
        }
    }
    Ok(at)
}

// A list of at most MOST names, whose count stands at `at`. A chain of names has a link for each, and one for "none".
pub fn list<N: Named, const MOST: usize, const LINKS: usize>(
    bytes: &[u8],
    lowest: usize,
    at: usize,
) -> Result<usize, Refusal>
    requires { (at ≤ farthest) × (MOST ≤ 65535) × (buckets + MOST < LINKS) × (LINKS ≤ 65535) }
    ensures { step_of result ≡ name_list N.form_of N.alike_of bytes.now lowest MOST at }
{
    if !slices::count_right(bytes, lowest, MOST, at) {
        return Err(Reason::Form.at(at));
    }
    let mut ats = [0; MOST];
    let mut links = [0; LINKS];
    names::<N>(bytes, wire::u16_at(bytes, at), at + 2, &mut ats, &mut links)
}
