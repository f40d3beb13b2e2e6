// Labels: the one place of the code that says which are alike, and into which bucket one falls.
#![tactic(auto)]

ghost use Rattle.std.specs.Prelude.{◌≡◌, ◌+◌, ◌<◌, ◌≤◌, length};
ghost use Rattle.model.specs.Bytes.{bytes_at};
ghost use Rattle.model.specs.Readings.{has_label};
ghost use Rattle.model.specs.Values.{lower, alike};
ghost use Rattle.labels.specs.Hash.{buckets, hash_of};
ghost use Rattle.labels.specs.Largest.{largest};

use limits::Kind;

pub const BUCKETS: usize = 251;

// "Kind 1 principal and 2 thing: label"
pub fn has_label(kind: usize) -> bool
    ensures { result ≡ has_label kind }
{
    kind == Kind::Principal as usize || kind == Kind::Thing as usize
}

// "0x41 to 0x5A are read as 0x61 to 0x7A"
#[tactic(auto, unfolding(model::specs::Values::lower))]
fn lower(byte: u8) -> u8
    ensures { result ≡ lower byte }
{
    byte.to_ascii_lowercase()
}

// The label of n bytes that stands in `left` at `left_at` is alike to that in `right` at `right_at`. A byte past the end reads 0.
#[tactic(auto, using(crate::proofs::Laws::alike_same, crate::proofs::Laws::alike_other, crate::proofs::Laws::alike_end))]
pub fn alike(left: &[u8], left_at: usize, right: &[u8], right_at: usize, n: usize) -> bool
    requires { (left_at + n ≤ largest) × (right_at + n ≤ largest) }
    ensures { result ≡ alike (bytes_at n left.now left_at) (bytes_at n right.now right_at) }
{
    for i in 0..n {
        let first = wire::u8_or(left, left_at + i);
        let second = wire::u8_or(right, right_at + i);
        // only bytes that differ are made small: in alike labels most agree
        if first != second && lower(first) != lower(second) {
            return false;
        }
    }
    true
}

// The bucket of the label of n bytes that stands at `at`. Labels that are alike fall into one bucket.
#[tactic(auto, using(crate::proofs::Laws::part_taken), unfolding(crate::specs::Hash::hash_of))]
pub fn hash(bytes: &[u8], at: usize, n: usize) -> usize
    requires { at + n ≤ length bytes.now }
    ensures { (result ≡ hash_of (bytes_at n bytes.now at)) × (result < buckets) }
{
    let label = &bytes[at..at + n];
    let mut hash = 0;
    for byte in label {
        hash = (33 * hash + usize::from(lower(*byte))) % 65536;
    }
    hash % BUCKETS
}
