// The entries of a hierarchy and their chains. It stands alone, since a struct with a ghost field takes in all that its file cites.
ghost use Rattle.std.specs.Prelude.{◌≡◌, true, [], ◌+◌, ◌*◌, ◌<◌, get_or, drop};
ghost use Rattle.chains.specs.Chains.{walk};
ghost use Rattle.families.specs.Laid.{buckets, bucket_with, Entered, Entered-prop};
ghost use Rattle.families.specs.Kin.{is_in, children_in};
ghost use Rattle.families.specs.Sets.{owner_in};

use super::{BUCKETS, CHILD, ENTRY, PARENT, bucket};
use chains::Chain;

// The first `count` entries in the slice, and behind them their chains by verb, position and parent.
#[derive(Clone, Copy)]
pub struct Entries<'a> {
    pub families: &'a [u16],
    pub count: usize,
    ghost entered: { Entered families.now count } by { Entered-prop families.now count },
}

// That k is an entry is about k, not about the entries, so each function asks it; key and parent are two numbers of one entry, often one to be found.
impl Entries<'_> {
    // Entry k is for this verb and position, and has this parent.
    #[tactic(auto, unfolding(crate::specs::Kin::is_in))]
    pub fn is_in(&self, k: usize, key: u16, parent: u16) -> bool
        requires { k < self.now.count }
        ensures { result ≡ is_in self.now.families.now key parent k }
    {
        self.families[ENTRY * k] == key && self.families[ENTRY * k + PARENT] == parent
    }

    // The child of entry k.
    pub fn child(&self, k: usize) -> u8
        requires { k < self.now.count }
        ensures { result ≡ get_or self.now.families.now (3 * k + 2) 0 }
    {
        self.families[ENTRY * k + CHILD] as u8
    }

    // The entries that can be for a verb and position and have a parent, the newest first: those of one bucket, whose numbers begin at 1.
    #[inline(always)]
    pub fn under(&self, key: u16, parent: u16) -> Chain<'_>
        ensures { result ≡ walk (drop (3 * self.now.count) self.now.families.now) buckets
            (get_or (drop (3 * self.now.count) self.now.families.now) (bucket_with key parent) 0) }
    {
        chains::bucket(
            &self.families[ENTRY * self.count..],
            BUCKETS,
            bucket(key, parent),
        )
    }

    // The newest entry for a verb and position and a parent. Its set has their family.
    pub fn owner(&self, key: u16, parent: u16) -> Option<usize>
        ensures { result ≡ owner_in self.now.families.now self.now.count key parent }
    {
        for i in self.under(key, parent) {
            if self.is_in(i - 1, key, parent) {
                return Some(i - 1);
            }
        }
        None
    }

    // No entry stands in the bucket of this verb, position and constant: the constant has no children.
    pub fn childless(&self, key: u16, constant: u16) -> bool
        ensures { result ≡ true → children_in self.now.families.now self.now.count key constant ≡ [] }
    {
        self.under(key, constant).next().is_none()
    }
}
