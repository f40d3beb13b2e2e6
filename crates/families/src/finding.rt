// The families of all parents, each found once and written to the set of one entry.
// That there is room is about the lent slice, which is written into, and that a parent is a constant about the number, so each function asks it.
ghost use Rattle.std.specs.Prelude.{◌≡◌, IfSome, ◌+◌, ◌*◌, ◌≤◌, ◌<◌, length};
ghost use Rattle.model.specs.Limits.{max_links};
ghost use Rattle.model.specs.Lists.{each};
ghost use Rattle.rules.specs.Families.{most};
ghost use Rattle.families.specs.Laid.{buckets, links_in, Entered};
ghost use Rattle.families.specs.Kin.{child_in, family_in};
ghost use Rattle.families.specs.Sets.{Marks, Adds, set_at, FamilyWritten, FoundFrom, Families};

use super::entries::Entries;
use super::{BYTES, CHAINS, ENTRY, PARENT, WIDE, sets};

// Where the set of entry k stands: behind the entries and their chains.
pub fn set_at(entries: usize, k: usize) -> usize
    requires { (entries ≤ max_links) × (k < entries) }
    ensures { result ≡ set_at entries k }
{
    (ENTRY + 1) * entries + CHAINS + WIDE * k
}

// That the sets behind entry k's are found is how far the work is, and no fact about the entries, so each function asks it.
impl Entries<'_> {
    // Marks the family of a child, if it is found already: where the sets behind that of entry k are, or the child has no children itself.
    fn take_in(&self, k: usize, key: u16, child: u8, marks: &mut [u8; BYTES]) -> Option<()>
        requires { FoundFrom self.now.families.now self.now.count (k + 1) × (k < self.now.count) }
        ensures { IfSome result (λ _. Adds marks.old marks.new (family_in self.now.families.now self.now.count key child)) }
    {
        match self.owner(key, child as u16) {
            None => marks[child as usize] = 1,
            Some(i) => {
                if i <= k {
                    return None;
                }
                sets::mark_set(self.families, set_at(self.count, i), marks);
            }
        }
        Some(())
    }

    // The same for the child of an entry, if the entry has this parent.
    fn take_child(
        &self,
        k: usize,
        key: u16,
        parent: u16,
        entry: usize,
        marks: &mut [u8; BYTES],
    ) -> Option<()>
        requires { FoundFrom self.now.families.now self.now.count (k + 1) × (k < self.now.count) × (entry < self.now.count) }
        ensures { IfSome result (λ _. Adds marks.old marks.new
            (each (child_in self.now.families.now key parent entry) (family_in self.now.families.now self.now.count key))) }
    {
        if self.is_in(entry, key, parent) {
            self.take_in(k, key, self.child(entry), marks)?;
        }
        Some(())
    }

    // The marks of a parent's family: itself and the families of its children, if they are all found already.
    fn unite(&self, k: usize, key: u16, parent: u16) -> Option<[u8; BYTES]>
        requires { FoundFrom self.now.families.now self.now.count (k + 1) × (k < self.now.count) × (parent < most) }
        ensures { IfSome result (λ marks. Marks marks (family_in self.now.families.now self.now.count key parent)) }
    {
        let mut marks = [0u8; BYTES];
        marks[parent as usize] = 1;
        for i in self.under(key, parent) {
            self.take_child(k, key, parent, i - 1, &mut marks)?;
        }
        Some(marks)
    }
}

// Finds the family of a verb, position and parent, and writes it to the set of entry k. In a hierarchy whose entries go from parents to children the families
// of the children are found already, and nothing is walked.
// Slice and count stand side by side in what writes a set: the entries are lent as one for each look, and not while a set is written.
fn find(families: &mut [u16], entries: usize, k: usize, key: u16, parent: u16)
    requires { FoundFrom families.old entries (k + 1) × (k < entries) × (parent < most) }
    ensures { FamilyWritten families.old families.new entries k key parent }
{
    let laid = Entries {
        families: &*families,
        count: entries,
    };
    let marks = match laid.unite(k, key, parent) {
        Some(marks) => marks,
        None => laid.family(key, parent as u8).marks,
    };
    sets::write_set(families, set_at(entries, k), &marks);
}

// Finds the family of entry k, if it is the newest for its verb, position and parent.
fn find_one(families: &mut [u16], entries: usize, k: usize)
    requires { FoundFrom families.old entries (k + 1) × (k < entries) }
    ensures { FoundFrom families.new entries k × (links_in families.new entries ≡ links_in families.old entries) }
{
    let key = families[ENTRY * k];
    let parent = families[ENTRY * k + PARENT];
    let laid = Entries {
        families: &*families,
        count: entries,
    };
    if laid.owner(key, parent) == Some(k) {
        find(families, entries, k, key, parent);
    }
}

// Finds the family of each verb, position and parent, once, from the last entry on.
pub fn find_all(families: &mut [u16], entries: usize)
    requires { Entered families.old entries × (20 * entries + buckets < length families.old) }
    ensures { Families families.new entries × (links_in families.new entries ≡ links_in families.old entries) }
{
    for k in (0..entries).rev() {
        find_one(families, entries, k);
    }
}
