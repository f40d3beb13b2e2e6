// The entries of a hierarchy and their chains, laid out.
// That there is room is about the lent slice, which is written into, so each function asks it.
ghost use Rattle.std.specs.Prelude.{◌≡◌, ℕ, ◌+◌, ◌*◌, ◌≤◌, ◌<◌, length, get_or};
ghost use Rattle.model.specs.Limits.{max_links};
ghost use Rattle.hierarchy.specs.Links.{entry_at, links_of, Fitting, Right};
ghost use Rattle.families.specs.Laid.{buckets, links_in, Entered, written, LaidTo};

use super::{BUCKETS, CHILD, ENTRY, PARENT, POSITIONS, bucket};

// Writes entry k.
fn write(families: &mut [u16], k: usize, key: u16, parent: u16, child: u16)
    requires { 3 * k + 2 < length families.old }
    ensures { families.new ≡ written families.old k key parent child }
{
    let at = ENTRY * k;
    families[at] = key;
    families[at + PARENT] = parent;
    families[at + CHILD] = child;
}

// Lays out entry k.
fn lay_one(families: &mut [u16], hierarchy: &[u8], entries: usize, k: usize)
    requires { LaidTo families.old entries k hierarchy.now × Fitting (entry_at hierarchy.now k) × (k < entries) × (entries ≤ max_links) }
    ensures { LaidTo families.new entries (k + 1) hierarchy.now }
{
    let entry = hierarchy::entry_at(hierarchy, k);
    let key = POSITIONS * entry.verb + entry.position;
    write(families, k, key, entry.parent, entry.child);
    let bucket = bucket(key, entry.parent);
    chains::add(&mut families[ENTRY * entries..], BUCKETS, k, bucket);
}

// Lays out the entries, in the order in which they stand in the hierarchy.
pub fn lay_entries(families: &mut [u16], hierarchy: &[u8], entries: usize)
    requires { Right hierarchy.now entries × (4 * entries + buckets < length families.old) × ((i : ℕ) → get_or families.old i 0 ≡ 0) }
    ensures { Entered families.new entries × (links_in families.new entries ≡ links_of hierarchy.now entries) }
{
    for k in 0..entries {
        lay_one(families, hierarchy, entries, k);
    }
}
