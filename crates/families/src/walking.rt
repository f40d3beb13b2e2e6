// The family of a constant, found member by member.
ghost use Rattle.std.specs.Prelude.{◌≡◌, ◌<◌};
ghost use Rattle.rules.specs.Families.{join_all};
ghost use Rattle.families.specs.Kin.{child_in, children_in, family_in};
ghost use Rattle.families.specs.Members.{members_of};

use super::entries::Entries;
use super::family::Family;

impl Family {
    // The child of entry k joins, if the entry has this parent.
    fn join_child(&mut self, entries: &Entries, k: usize, key: u16, parent: u16)
        requires { k < entries.now.count }
        ensures { members_of self.new ≡ join_all (child_in entries.now.families.now key parent k) (members_of self.old) }
    {
        if entries.is_in(k, key, parent) {
            self.join(entries.child(k));
        }
    }

    // The children of a parent join.
    fn join_children(&mut self, entries: &Entries, key: u16, parent: u16)
        ensures { members_of self.new ≡ join_all (children_in entries.now.families.now entries.now.count key parent) (members_of self.old) }
    {
        for i in entries.under(key, parent) {
            self.join_child(entries, i - 1, key, parent);
        }
    }
}

impl Entries<'_> {
    // Finds the family of a constant, for a verb and position, member by member: each has a bucket of its own, so each of the at most 1,024 entries is looked
    // at once at most.
    pub fn family(&self, key: u16, constant: u8) -> Family
        ensures { members_of result ≡ family_in self.now.families.now self.now.count key constant }
    {
        let mut family = Family::of(constant);
        let mut k = 0;
        // the members that a turn adds get turns of their own: no range is known before
        while k < family.count {
            let parent = family.members[k] as u16;
            family.join_children(self, key, parent);
            k += 1;
        }
        family
    }
}
