// A family under way. It stands alone, since a struct with a ghost field takes in all that its file cites.
ghost use Rattle.std.specs.Prelude.{◌≡◌, [], ◌∷◌, take};
ghost use Rattle.rules.specs.Families.{joined};
ghost use Rattle.families.specs.Kin.{Holds, Holds-prop};

use super::{BYTES, MOST};

// The members, the first `count` of the array, the nearest first, and a mark for each of them. Marks are 0 and 1: a set is packed from them as bits, and so the
// definitions have them (`Sets.bit_of`).
#[derive(Clone, Copy)]
pub struct Family {
    pub members: [u8; BYTES],
    pub marks: [u8; BYTES],
    pub count: usize,
    ghost held: { Holds members marks count (take count members) } by { Holds-prop members marks count (take count members) },
}

impl Family {
    ghost use Rattle.families.specs.Members.{members_of};

    // One member alone.
    pub fn of(member: u8) -> Family
        ensures { members_of result ≡ member ∷ [] }
    {
        let mut members = [0u8; BYTES];
        let mut marks = [0u8; BYTES];
        members[0] = member;
        marks[member as usize] = 1;
        Family {
            members,
            marks,
            count: 1,
        }
    }

    // One more at the end, unless it is there.
    pub fn join(&mut self, member: u8)
        ensures { members_of self.new ≡ joined (members_of self.old) member }
    {
        let at = member as usize;
        if self.marks[at] == 0 && self.count < MOST {
            self.members[self.count] = member;
            self.marks[at] = 1;
            self.count += 1;
        }
    }
}
