// The slices, and their refusals.
ghost use Rattle.std.specs.Prelude.{◌≡◌, ◌≤◌};
ghost use Rattle.slices.specs.Sides.{side_of, on_side};

use super::Refusal;

// The slices, by the numbers of docs/FORMAT.md.
#[derive(Clone, Copy, PartialEq, Eq)]
pub enum Side {
    Policy = 1,
    Request,
    Withdrawals,
    Hierarchy,
}

// A refusal, and of which slice.
#[derive(Clone, Copy, PartialEq, Eq)]
pub struct Refused {
    pub side: Side,
    pub refusal: Refusal,
}

impl Side {
    // What the reader of this slice says.
    pub fn says<T>(self, read: Result<T, Refusal>) -> Result<T, Refused>
        ensures { result ≡ on_side self read }
    {
        read.map_err(|refusal| Refused {
            side: self,
            refusal,
        })
    }

    pub fn number(self) -> u8
        ensures { (result ≡ side_of self) × (1 ≤ result) × (result ≤ 4) }
    {
        self as u8
    }
}
