// One entry of the slice. It stands alone, since a struct with a ghost field takes in all that its file cites.
ghost use Rattle.std.specs.Prelude.{◌+◌, ◌≤◌};
ghost use Rattle.wire.specs.Budget.{farthest};

// Where it begins in the bytes.
#[derive(Clone, Copy)]
pub struct Entry<'a> {
    pub bytes: &'a [u8],
    pub at: usize,
    ghost near: { at + 2048 ≤ farthest },
}
