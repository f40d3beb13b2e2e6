// A request's tree of nodes. It stands alone, since a struct with a ghost field takes in all that its file cites.
ghost use Rattle.std.specs.Prelude.{◌≤◌, length};
ghost use Rattle.wire.specs.Budget.{longest};

use phrases::Text;

// The bytes that the nodes stand in, with the table of verbs that they are read by.
#[derive(Clone, Copy)]
pub struct Tree<'a> {
    pub text: Text<'a>,
    ghost short: { length text.bytes.now ≤ longest },
}
