// One assertion by its own bytes. It stands alone, since a struct with a ghost field takes in all that its file cites.
ghost use Rattle.std.specs.Prelude.{◌≡◌, ◌+◌, ◌≤◌, length};
ghost use Rattle.std.proofs.Props.{props};
ghost use Rattle.wire.specs.Budget.{longest};
ghost use Rattle.phrases.specs.Phrases.{fact_next};
ghost use Rattle.assertions.specs.Assertions.{head_place, tests_by};

use phrases::Text;

// Its bytes, from the two of its length to where this says that it ends; and where the counts of its body facts and of its constraints stand, for kinds and
// safety: the reader of its form finds both by itself, as it does not know yet that they are there.
#[derive(Clone, Copy)]
pub struct Item<'a> {
    pub text: Text<'a>,
    pub body: usize,
    pub tests: usize,
    ghost short: { length text.bytes.now ≤ longest },
    ghost body_there: { body ≡ fact_next text.signatures.now text.bytes.now head_place } by { Prim.hlevel props },
    ghost body_near: { body ≤ longest + 4096 },
    ghost tests_there: { tests ≡ tests_by text.signatures.now text.bytes.now body } by { Prim.hlevel props },
    ghost tests_near: { tests ≤ longest + 1048576 },
}
