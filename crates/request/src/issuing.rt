// The issuers of a request's says nodes, as marks over all constants.
ghost use Rattle.std.specs.Prelude.{◌≡◌, ◌≤◌, replicate};
ghost use Rattle.model.specs.Limits.{principal};
ghost use Rattle.model.specs.Values.{of_kind};
ghost use Rattle.model.specs.Reach.{joining};
ghost use Rattle.model.specs.Requests.{issuers};
ghost use Rattle.model.specs.Readings.{expr_at};
ghost use Rattle.wire.specs.Budget.{farthest};
ghost use Rattle.phrases.specs.Marks.{marked};
ghost use Rattle.nodes.specs.Tree.{tree_in};
ghost use Rattle.request.specs.Issuing.{constants_by, world_by, issuer_steps};

use limits::{CONSTANTS, Kind};
use nodes::shape::Place;
use nodes::tree::Tree;
use nodes::walk::Visit;
use phrases::Text;
use phrases::marks::with_mark;

// A set of constants: 1 for each that is in it. Numbers and no bools, as the marks of variables (`phrases::marks`): the definitions have them so.
pub type Marks = [u8; CONSTANTS];

// "all the policy's principals join"
fn with_principals(kinds: &[u8], marks: Marks) -> Marks
    ensures { result ≡ marked (of_kind principal 0 (constants_by kinds.now)) marks }
{
    let mut joined = marks;
    for (c, kind) in kinds.iter().enumerate() {
        if Kind::of(*kind) == Some(Kind::Principal) {
            // a local of its own: the check covers no array that is laid where an argument was
            let more = with_mark(joined, c, 1);
            joined = more;
        }
    }
    joined
}

// With the issuer at `at`: a constant, or a variable.
#[tactic(auto, using(crate::proofs::IssuerSteps::issuer_steps))]
fn with_issuer(kinds: &[u8], request: &[u8], at: usize, marks: Marks) -> Marks
    requires { at ≤ farthest }
    ensures { result ≡ marked (joining (world_by kinds.now) (expr_at request.now at)) marks }
{
    let code = wire::u16_or(request, at);
    if code == limits::TODAY {
        marks
    } else if code < limits::FIRST_VARIABLE {
        with_mark(marks, code, 1)
    } else {
        with_principals(kinds, marks)
    }
}

// Marks the issuers of says nodes, by the kinds of the policy's constants.
#[derive(Drop)]
struct Joining<'a> {
    kinds: &'a [u8],
}

impl Visit for Joining<'_> {
    type State = Marks;

    ghost steps = { λ w. issuer_steps (world_by w.kinds.now) };

    fn says(&self, text: Text, at: usize, marks: Marks) -> Marks {
        with_issuer(self.kinds, text.bytes, at + 1, marks)
    }

    fn test(&self, _: Text, _: usize, marks: Marks) -> Marks {
        marks
    }

    fn enter(&self, _: usize, marks: Marks) -> Marks {
        marks
    }

    fn leave(&self, _: usize, _: Marks, marks: Marks) -> Marks {
        marks
    }
}

// The marks with the issuers of the node at a place: what is in the set stays in it.
#[tactic(auto, using(crate::proofs::IssuerSteps::issuers_walked))]
pub fn with_issuers(kinds: &[u8], tree: &Tree, place: Place, marks: Marks) -> Marks
    ensures { result ≡ marked (issuers (tree_in tree.now.text.signatures.now tree.now.text.bytes.now place.depth place.at)
        (world_by kinds.now)) marks }
{
    tree.walk(&Joining { kinds }, place, marks)
}

// The issuers of the node at a place.
pub fn issuers(kinds: &[u8], tree: &Tree, place: Place) -> Marks
    ensures { result ≡ marked (issuers (tree_in tree.now.text.signatures.now tree.now.text.bytes.now place.depth place.at)
        (world_by kinds.now)) (replicate 255 0) }
{
    with_issuers(kinds, tree, place, [0; CONSTANTS])
}
