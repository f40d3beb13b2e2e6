// The free variables of a request's nodes, and the numbers that its exists nodes bind: two walks over the tree.
ghost use Rattle.std.specs.Prelude.{◌≡◌, true, is_none};
ghost use Rattle.model.specs.Requests.{free};
ghost use Rattle.model.specs.Safety.{binders};
ghost use Rattle.phrases.specs.Marks.{none, marked};
ghost use Rattle.nodes.specs.Tree.{tree_in};
ghost use Rattle.nodes.specs.Walk.{Settled};
ghost use Rattle.safety.specs.Walks.{free_steps, binders_steps};
ghost use Rattle.safety.specs.Safety.{taken};

use super::turned;
use nodes::shape::Place;
use nodes::tree::Tree;
use nodes::walk::Visit;
use phrases::Text;
use phrases::marks::{self, Marks, NONE};

// Marks the free variables.
struct FreeVariables;

impl Visit for FreeVariables {
    type State = Marks;

    ghost steps = { λ _. free_steps };

    fn says(&self, text: Text, at: usize, marks: Marks) -> Marks {
        text.fact_marks(at + 3, text.mark_at(at + 1, marks))
    }

    fn test(&self, text: Text, at: usize, marks: Marks) -> Marks {
        text.test_marks(at + 1, marks)
    }

    fn enter(&self, _: usize, marks: Marks) -> Marks {
        marks
    }

    // "an exists binds its variable": it is marked where it was before
    fn leave(&self, variable: usize, before: Marks, marks: Marks) -> Marks {
        marks::with_mark(marks, variable, marks::mark_of(before, variable))
    }
}

// The free variables of the node at a place.
#[tactic(auto, using(crate::proofs::WalkLaws::free_walked))]
pub fn free(tree: &Tree, place: Place) -> Marks
    ensures { result ≡ marked (free (tree_in tree.now.text.signatures.now tree.now.text.bytes.now place.depth place.at)) none }
{
    tree.walk(&FreeVariables, place, NONE)
}

// "a bound number is used nowhere outside its one binder": marks each number that is bound, None where one is not new.
struct Binders;

impl Visit for Binders {
    type State = Option<Marks>;

    ghost steps = { λ _. binders_steps };

    fn says(&self, _: Text, _: usize, marks: Option<Marks>) -> Option<Marks> {
        marks
    }

    fn test(&self, _: Text, _: usize, marks: Option<Marks>) -> Option<Marks> {
        marks
    }

    fn enter(&self, variable: usize, marks: Option<Marks>) -> Option<Marks> {
        turned(marks?, variable, 0)
    }

    fn leave(&self, _: usize, _: Option<Marks>, marks: Option<Marks>) -> Option<Marks> {
        marks
    }

    #[inline(always)]
    #[tactic(auto, using(crate::proofs::WalkLaws::binders_settled))]
    fn is_settled(&self, marks: Option<Marks>) -> bool
        ensures settled { result ≡ true → Settled binders_steps marks }
        ensures told { result ≡ is_none marks }
    {
        marks.is_none()
    }
}

// With the numbers that the node at a place binds, if each is new.
#[tactic(auto, using(crate::proofs::WalkLaws::binders_walked))]
pub fn with_binders(tree: &Tree, place: Place, marks: Marks) -> Option<Marks>
    ensures { result ≡ taken (binders (tree_in tree.now.text.signatures.now tree.now.text.bytes.now place.depth place.at)) marks }
{
    tree.walk(&Binders, place, Some(marks))
}
