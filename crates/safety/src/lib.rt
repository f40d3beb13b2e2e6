// Safe requests. A set of variables is eight marks (`phrases::marks` says why they are numbers); where a node is not safe, None is known after it.
#![tactic(auto)]

ghost use Rattle.std.specs.Prelude.{◌≡◌, ◌+◌, ◌≤◌, ◌<◌};
ghost use Rattle.model.specs.Syntax.{vars_test};
ghost use Rattle.model.specs.Requests.{free};
ghost use Rattle.model.specs.Readings.{expr_at, constraint_at};
ghost use Rattle.phrases.specs.Phrases.{fact_by};
ghost use Rattle.phrases.specs.Marks.{none, marked, meet};
ghost use Rattle.wire.specs.Budget.{longest};
ghost use Rattle.nodes.specs.Tree.{tree_in, nodes_in};
ghost use Rattle.safety.specs.Safety.{needed, turned, known_says, known_in, known_all_in, known_any_in, judged_in};

use limits::VARIABLES;
use nodes::shape::{Place, Shape};
use nodes::tree::Tree;
use phrases::Text;
use phrases::marks::{self, Marks, NONE};

mod variables;

// What a safe request uses: its free variables, and all of them, free or bound.
#[derive(Clone, Copy)]
pub struct Judged {
    pub free: Marks,
    pub used: Marks,
}

// ---- known variables; a tree, a node and a set are no struct here, since each call has another node and another set

// What is needed must be known; then it goes on with `after`.
fn needed(needs: Marks, known: Marks, after: Marks) -> Option<Marks>
    ensures { result ≡ needed needs known after }
{
    marks::within(needs, known, VARIABLES).then_some(after)
}

// "a flat says adds its variables; a nested says needs its fact's known and adds its issuer's"
#[tactic(auto, using(crate::proofs::KnownSteps::says_steps))]
fn says_known(text: Text, at: usize, known: Marks) -> Option<Marks>
    requires { at ≤ longest }
    ensures { result ≡ known_says (expr_at text.entry.bytes.now (at + 1)) (fact_by text.entry.signatures.now text.entry.bytes.now (at + 3)) known }
{
    let with_issuer = text.mark_at(at + 1, known);
    if wire::byte_or(text.bytes, at + 3) == 0 {
        Some(text.fact_marks(at + 3, with_issuer))
    } else {
        needed(text.fact_marks(at + 3, NONE), known, with_issuer)
    }
}

// "a constraint needs its variables known"
fn test_known(text: Text, at: usize, known: Marks) -> Option<Marks>
    requires { at ≤ longest }
    ensures { result ≡ needed (marked (vars_test (constraint_at text.entry.bytes.now (at + 1))) none) known known }
{
    needed(text.test_marks(at + 1, NONE), known, known)
}

// "and a not its free ones"
fn not_needs(tree: &Tree, place: Place, known: Marks) -> Option<Marks>
    ensures { result ≡ needed
        (marked (free (tree_in tree.now.text.signatures.now tree.now.text.bytes.now place.depth place.at)) none) known known }
{
    needed(variables::free(tree, place), known, known)
}

// The other mark for a variable that has this one: 1 for 0, 0 for 1.
fn turned(marks: Marks, variable: usize, mark: u8) -> Option<Marks>
    requires { mark ≤ 1 }
    ensures { result ≡ turned mark variable marks }
{
    (marks::mark_of(marks, variable) == mark).then_some(marks::with_mark(marks, variable, 1 - mark))
}

// What is known after the node at a place, if it is safe where `known` is known before.
// No walk of `nodes`: the parts of an any-of don't hand a set on. The three call themselves, since the tree is in the bytes and a level is left at each call.
#[cycle(known_all_known_any_known_node)]
#[tactic(auto, using(crate::proofs::KnownSteps::known_steps))]
fn known_node(tree: &Tree, place: Place, known: Marks) -> Option<Marks>
    ensures { result ≡ known_in (tree_in tree.now.text.signatures.now tree.now.text.bytes.now place.depth place.at) known }
{
    let Place { depth, at } = place;
    let Some(shape) = tree.shape_in(place) else {
        return Some(known);
    };
    let depth = depth - 1;
    match shape {
        Shape::Says => says_known(tree.text, at, known),
        Shape::Test => test_known(tree.text, at, known),
        Shape::All => {
            let n = wire::byte_or(tree.text.bytes, at + 1);
            known_all(tree, n, Place { depth, at: at + 2 }, known)
        }
        Shape::Any => {
            let n = wire::byte_or(tree.text.bytes, at + 1);
            known_any(tree, n, Place { depth, at: at + 2 }, known)
        }
        Shape::Not => {
            let inside = Place { depth, at: at + 1 };
            not_needs(tree, inside, known)?;
            known_node(tree, inside, known)?;
            Some(known)
        }
        // "exists needs its variable .. known after, then drops it"
        Shape::Exists => {
            let variable = wire::byte_or(tree.text.bytes, at + 1);
            if marks::mark_of(known, variable) == 0 {
                turned(
                    known_node(tree, Place { depth, at: at + 2 }, known)?,
                    variable,
                    1,
                )
            } else {
                None
            }
        }
    }
}

// "all-of hands the set on": n parts, the first at the place.
#[cycle(known_all_known_any_known_node)]
#[tactic(auto, using(crate::proofs::KnownSteps::known_steps))]
fn known_all(tree: &Tree, n: usize, place: Place, known: Marks) -> Option<Marks>
    ensures { result ≡ known_all_in (nodes_in tree.now.text.signatures.now tree.now.text.bytes.now place.depth n place.at) known }
{
    let mut at = place.at;
    let mut after = known;
    for _ in 0..n {
        let part = Place { at, ..place };
        after = known_node(tree, part, after)?;
        at = tree.node_end(part);
    }
    Some(after)
}

// "any-of starts each part alike and keeps the intersection": n parts, the first at the place.
// No loop: the definitions meet a part with what those after it leave, and a loop from the first part on needs that `meet` is associative.
#[cycle(known_all_known_any_known_node)]
#[tactic(auto, using(crate::proofs::KnownSteps::known_steps))]
fn known_any(tree: &Tree, n: usize, place: Place, known: Marks) -> Option<Marks>
    requires { n < 256 }
    ensures { result ≡ known_any_in (nodes_in tree.now.text.signatures.now tree.now.text.bytes.now place.depth n place.at) known }
{
    if n == 0 {
        return Some([1; VARIABLES]);
    }
    let first = known_node(tree, place, known)?;
    let at = tree.node_end(place);
    let others = known_any(tree, n - 1, Place { at, ..place }, known)?;
    Some(marks::meet(first, others, VARIABLES))
}

// ---- the whole request

// The request's one node: "all free variables are known at the end".
#[tactic(auto, unfolding(crate::specs::Safety::judged_in))]
pub fn judge(tree: &Tree, place: Place) -> Option<Judged>
    ensures { result ≡ judged_in (tree_in tree.now.text.signatures.now tree.now.text.bytes.now place.depth place.at) }
{
    let free = variables::free(tree, place);
    let used = variables::with_binders(tree, place, free)?;
    let known = known_node(tree, place, NONE)?;
    marks::within(free, known, VARIABLES).then_some(Judged { free, used })
}
