// One walk over a request's tree, whatever it does at a node.
ghost use Rattle.std.specs.Prelude.{◌≡◌, ◌+◌, ℕ, ◌≤◌, true};
ghost use Rattle.model.specs.Readings.{expr_at, constraint_at};
ghost use Rattle.phrases.specs.Phrases.{fact_by};
ghost use Rattle.wire.specs.Budget.{longest};
ghost use Rattle.nodes.specs.Tree.{tree_in, nodes_in};
ghost use Rattle.nodes.specs.Walk.{Steps, walked, all_walked, Settled};

use super::shape::{Place, Shape};
use super::tree::Tree;
use phrases::Text;

// What a walk does to its state at a node.
pub trait Visit {
    type State: Copy;

    ghost steps: { Self → Steps Self.State };

    // At the says node at `at`.
    fn says(&self, text: Text, at: usize, state: Self::State) -> Self::State
        requires { at ≤ longest }
        ensures { result ≡ (steps self.now).at_says (expr_at text.entry.bytes.now (at + 1))
            (fact_by text.entry.signatures.now text.entry.bytes.now (at + 3)) state };

    // At the constraint node at `at`.
    fn test(&self, text: Text, at: usize, state: Self::State) -> Self::State
        requires { at ≤ longest }
        ensures { result ≡ (steps self.now).at_test (constraint_at text.entry.bytes.now (at + 1)) state };

    // Before the node of an exists of this variable.
    fn enter(&self, variable: usize, state: Self::State) -> Self::State
        ensures { result ≡ (steps self.now).enter variable state };

    // And after it, where `before` was the state.
    fn leave(&self, variable: usize, before: Self::State, state: Self::State) -> Self::State
        ensures { result ≡ (steps self.now).leave variable before state };

    // Whether no node changes this state: the walk may end. A visit of which that is never known need not say so.
    #[inline(always)]
    fn is_settled(&self, state: Self::State) -> bool
        ensures { result ≡ true → Settled (steps self.now) state }
    {
        false
    }
}

impl Tree<'_> {
    // The node at a place. It calls itself, as in `shape`: the tree is in the bytes, and a level is left at each call.
    #[cycle(walk_walk_parts)]
    #[tactic(auto, using(crate::proofs::WalkSteps::walk_steps))]
    pub fn walk<V: Visit>(&self, visit: &V, place: Place, state: V::State) -> V::State
        ensures { result ≡ walked (V.steps visit.now)
            (tree_in self.now.text.signatures.now self.now.text.bytes.now place.depth place.at) state }
    {
        let Place { depth, at } = place;
        let Some(shape) = self.shape_in(place) else {
            return state;
        };
        let depth = depth - 1;
        match shape {
            Shape::Says => visit.says(self.text, at, state),
            Shape::Test => visit.test(self.text, at, state),
            Shape::All | Shape::Any => self.walk_parts(
                visit,
                wire::byte_or(self.text.bytes, at + 1),
                Place { depth, at: at + 2 },
                state,
            ),
            Shape::Not => self.walk(visit, Place { depth, at: at + 1 }, state),
            Shape::Exists => {
                let variable = wire::byte_or(self.text.bytes, at + 1);
                let inside = self.walk(
                    visit,
                    Place { depth, at: at + 2 },
                    visit.enter(variable, state),
                );
                visit.leave(variable, state, inside)
            }
        }
    }

    // And n nodes, the first of which stands at the place.
    #[cycle(walk_walk_parts)]
    #[tactic(auto, using(crate::proofs::WalkSteps::walk_steps))]
    fn walk_parts<V: Visit>(&self, visit: &V, n: usize, place: Place, state: V::State) -> V::State
        ensures { result ≡ all_walked (V.steps visit.now)
            (nodes_in self.now.text.signatures.now self.now.text.bytes.now place.depth n place.at) state }
    {
        let mut at = place.at;
        let mut walked = state;
        for _ in 0..n {
            let part = Place { at, ..place };
            // a local of its own: the check covers no array that is laid where an argument was
            let more = self.walk(visit, part, walked);
            walked = more;
            if visit.is_settled(walked) {
                return walked;
            }
            at = self.node_end(part);
        }
        walked
    }
}
