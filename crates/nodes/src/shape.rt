// What a node of a request's tree is, and where it ends. For any bytes.
// The tree is in the bytes and there is no heap: a level of it is left at each call, so the walks call themselves.
ghost use Rattle.std.specs.Prelude.{◌≡◌, ◌≤◌, ◌<◌, length, Some, IfSome};
ghost use Rattle.model.specs.Readings.{ends_by};
ghost use Rattle.nodes.specs.Tree.{shape_at, shape_in, end_in};

use super::tree::Tree;

// What a node is by its first byte.
#[derive(Clone, Copy)]
pub enum Shape {
    Says,
    Test,
    All,
    Any,
    Not,
    Exists,
}

// A node: how many levels of nodes it may have, and where it stands.
#[derive(Clone, Copy)]
pub struct Place {
    pub depth: usize,
    pub at: usize,
}

// The node of a request.
pub const WHOLE: Place = Place {
    depth: limits::DEPTH,
    at: limits::FIRST_NODE,
};

impl Tree<'_> {
    // The shape of the node at `at`, if there is one; past the end there is none.
    #[tactic(auto, using(crate::proofs::TreeSteps::byte_within), unfolding(crate::specs::Tree::shape_of))]
    pub fn shape_at(&self, at: usize) -> Option<Shape>
        ensures shape { result ≡ shape_at self.now.text.bytes.now at }
        ensures within { IfSome result (λ _. at < length self.now.text.bytes.now) }
    {
        match wire::byte_or(self.text.bytes, at) {
            1 => Some(Shape::Says),
            2 => Some(Shape::Test),
            3 => Some(Shape::All),
            4 => Some(Shape::Any),
            5 => Some(Shape::Not),
            6 => Some(Shape::Exists),
            _ => None,
        }
    }

    // The shape of the node at a place, if there is one: where no level is left there is none.
    pub fn shape_in(&self, place: Place) -> Option<Shape>
        ensures shape { result ≡ shape_in self.now.text.bytes.now place.depth place.at }
        ensures there { IfSome result (λ k. (place.depth ≡ 0 → ⊥) × (shape_at self.now.text.bytes.now place.at ≡ Some k)
            × (place.at < length self.now.text.bytes.now)) }
    {
        if place.depth == 0 {
            None
        } else {
            self.shape_at(place.at)
        }
    }

    // Where a node ends.
    #[cycle(node_end_nodes_end)]
    #[tactic(auto, using(crate::proofs::TreeSteps::end_steps))]
    pub fn node_end(&self, place: Place) -> usize
        ensures { result ≡ end_in self.now.text.signatures.now self.now.text.bytes.now place.depth place.at }
    {
        let Place { depth, at } = place;
        let Some(shape) = self.shape_in(place) else {
            return at;
        };
        let depth = depth - 1;
        match shape {
            Shape::Says => self.text.fact_next(at + 3),
            Shape::Test => at + 6,
            Shape::All | Shape::Any => {
                self.nodes_end(
                    wire::byte_or(self.text.bytes, at + 1),
                    Place { depth, at: at + 2 },
                )
            }
            Shape::Not => self.node_end(Place { depth, at: at + 1 }),
            Shape::Exists => self.node_end(Place { depth, at: at + 2 }),
        }
    }

    // Where n nodes end, the first of which stands at the place.
    #[cycle(node_end_nodes_end)]
    #[tactic(auto, using(crate::proofs::TreeSteps::end_steps))]
    pub fn nodes_end(&self, n: usize, place: Place) -> usize
        ensures { result ≡ ends_by (end_in self.now.text.signatures.now self.now.text.bytes.now place.depth) n place.at }
    {
        let mut end = place.at;
        for _ in 0..n {
            end = self.node_end(Place { at: end, ..place });
        }
        end
    }
}
