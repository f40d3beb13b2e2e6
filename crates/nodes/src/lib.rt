// The form of a request's nodes, and what they ask of the kinds.
#![tactic(auto)]

ghost use Rattle.std.specs.Prelude.{◌≡◌, ◌+◌, ◌≤◌, ◌<◌};
ghost use Rattle.model.specs.Nodes.{parts_form, variable_form};
ghost use Rattle.kinds.specs.Cells.{feed};
ghost use Rattle.wire.specs.Budget.{longest};
ghost use Rattle.nodes.specs.Nodes.{own_form, fits_to, test_in, says_asks, says_in, reads_by, read_in};

use kinds::{Cells, Term};
use limits::{Kind, VARIABLES};
use phrases::Fault;
use shape::Shape;
use slices::{Reason, Refusal};
use tree::Tree;

pub mod shape;
pub mod tree;
pub mod walk;

const LAST_VARIABLE: usize = VARIABLES - 1;

// Where reading goes on after a node, and the variables' cells then.
#[derive(Clone, Copy)]
pub struct Reached {
    pub at: usize,
    pub cells: Cells,
}

// "count byte 1 to 8"
#[tactic(auto, unfolding(model::specs::Nodes::parts_form, model::specs::Bytes::both, model::specs::Bytes::choose))]
fn parts_form(bytes: &[u8], at: usize) -> bool
    ensures { result ≡ parts_form bytes.now at }
{
    (1..=limits::PARTS).contains(&wire::byte_or(bytes, at))
}

// "variable byte 0 to 7"
#[tactic(auto, unfolding(model::specs::Nodes::variable_form, model::specs::Bytes::both, model::specs::Bytes::choose))]
fn variable_form(bytes: &[u8], at: usize) -> bool
    ensures { result ≡ variable_form bytes.now at }
{
    at < bytes.len() && wire::byte_or(bytes, at) <= LAST_VARIABLE
}

// The item at `at` that ends at `end`, by its kinds.
fn fitted(fit: Option<Cells>, at: usize, end: usize) -> Result<Reached, Refusal>
    ensures { result ≡ fits_to fit at end }
{
    let cells = fit.ok_or(Reason::Unfit.at(at))?;
    Ok(Reached { at: end, cells })
}

// Nodes, after items that left the cells of `from`.
// That a node's place is near is asked by what reads the node alone: `node` and `parts` take any place, and find it past the end or near.
impl Tree<'_> {
    // The form of a node's own bytes, but for a says node and a constraint.
    #[tactic(auto, unfolding(crate::specs::Nodes::own_form))]
    fn own_form(&self, shape: Shape, at: usize) -> bool
        requires { at ≤ longest }
        ensures { result ≡ own_form self.now.text.bytes.now shape at }
    {
        match shape {
            Shape::Says | Shape::Test | Shape::Not => true,
            Shape::All | Shape::Any => parts_form(self.text.bytes, at + 1),
            Shape::Exists => variable_form(self.text.bytes, at + 1),
        }
    }

    // The kinds of a says node's issuer and fact.
    #[tactic(auto, using(kinds::proofs::Laws::feed_more, kinds::proofs::Laws::asking), unfolding(crate::specs::Nodes::says_asks))]
    fn says_fit(&self, kinds: &[u8], from: Reached) -> Option<Cells>
        requires { from.at ≤ longest }
        ensures { result ≡ feed (says_asks kinds.now self.now.text.signatures.now self.now.text.bytes.now from.at) from.cells }
    {
        let issuer = self.text.place_at(kinds, from.at + 1)?;
        let cells = kinds::alike(from.cells, issuer, Term::Any(Kind::Principal))?;
        self.text.fact_fit(kinds, from.at + 3, cells)
    }

    // A says node: issuer and fact.
    #[tactic(auto, unfolding(crate::specs::Nodes::says_in))]
    fn says_at(&self, kinds: &[u8], from: Reached) -> Result<Reached, Refusal>
        requires { from.at ≤ longest }
        ensures { result ≡ says_in kinds.now self.now.text.signatures.now self.now.text.bytes.now from.at from.cells }
    {
        match self.text.fact_form(from.at + 3) {
            Ok(end) => fitted(self.says_fit(kinds, from), from.at, end),
            Err(Fault::Broken) => Err(Reason::Form.at(from.at)),
            Err(Fault::NoVerb) => Err(Reason::Unfit.at(from.at)),
        }
    }

    // A constraint node.
    #[tactic(auto, unfolding(crate::specs::Nodes::test_in))]
    fn test_at(&self, kinds: &[u8], from: Reached) -> Result<Reached, Refusal>
        requires { from.at ≤ longest }
        ensures { result ≡ test_in kinds.now self.now.text.bytes.now from.at from.cells }
    {
        let Reached { at, cells } = from;
        if self.text.bytes.len() < at + 6 || !self.text.operator_form(at + 1) {
            return Err(Reason::Form.at(at));
        }
        fitted(self.text.test_fit(kinds, at + 1, cells), at, at + 6)
    }

    // A node that may hold others `depth - 1` deep. No walk as in `walk`: where reading goes on is what the node before says.
    // It calls itself: the tree is in the bytes and there is no heap; a level of it is left at each call.
    #[cycle(node_parts)]
    #[tactic(auto, using(crate::proofs::NodeSteps::read_steps))]
    pub fn node(&self, kinds: &[u8], depth: usize, from: Reached) -> Result<Reached, Refusal>
        ensures { result ≡ read_in kinds.now self.now.text.signatures.now self.now.text.bytes.now depth from.at from.cells }
    {
        let Reached { at, cells } = from;
        let form = Reason::Form.at(at);
        if depth == 0 {
            return Err(form);
        }
        let shape = self.shape_at(at).ok_or(form)?;
        if !self.own_form(shape, at) {
            return Err(form);
        }
        match shape {
            Shape::Says => self.says_at(kinds, from),
            Shape::Test => self.test_at(kinds, from),
            Shape::All | Shape::Any => {
                let n = wire::byte_or(self.text.bytes, at + 1);
                self.parts(kinds, depth - 1, n, Reached { at: at + 2, cells })
            }
            Shape::Not => self.node(kinds, depth - 1, Reached { at: at + 1, cells }),
            Shape::Exists => self.node(kinds, depth - 1, Reached { at: at + 2, cells }),
        }
    }

    // n nodes.
    #[cycle(node_parts)]
    #[tactic(auto, using(crate::proofs::NodeSteps::read_steps))]
    fn parts(&self, kinds: &[u8], depth: usize, n: usize, from: Reached) -> Result<Reached, Refusal>
        ensures { result ≡ reads_by (read_in kinds.now self.now.text.signatures.now self.now.text.bytes.now depth) n from.at from.cells }
    {
        let mut reached = from;
        for _ in 0..n {
            reached = self.node(kinds, depth, reached)?;
        }
        Ok(reached)
    }
}
