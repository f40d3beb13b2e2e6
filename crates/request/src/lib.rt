// The request reader: today, the kinds of the variables and which of them are free; or refusal 1, 2, 3, 5 or 7 with its place.
#![tactic(auto)]

ghost use Rattle.std.specs.Prelude.{◌≡◌, List, cond, ℕ, ◌≤◌, ◌<◌, length, get_or, IfOk};
ghost use Rattle.model.specs.Limits.{max_depth, first_node_at};
ghost use Rattle.model.specs.Lists.{member};
ghost use Rattle.model.specs.Syntax.{Constant, Verb, World};
ghost use Rattle.model.specs.Requests as requests;
ghost use Rattle.model.specs.Readings.{node_at};
ghost use Rattle.model.specs.Nodes.{read_request};
ghost use Rattle.phrases.specs.Tables.{Tables};
ghost use Rattle.wire.specs.Budget.{longest};
ghost use Rattle.request.specs.Requests.{said, answered, cell_kind, cell_kinds, whole_in};

pub mod issuing;

use kinds::{Cell, Cells};
use limits::{DEPTH, FIRST_NODE, HEADER, VARIABLES};
use nodes::Reached;
use nodes::shape::WHOLE;
use nodes::tree::Tree;
use phrases::Text;
use phrases::marks::Marks;
use slices::{Reason, Refusal};

// What a request asks for.
#[derive(Clone, Copy)]
pub struct Request {
    pub today: usize,
    // the number of the kind of each variable, with which the bytes of constants are compared, 0 where it has no place in a fact
    pub kinds: [u8; VARIABLES],
    // the free variables
    pub free: Marks,
}

// The kind that a variable's cell stands for, if the variable is used.
fn kind_in(cells: Cells, used: Marks, variable: usize) -> u8
    requires { variable < 8 }
    ensures { result ≡ cell_kind cells used variable }
{
    match cells[variable] {
        Cell::Settled(kind) if used[variable] == 1 => kind.number(),
        _ => 0,
    }
}

// The same for all eight.
fn kinds_in(cells: Cells, used: Marks) -> [u8; VARIABLES]
    ensures { result ≡ cell_kinds cells used }
{
    let mut kinds = [0; VARIABLES];
    for v in 0..VARIABLES {
        kinds[v] = kind_in(cells, used, v);
    }
    kinds
}

// Today, one node, nothing left over; "7 comes last".
#[tactic(auto, unfolding(crate::specs::Requests::whole_in))]
fn whole(kinds: &[u8], tree: &Tree) -> Result<Request, Refusal>
    ensures { result ≡ whole_in kinds.now tree.now.text.signatures.now tree.now.text.bytes.now }
{
    let request = tree.text.bytes;
    let today = wire::u32_or(request, HEADER);
    if request.len() < FIRST_NODE || limits::LAST_DAY < today {
        return Err(Reason::Form.at(HEADER));
    }
    let from = Reached {
        at: FIRST_NODE,
        cells: kinds::nothing(),
    };
    let node = tree.node(kinds, DEPTH, from)?;
    // No `slices::ended`: that promises the number of a reason, and here the refusal itself is promised.
    if node.at != request.len() {
        return Err(Reason::Form.at(node.at));
    }
    let judged = safety::judge(tree, WHOLE).ok_or(Reason::UnsafeRequest.at(FIRST_NODE))?;
    let kinds = kinds_in(node.cells, judged.used);
    let free = judged.free;
    Ok(Request { today, kinds, free })
}

// The request under a policy with these kinds of its constants and rows of its verbs (crate phrases, specs/Tables).
#[tactic(auto, using(crate::proofs::RequestLaws::header_refused, crate::proofs::RequestLaws::header_right))]
pub fn read(kinds: &[u8], signatures: &[u8], request: &[u8]) -> Result<Request, Refusal>
    ensures meant { (cs : List Constant) (vs : List Verb) → Tables cs vs kinds.now signatures.now
        → said result ≡ answered vs (read_request cs vs request.now) }
    ensures short { IfOk result (λ _. length request.now ≤ longest) }
{
    slices::lists::headed(request, limits::VERSION)?;
    let text = Text {
        signatures,
        bytes: request,
    };
    whole(kinds, &Tree { text })
}

// "every issuer in the request's says nodes": 1 for each of the 255 possible constants that is one. A variable brings in all principals.
#[inline(never)]
#[tactic(auto, using(crate::proofs::IssuerLaws::issuers_are))]
pub fn issuers(kinds: &[u8], signatures: &[u8], request: &[u8]) -> [u8; limits::CONSTANTS]
    requires { length request.now ≤ longest }
    ensures { (W : World) → Tables W.constants W.verbs kinds.now signatures.now → (p : ℕ) → p < 255
        → get_or result p 0 ≡ cond (member p (requests.issuers (node_at W.verbs request.now max_depth first_node_at) W)) 1 0 }
{
    let text = Text {
        signatures,
        bytes: request,
    };
    issuing::issuers(kinds, &Tree { text }, WHOLE)
}
