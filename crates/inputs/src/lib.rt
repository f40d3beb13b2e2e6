// The slices after the policy, read one after the other: what their readers hand out, or the first refusal with its side.
#![tactic(auto)]

ghost use Rattle.std.specs.Prelude.{◌≡◌, ℕ, ◌≤◌, length, IfOk};
ghost use Rattle.model.specs.Syntax as syntax;
ghost use Rattle.wire.specs.Budget.{longest};
ghost use Rattle.phrases.specs.Tables.{Tables};
ghost use Rattle.inputs.specs.Handed.{said, handed_out, after_policy};

use request::Request;
use slices::{Refused, Side};

// What the slices say that a decision goes by: the request as its reader hands it out, and how many entries the others have.
#[derive(Clone, Copy)]
pub struct Handed {
    pub request: Request,
    pub withdrawals: usize,
    pub links: usize,
}

// The three slices under a policy with these kinds of its constants and signatures of its verbs (crate phrases, specs/Tables).
pub fn read(
    kinds: &[u8],
    signatures: &[u8],
    request: &[u8],
    withdrawals: &[u8],
    hierarchy: &[u8],
) -> Result<Handed, Refused>
    ensures meant { (P : syntax.Policy) → Tables P.constants P.verbs kinds.now signatures.now
        → said result ≡ handed_out (after_policy P request.now withdrawals.now hierarchy.now) }
    ensures short { IfOk result (λ h. (length request.now ≤ longest) × (length hierarchy.now ≤ longest)) }
{
    let asked = Side::Request.says(request::read(kinds, signatures, request))?;
    let entries = Side::Withdrawals.says(withdrawals::read(kinds, withdrawals))?;
    let links = Side::Hierarchy.says(hierarchy::read(kinds, signatures, hierarchy))?;
    Ok(Handed {
        request: asked,
        withdrawals: entries,
        links,
    })
}
