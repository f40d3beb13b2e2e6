// Whose words count for a request, as marks in a lent slice.
ghost use Rattle.std.specs.Prelude.{◌≡◌, List, length};
ghost use Rattle.model.specs.Syntax as syntax;
ghost use Rattle.model.specs.Bytes.{bytes_at};
ghost use Rattle.model.specs.Policies.{Accepted, policy_of};
ghost use Rattle.model.specs.Deciding.{read};
ghost use Rattle.model.specs.Decision.{slices};
ghost use Rattle.demands.specs.Lookups.{marks_from, reach_of, whose_words};
ghost use Rattle.policy.specs.Index.{HandsOut};
ghost use Rattle.inputs.specs.Accepts.{Takes, Withdraws};
ghost use Rattle.outcome.specs.Numbers.{refusal_of};

use inputs::Handed;
use outcome::{Report, numbers};
use policy::Index;

// The marks of the reach, and 0 past them, in each place that is lent.
fn mark(reach: &[u8], marks: &mut [u8])
    ensures { marks.new ≡ bytes_at (length marks.old) reach.now 0 }
{
    let n = marks.len().min(reach.len());
    marks[..n].copy_from_slice(&reach[..n]);
    marks[n..].fill(0);
}

// All slices are accepted.
fn mark_reach(
    policy: &[u8],
    index: &Index,
    request: &[u8],
    handed: Handed,
    withdrawals: &[u8],
    marks: &mut [u8],
)
    requires { (A : Accepted) × (q : syntax.Request) × (ws : List syntax.Withdrawal) × Takes policy.now request.now index.now handed.request A q
        × Withdraws withdrawals.now handed.withdrawals A ws }
    ensures { (A : Accepted) (q : syntax.Request) (ws : List syntax.Withdrawal) (H : List syntax.Link)
        → Takes policy.now request.now index.now handed.request A q → Withdraws withdrawals.now handed.withdrawals A ws
        → marks.new ≡ marks_from (reach_of (read (policy_of A) q ws H)) (length marks.old) 0 }
{
    let mut left = index.issuer_at;
    let n = super::left(&mut left, policy, index, handed, withdrawals);
    let reach = super::reached(policy, index, &left[..n], request);
    mark(&reach, marks);
}

// The policy is accepted.
pub fn accepted(
    policy: &[u8],
    index: &Index,
    request: &[u8],
    withdrawals: &[u8],
    hierarchy: &[u8],
    marks: &mut [u8],
) -> Report
    requires { HandsOut policy.now index.now }
    ensures numbers { result
        ≡ refusal_of (whose_words (slices policy.now request.now withdrawals.now hierarchy.now)
        marks.old) }
    ensures marks { marks.new
        ≡ (whose_words (slices policy.now request.now withdrawals.now hierarchy.now) marks.old).marks }
{
    match inputs::read(
        &index.kinds,
        &index.signatures,
        request,
        withdrawals,
        hierarchy,
    ) {
        Ok(handed) => {
            mark_reach(policy, index, request, handed, withdrawals, marks);
            Report::default()
        }
        Err(refused) => numbers::refused(refused.side, refused.refusal),
    }
}
