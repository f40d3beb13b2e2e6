// The engine's archive for C (host/secpal.h): an export for each call, which hands it on to the engine's function of that name and states its clauses again.
// Where there is none a call gives 0 or 0xFFFFFFFF: C has numbers alone.
#![tactic(auto)]

ghost use Rattle.std.specs.Prelude.{◌≡◌, length};
ghost use Rattle.model.specs.Decision.{slices, lent, decision};
ghost use Rattle.model.specs.Layout.{read_policy};
ghost use Rattle.model.specs.Labels.{label_of};
ghost use Rattle.demands.specs.Lookups.{constant_offsets, verb_offsets, laid, number_in, whose_words};
ghost use Rattle.outcome.specs.Numbers.{numbers_of, refusal_of};
ghost use Rattle.engine.specs.Named.{release};

use outcome::Report;

// The decision: the numbers of the model's report, and both buffers as it says.
#[unsafe(no_mangle)]
pub extern "C" fn secpal_decide(
    policy: &[u8],
    request: &[u8],
    withdrawals: &[u8],
    hierarchy: &[u8],
    facts: &mut [u8],
    answers: &mut [u8],
) -> Report
    ensures { let ρ = decision (lent policy.now request.now withdrawals.now hierarchy.now
        facts.old answers.old) in (result ≡ numbers_of ρ) × (facts.new ≡ ρ.fact_buffer) × (answers.new ≡ ρ.answer_buffer) }
{
    engine::secpal_decide(policy, request, withdrawals, hierarchy, facts, answers)
}

// The label of a constant: a reference may not be returned, so the part goes out through `out`.
#[unsafe(no_mangle)]
pub extern "C" fn secpal_label<'a>(policy: &'a [u8], constant: u32, out: &mut &'a [u8])
    ensures { out.new.now ≡ label_of policy.now constant }
{
    engine::secpal_label(policy, constant, out);
}

// Where each constant stands in the policy's bytes, the offset of its length byte: as many as fit, the rest of `offsets` as lent. How many there are, 0 for a
// policy that is not accepted.
#[unsafe(no_mangle)]
pub extern "C" fn secpal_constants(policy: &[u8], offsets: &mut [u32]) -> u32
    ensures count { result ≡ length (constant_offsets (read_policy policy.now)) }
    ensures written { offsets.new ≡ laid (constant_offsets (read_policy policy.now)) offsets.old }
{
    engine::secpal_constants(policy, offsets)
}

// The same of the verbs, from verb 1 on.
#[unsafe(no_mangle)]
pub extern "C" fn secpal_verbs(policy: &[u8], offsets: &mut [u32]) -> u32
    ensures count { result ≡ length (verb_offsets (read_policy policy.now)) }
    ensures written { offsets.new ≡ laid (verb_offsets (read_policy policy.now)) offsets.old }
{
    engine::secpal_verbs(policy, offsets)
}

// The number of the constant of this kind whose label is alike to these bytes, 0xFFFFFFFF where there is none.
#[unsafe(no_mangle)]
pub extern "C" fn secpal_find(policy: &[u8], kind: u32, label: &[u8]) -> u32
    ensures { result ≡ number_in (read_policy policy.now) kind label.now }
{
    engine::secpal_find(policy, kind, label)
}

// Whose words count for a request: 1 for each constant in the reach, 0 for any other number, for each mark that is lent. A refusal from the input leaves them.
#[unsafe(no_mangle)]
pub extern "C" fn secpal_reach(
    policy: &[u8],
    request: &[u8],
    withdrawals: &[u8],
    hierarchy: &[u8],
    marks: &mut [u8],
) -> Report
    ensures numbers { result
        ≡ refusal_of (whose_words (slices policy.now request.now withdrawals.now hierarchy.now)
        marks.old) }
    ensures marks { marks.new
        ≡ (whose_words (slices policy.now request.now withdrawals.now hierarchy.now) marks.old).marks }
{
    engine::secpal_reach(policy, request, withdrawals, hierarchy, marks)
}

// The release, as a number.
#[unsafe(no_mangle)]
pub extern "C" fn secpal_version() -> u32
    ensures { result ≡ release }
{
    engine::secpal_version()
}
