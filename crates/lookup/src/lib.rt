// Look-ups for a host in the bytes of a policy: where its constants and verbs stand, and the number of the constant that has a label.
#![tactic(auto)]

ghost use Rattle.std.specs.Prelude.{◌≡◌, ◌+◌, ◌-◌, ◌≤◌, ◌<◌, length, get_or, IfSome};
ghost use Rattle.model.specs.Bytes.{byte_at, bytes_at};
ghost use Rattle.model.specs.Values.{alike};
ghost use Rattle.model.specs.Policies.{read_policy};
ghost use Rattle.demands.specs.Lookups.{constant_offsets, verb_offsets, laid, first_of, number_in};
ghost use Rattle.lookup.specs.Named.{Near, Standing, named_at, number_or};

// There is no such constant: the C interface has numbers alone.
pub const NO_NUMBER: u32 = 0xFFFFFFFF;

// These numbers, as many as fit, and how many they are; the rest of `offsets` stays as lent.
#[tactic(auto, using(crate::proofs::Laws::over_next, crate::proofs::Laws::over_all))]
fn lay(ats: &[usize], offsets: &mut [u32]) -> u32
    requires { Near ats.now × (length ats.now ≤ 255) }
    ensures count { result ≡ length ats.now }
    ensures written { offsets.new ≡ laid ats.now offsets.old }
{
    let n = ats.len().min(offsets.len());
    for (i, at) in ats[..n].iter().enumerate() {
        offsets[i] = *at as u32;
    }
    ats.len() as u32
}

// 0 and no Result for a policy that is not accepted: the C interface has numbers alone.
// Where each constant stands, the offset of its length byte; how many there are, 0 for a policy that is not accepted.
pub fn constants(policy: &[u8], offsets: &mut [u32]) -> u32
    ensures count { result ≡ length (constant_offsets (read_policy policy.now)) }
    ensures written { offsets.new ≡ laid (constant_offsets (read_policy policy.now)) offsets.old }
{
    let mut index = policy::empty();
    match policy::read(policy, &mut index) {
        Ok(()) => lay(&index.constant_at[..index.constants], offsets),
        Err(_) => 0,
    }
}

// The same of the verbs, from verb 1 on. One function for both would be no plainer: each is its table and its count.
pub fn verbs(policy: &[u8], offsets: &mut [u32]) -> u32
    ensures count { result ≡ length (verb_offsets (read_policy policy.now)) }
    ensures written { offsets.new ≡ laid (verb_offsets (read_policy policy.now)) offsets.old }
{
    let mut index = policy::empty();
    match policy::read(policy, &mut index) {
        Ok(()) => lay(&index.verb_at[..index.verbs], offsets),
        Err(_) => 0,
    }
}

// The label of the principal or thing at `at` is alike to this one.
#[tactic(auto, using(crate::proofs::Laws::label_same, crate::proofs::Laws::label_other))]
fn labelled(policy: &[u8], at: usize, label: &[u8]) -> bool
    requires { (1 ≤ byte_at policy.now at) × (at < 4294967296) }
    ensures { result ≡ alike (bytes_at (byte_at policy.now at - 1) policy.now (at + 2)) label.now }
{
    let n = wire::byte_or(policy, at) - 1;
    n == label.len() && labels::alike(policy, at + 2, label, 0, n)
}

// Constant i, which stands at `at`, has this kind and this label.
fn named(policy: &[u8], kinds: &[u8], i: usize, at: usize, kind: usize, label: &[u8]) -> bool
    requires { (1 ≤ byte_at policy.now at) × (at < 4294967296) }
    ensures { result ≡ named_at policy.now kinds.now kind label.now i at }
{
    wire::byte_or(kinds, i) == kind && labelled(policy, at, label)
}

// The number of the first constant that has this kind and this label.
#[tactic(auto, using(crate::proofs::Laws::first_here_law, crate::proofs::Laws::first_on, crate::proofs::Laws::first_none))]
fn first(policy: &[u8], kinds: &[u8], ats: &[usize], kind: usize, label: &[u8]) -> Option<usize>
    requires { (length ats.now ≤ 255) × Standing policy.now ats.now }
    ensures is { number_or result
        ≡ first_of (λ j. named_at policy.now kinds.now kind label.now j (get_or ats.now j 0)) 0 (length ats.now) }
    ensures within { IfSome result (λ i. i < length ats.now) }
{
    for (i, at) in ats.iter().enumerate() {
        if named(policy, kinds, i, *at, kind, label) {
            return Some(i);
        }
    }
    None
}

// The number of the constant of this kind that has this label, `NO_NUMBER` where there is none.
pub fn find(policy: &[u8], kind: u32, label: &[u8]) -> u32
    ensures { result ≡ number_in (read_policy policy.now) kind label.now }
{
    let kind = kind as usize;
    if !labels::has_label(kind) {
        return NO_NUMBER;
    }
    let mut index = policy::empty();
    match policy::read(policy, &mut index) {
        Ok(()) => match first(
            policy,
            &index.kinds,
            &index.constant_at[..index.constants],
            kind,
            label,
        ) {
            Some(i) => i as u32,
            None => NO_NUMBER,
        },
        Err(_) => NO_NUMBER,
    }
}
