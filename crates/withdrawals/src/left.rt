// Which assertions are left: those that no entry removes.
ghost use Rattle.std.specs.Prelude.{◌≡◌, ◌&&◌, not, ℕ, ◌+◌, ◌-◌, ◌*◌, ◌<◌, ◌≤◌, length, take, get_or, replicate, eqb, ltb};
ghost use Rattle.model.specs.Lists.{any, keep};
ghost use Rattle.model.specs.Limits.{today_code, first_variable};
ghost use Rattle.wire.specs.Budget.{farthest};
ghost use Rattle.constraints.specs.Standing.{world_of};
ghost use Rattle.model.specs.Bytes.{byte_at};
ghost use Rattle.model.specs.Entries.{withdrawal_at, withdrawal_end};
ghost use Rattle.withdrawals.specs.Left.{named, entries_at, stays_at, picked, Lent, Listed};
ghost use Rattle.withdrawals.specs.Sought.{holds_at, holding_at, named_at, unnamed_at, Within, buckets, bucket_of, bucket_at};

use super::chained::Chained;
use super::entry::Entry;
use super::{COUNT, SERIAL, TESTS};
use constraints::{NOTHING_BOUND, Values};
use slices::lists::FIRST_ITEM;

// Into how many chains entries are put: about one entry a chain where there are most.
const BUCKETS: usize = 256;

// A link for each bucket and entry, and one for "none".
const LINKS: usize = BUCKETS + limits::WITHDRAWALS + 1;

// The number of an expression is that of a constant.
fn is_constant(expression: usize) -> bool
    ensures { result ≡ (not (eqb expression today_code) && ltb expression first_variable) }
{
    expression != limits::TODAY && expression < limits::FIRST_VARIABLE
}

// The bucket of an issuer and a serial.
fn bucket(issuer: usize, serial: usize) -> usize
    requires { (issuer < 65536) × (serial < 4294967296) }
    ensures { (result ≡ bucket_of issuer serial) × (result < buckets) }
{
    fact::spread(issuer, serial, 0, 0, BUCKETS)
}

// The bucket of the entry at `at`.
fn bucket_at(withdrawals: &[u8], at: usize) -> usize
    requires { at + 2048 ≤ farthest }
    ensures { (result ≡ bucket_at withdrawals.now at) × (result < buckets) }
{
    bucket(
        wire::u16_or(withdrawals, at),
        wire::u32_or(withdrawals, at + SERIAL),
    )
}

impl Entry<'_> {
    // How many constraints it has.
    fn count(&self) -> usize
        ensures { (result ≡ byte_at self.now.bytes.now (self.now.at + 6)) × (result < 256) }
    {
        wire::byte_or(self.bytes, self.at + COUNT)
    }

    // Where it ends.
    #[tactic(auto, unfolding(model::specs::Entries::withdrawal_end))]
    fn end(&self) -> usize
        ensures { (result ≡ withdrawal_end self.now.bytes.now self.now.at) × (result ≤ self.now.at + 2048) }
    {
        self.at + TESTS + phrases::CONSTRAINT * self.count()
    }

    // It is for this issuer and serial.
    #[tactic(auto, using(crate::proofs::Leaving::names_is))]
    fn names(&self, issuer: usize, serial: usize) -> bool
        ensures { result ≡ named (withdrawal_at self.now.bytes.now self.now.at) issuer serial }
    {
        let expression = wire::u16_or(self.bytes, self.at);
        expression == issuer
            && is_constant(expression)
            && wire::u32_or(self.bytes, self.at + SERIAL) == serial
    }

    // Its constraints hold: "while its constraints hold".
    fn holds(&self, values: &Values) -> bool
        ensures { result ≡ holds_at (world_of values.now) self.now.bytes.now self.now.at }
    {
        (0..self.count()).all(|i| {
            let at = self.at + TESTS + phrases::CONSTRAINT * i;
            values.passes(self.bytes, at, NOTHING_BOUND)
        })
    }
}

// Where those of the first `count` entries stand that remove anything, and how many they are: the room is fixed, as there is no heap.
#[tactic(auto, using(crate::proofs::Holding::holding_start, crate::proofs::Holding::holding_end))]
fn holding(ats: &mut [usize], values: &Values, withdrawals: &[u8], count: usize) -> usize
    requires { (count ≤ 256) × (length ats.old ≡ 256) }
    ensures { Within (take result ats.new) × (result ≤ 256) × (take result ats.new ≡ holding_at (world_of values.now) withdrawals.now count 7) }
{
    let mut at = FIRST_ITEM;
    let mut k = 0;
    for _ in 0..count {
        let entry = Entry {
            bytes: withdrawals,
            at,
        };
        if entry.holds(values) {
            ats[k] = at;
            k += 1;
        }
        at = entry.end();
    }
    k
}

impl Chained<'_> {
    // One of them is for this issuer and serial: it is in their bucket.
    #[tactic(auto, using(chains::proofs::Offsets::looking))]
    fn is_named(&self, issuer: usize, serial: usize) -> bool
        requires { (issuer < 65536) × (serial < 4294967296) }
        ensures { result ≡ any (named_at self.now.bytes.now issuer serial) self.now.ats.now }
    {
        for i in chains::bucket(self.links, BUCKETS, bucket(issuer, serial)) {
            let entry = Entry {
                bytes: self.bytes,
                at: self.ats[i - 1],
            };
            if entry.names(issuer, serial) {
                return true;
            }
        }
        false
    }

    // None is for the assertion whose item and issuer stand there.
    fn unnamed(&self, policy: &[u8], item: usize, issuer: usize) -> bool
        requires { (item + 8 ≤ farthest) × (issuer + 8 ≤ farthest) }
        ensures { result ≡ unnamed_at self.now.bytes.now self.now.ats.now policy.now item issuer }
    {
        let serial = wire::u32_or(policy, item + assertions::SERIAL);
        !self.is_named(wire::u16_or(policy, issuer), serial)
    }

    // Of the assertions whose items and issuers stand at these offsets those for which there is none, in their order: their issuers' offsets come to the front,
    // and this is how many they are.
    fn pick(&self, issuers: &mut [usize], items: &[usize], policy: &[u8]) -> usize
        requires { Listed items.now issuers.old × ((i : ℕ) → i < length issuers.old → get_or issuers.old i 0 + 8 ≤ farthest) }
        ensures { (result ≤ length issuers.old)
            × (take result issuers.new ≡ picked (unnamed_at self.now.bytes.now self.now.ats.now policy.now) items.now issuers.old) }
    {
        let mut k = 0;
        // by number: the front is written meanwhile
        for i in 0..issuers.len() {
            let issuer = issuers[i];
            if self.unnamed(policy, items[i], issuer) {
                issuers[k] = issuer;
                k += 1;
            }
        }
        k
    }
}

// Where the entries stand that remove anything, in the room, and their chains in the links.
fn chained<'a>(
    room: &'a mut [usize],
    links: &'a mut [u16],
    values: &Values,
    withdrawals: &'a [u8],
    entries: usize,
) -> Chained<'a>
    requires { (entries ≤ 256) × (length room.old ≡ 256) × (links.old ≡ replicate 513 0) }
    ensures { (result.bytes.now ≡ withdrawals.now) × (result.ats.now ≡ holding_at (world_of values.now) withdrawals.now entries 7) }
{
    let n = holding(room, values, withdrawals, entries);
    let ats = &room[..n];
    chains::link(
        links,
        BUCKETS,
        ats.len(),
        |i| bucket_at(withdrawals, ats[i]),
    );
    Chained {
        bytes: withdrawals,
        ats,
        links,
    }
}

// Of the assertions whose issuers stand at these offsets, each six bytes into its item, those that are left, in their order: the offsets come to the front, and
// this is how many they are. Nothing is done where there are no entries, as in most calls.
#[inline(never)]
#[tactic(auto, using(crate::proofs::Holding::stays_same))]
pub fn left(issuers: &mut [usize], values: &Values, withdrawals: &[u8], entries: usize) -> usize
    requires { Lent issuers.old entries }
    ensures { (result ≤ length issuers.old) × (length issuers.new ≡ length issuers.old) × (take result issuers.new
        ≡ keep (λ at. stays_at (world_of values.now) (entries_at withdrawals.now entries 7) values.now.policy.now (at - 6) at) issuers.old) }
{
    if entries == 0 {
        return issuers.len();
    }
    let mut room = [0usize; limits::WITHDRAWALS];
    let mut links = [0u16; LINKS];
    let chained = chained(&mut room, &mut links, values, withdrawals, entries);
    reach::keep(
        issuers,
        |at| chained.unnamed(values.policy, at.saturating_sub(assertions::ISSUER), at),
    )
}

// The same by items and issuers, in the same order: a serial is read in its item, wherever the issuer stands in it. So the policy's reader alone knows how far
// an issuer is from where its item begins.
#[inline(never)]
pub fn left_by_items(
    issuers: &mut [usize],
    items: &[usize],
    values: &Values,
    withdrawals: &[u8],
    entries: usize,
) -> usize
    requires { Lent issuers.old entries × Listed items.now issuers.old }
    ensures { (result ≤ length issuers.old) × (length issuers.new ≡ length issuers.old) × (take result issuers.new
        ≡ picked (stays_at (world_of values.now) (entries_at withdrawals.now entries 7) values.now.policy.now) items.now issuers.old) }
{
    if entries == 0 {
        return issuers.len();
    }
    let mut room = [0usize; limits::WITHDRAWALS];
    let mut links = [0u16; LINKS];
    let chained = chained(&mut room, &mut links, values, withdrawals, entries);
    chained.pick(issuers, items, values.policy)
}
