// The entries that remove anything, in chains. It stands alone, since a struct with a ghost field takes in all that its file cites.
ghost use Rattle.withdrawals.specs.Sought.{Linked, Linked-prop};

// Where they stand in the slice, and their chains by issuer and serial: entry i of a chain stands at offset i - 1.
#[derive(Clone, Copy)]
pub struct Chained<'a> {
    pub bytes: &'a [u8],
    pub ats: &'a [usize],
    pub links: &'a [u16],
    ghost linked: { Linked bytes.now ats.now links.now } by { Linked-prop bytes.now ats.now links.now },
}
