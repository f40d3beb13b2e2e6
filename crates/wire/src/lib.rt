// Big-endian numbers and labels in a byte slice.
#![tactic(auto)]

ghost use Rattle.std.specs.Prelude.{◌≡◌, ◌+◌, ◌<◌, ◌≤◌, length};
ghost use Rattle.model.specs.Bytes.{byte_at, u16_at, u32_at, bytes_at};
ghost use Rattle.model.specs.Lists.{all};
ghost use Rattle.model.specs.Forms.{label_byte, label_form};
ghost use Rattle.wire.specs.Budget.{farthest};

// Numbers are summed of bytes. Tried: `from_be_bytes` of an array of the bytes; to read the policy w2_30k then takes 6 percent longer.
// The byte at `at`.
pub fn byte(bytes: &[u8], at: usize) -> usize
    requires { at < length bytes.now }
    ensures { (result ≡ byte_at bytes.now at) × (result < 256) }
{
    bytes[at] as usize
}

// The two bytes at `at`, as a number.
#[tactic(auto, unfolding(model::specs::Bytes::u16_at))]
pub fn u16_at(bytes: &[u8], at: usize) -> usize
    requires { at + 2 ≤ length bytes.now }
    ensures { (result ≡ u16_at bytes.now at) × (result < 65536) }
{
    256 * byte(bytes, at) + byte(bytes, at + 1)
}

// The four bytes at `at`, as a number.
#[tactic(auto, unfolding(model::specs::Bytes::u32_at))]
pub fn u32_at(bytes: &[u8], at: usize) -> usize
    requires { at + 4 ≤ length bytes.now }
    ensures { (result ≡ u32_at bytes.now at) × (result < 4294967296) }
{
    65536 * u16_at(bytes, at) + u16_at(bytes, at + 2)
}

// ---- The same where a byte past the end reads 0. Above, a place within the slice costs no test.

// The byte at `at`, or 0 past the end.
pub fn u8_or(bytes: &[u8], at: usize) -> u8
    ensures { result ≡ byte_at bytes.now at }
{
    if at < bytes.len() { bytes[at] } else { 0 }
}

// The same as a number.
pub fn byte_or(bytes: &[u8], at: usize) -> usize
    ensures { (result ≡ byte_at bytes.now at) × (result < 256) }
{
    u8_or(bytes, at) as usize
}

// The two bytes at `at`, as a number, with 0 for each past the end.
#[tactic(auto, unfolding(model::specs::Bytes::u16_at))]
pub fn u16_or(bytes: &[u8], at: usize) -> usize
    requires { at ≤ farthest }
    ensures { (result ≡ u16_at bytes.now at) × (result < 65536) }
{
    256 * byte_or(bytes, at) + byte_or(bytes, at + 1)
}

// The four bytes at `at`, as a number, with 0 for each past the end.
#[tactic(auto, unfolding(model::specs::Bytes::u32_at))]
pub fn u32_or(bytes: &[u8], at: usize) -> usize
    requires { at + 2 ≤ farthest }
    ensures { (result ≡ u32_at bytes.now at) × (result < 4294967296) }
{
    65536 * u16_or(bytes, at) + u16_or(bytes, at + 2)
}

// A byte that may stand in a label.
fn label_byte(byte: u8) -> bool
    ensures { result ≡ label_byte byte }
{
    let byte = byte as usize;
    limits::LOWEST_LABEL_BYTE <= byte && byte <= limits::HIGHEST_LABEL_BYTE
}

// A label of n bytes from `at` on.
#[tactic(auto, unfolding(model::specs::Forms::label_form, model::specs::Bytes::both, model::specs::Bytes::choose))]
pub fn label_form(bytes: &[u8], at: usize, n: usize) -> bool
    requires { at + n ≤ length bytes.now }
    ensures { result ≡ label_form n bytes.now at }
{
    1 <= n && n <= limits::LABEL && bytes[at..at + n].iter().all(|byte| label_byte(*byte))
}
