// Numbers printed in fields of six columns, lines of fields, and texts.
#![tactic(auto)]

ghost use Rattle.std.specs.Prelude.{◌≡◌, ℕ, ◌*◌, ◌≤◌, ◌<◌, length, take, get_or};
ghost use Rattle.theory.specs.Lists.{over};
ghost use Rattle.fields.specs.Fields.{columns, line_of};

// Bytes at the front of an array, their length beside them, since nothing is on the heap.
#[derive(Drop)]
pub struct Text<const N: usize> {
    pub bytes: [u8; N],
    pub length: usize,
}

impl<const N: usize> Text<N> {
    // The bytes of the text.
    pub fn as_bytes(&self) -> &[u8]
        requires { self.now.length ≤ N }
        ensures { result.now ≡ take self.now.length self.now.bytes }
    {
        &self.bytes[..self.length]
    }
}

// Writes a number in six columns at the front of a buffer, the last digit first. By hand: `write!` would want a writer
// over the buffer, and answer a Result that is never an error.
fn put_field(out: &mut [u8], n: u32)
    requires { (6 ≤ length out.old) × (n < 1000000) }
    ensures { out.new ≡ over (columns 6 n) out.old }
{
    let mut rest = n;
    for k in 0..6 {
        if k == 0 || rest != 0 {
            out[5 - k] = b'0' + (rest % 10) as u8;
            rest /= 10;
        } else {
            out[5 - k] = b' ';
        }
    }
}

// Writes numbers at the front of a buffer, as a line.
pub fn put_line(out: &mut [u8], numbers: &[u32])
    requires { (6 * length numbers.now < length out.old) × ((k : ℕ) → get_or numbers.now k 0 < 1000000) }
    ensures { out.new ≡ over (line_of numbers.now) out.old }
{
    for (k, n) in numbers.iter().enumerate() {
        put_field(&mut out[6 * k..], *n);
    }
    out[6 * numbers.len()] = b'\n';
}
