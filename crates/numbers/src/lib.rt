// Numbers as a file has them, in groups of seven bits: read one, size one, put one.
#![tactic(auto)]

ghost use Rattle.std.specs.Prelude.{◌≡◌, length, set};
ghost use Rattle.numbers.specs.Numbers.{number_at, encode, Put};
ghost use Rattle.numbers.specs.Promises.{as_read};

// What was read at a place, and where reading goes on.
#[derive(Clone, Copy)]
pub struct Read<T> {
    pub value: T,
    pub next: usize,
}

// Why no number begins at a place.
#[derive(Clone, Copy, Debug, PartialEq, Eq)]
pub enum NumberFault {
    EndsEarly,
    Malformed,
}

// The seven-bit number that begins at `at`.
pub fn number_at(bytes: &[u8], at: usize) -> Result<Read<u32>, NumberFault>
    ensures { result ≡ as_read (number_at bytes.now at) }
{
    let rest = bytes.get(at..).unwrap_or(&[]);
    let mut value: u32 = 0;
    let mut weight: u32 = 1;
    for (k, byte) in rest.iter().take(4).enumerate() {
        let b = *byte as u32;
        let alone = k == 0;
        if b < 128 {
            if b == 0 && !alone {
                return Err(NumberFault::Malformed);
            }
            return Ok(Read {
                value: value + weight * b,
                next: at + k + 1,
            });
        }
        value += weight * (b - 128);
        weight *= 128;
    }
    if rest.len() < 4 {
        return Err(NumberFault::EndsEarly);
    }
    Err(NumberFault::Malformed)
}

// How many bytes `v` takes in its shortest form.
pub fn size_of(v: u32) -> usize
    ensures { result ≡ length (encode v) }
{
    match v {
        0..128 => 1,
        128..16384 => 2,
        16384..2097152 => 3,
        2097152..268435456 => 4,
        _ => 5,
    }
}

// A byte at a place; past the end nothing changes.
fn store(out: &mut [u8], at: usize, b: u8)
    ensures { out.new ≡ set out.old at b }
{
    if at < out.len() {
        out[at] = b;
    }
}

// Writes `v` in its shortest form from the front of `out`, as far as `out` reaches, and answers how many bytes it takes.
pub fn put_number(out: &mut [u8], v: u32) -> usize
    ensures { Put v out.old result out.new }
{
    let mut rest = v;
    let mut p = 0;
    // how many bytes there are shows as the value gets small: a `while`
    while 128 <= rest {
        store(out, p, (128 + rest % 128) as u8);
        rest /= 128;
        p += 1;
    }
    store(out, p, rest as u8);
    p + 1
}
