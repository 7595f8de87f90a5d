// Stepping through wanted numbers, of a file or of a line of text: read the next one, or stop at its fault.
#![tactic(auto)]

ghost use Rattle.std.specs.Prelude.{◌≤◌, ◌<◌, ◌≡◌, List, [], length, get_or, drop};
ghost use Rattle.model.specs.Task.{Task};
ghost use Rattle.table.specs.Fields.{head};
ghost use Rattle.text.specs.Numerals.{digits_in};
ghost use Rattle.fields.specs.Stepping.{field_at, fields_at};
ghost use Rattle.fields.specs.TextFields.{decimal_at, value_at, ending_at, fits, text_field};
ghost use Rattle.fields.specs.Ways as Ways;
ghost use Rattle.fields.specs.Ways.{number_by, last_by, times_by, row_in};
ghost use Rattle.fields.specs.Promises.{as_read, as_row, Fills, RowInto, held, held_numeral, AllBelow, SoFar, Grows};

use numbers::{NumberFault, Read};
use table::{Row, Table, Verdict, Wanted};

// What ends a field.
#[derive(Clone, Copy, Debug, PartialEq, Eq)]
pub enum Ending {
    Comma,
    Line,
    Text,
}

// How the numbers of a row stand one after another. Bytes and place are two arguments, as in the definitions: each call is at another
// place, and the place is what a refusal carries.
pub trait Way {
    ghost way: { Ways.Way };

    // The number at `at`, if it may stand there.
    fn number(bytes: &[u8], at: usize, wanted: Wanted) -> Result<Read<u32>, Verdict>
        requires { wanted.high < 16777216 }
        ensures { result ≡ as_read (number_by way bytes.now wanted at) };

    // The last time of a row, at `at`.
    fn last_time(bytes: &[u8], at: usize) -> Result<Read<u32>, Verdict>
        ensures { result ≡ as_read (last_by way bytes.now at) };
}

// In a file: in groups of seven bits.
#[derive(Clone, Copy)]
pub struct Seven;

impl Way for Seven {
    ghost way = { Ways.Seven };

    fn number(bytes: &[u8], at: usize, wanted: Wanted) -> Result<Read<u32>, Verdict> {
        read_field(bytes, at, wanted)
    }

    fn last_time(bytes: &[u8], at: usize) -> Result<Read<u32>, Verdict> {
        read_field(bytes, at, table::TIME)
    }
}

// In a line of text: in decimal, a comma behind each but the last.
#[derive(Clone, Copy)]
pub struct Commas;

impl Way for Commas {
    ghost way = { Ways.Commas };

    fn number(bytes: &[u8], at: usize, wanted: Wanted) -> Result<Read<u32>, Verdict> {
        read_text_field(bytes, at, wanted, false)
    }

    fn last_time(bytes: &[u8], at: usize) -> Result<Read<u32>, Verdict> {
        read_text_field(bytes, at, table::TIME, true)
    }
}

// The number at `at`, if it may stand there.
#[tactic(auto, using(crate::proofs::Steps::by_verdict), unfolding(crate::specs::Stepping::field_at, crate::specs::Stepping::asked))]
pub fn read_field(bytes: &[u8], at: usize, wanted: Wanted) -> Result<Read<u32>, Verdict>
    ensures { result ≡ as_read (field_at bytes.now wanted at) }
{
    let read = match numbers::number_at(bytes, at) {
        Ok(read) => read,
        Err(NumberFault::EndsEarly) => return Err(Verdict::EndsEarly(bytes.len())),
        Err(NumberFault::Malformed) => return Err(Verdict::Malformed(at)),
    };
    wanted.judge(read.value, at)?;
    Ok(read)
}

// The byte at a place; past the end 0, which no text may have (`stands_at`).
fn byte_at(text: &[u8], at: usize) -> u8
    ensures { result ≡ get_or text.now at 0 }
{
    text.get(at).copied().unwrap_or(0)
}

// The digits that stand at a place.
fn digits_at(text: &[u8], at: usize) -> &[u8]
    ensures { result.now ≡ digits_in (drop at text.now) }
{
    let rest = text.get(at..).unwrap_or(&[]);
    let n = rest.iter().take_while(|b| b.is_ascii_digit()).count();
    &rest[..n]
}

// The number that digits make, held at 16,777,216, which is above every range.
#[tactic(auto, using(crate::proofs::Numbered::digit_by_digit))]
fn numeral(digits: &[u8]) -> u32
    requires { digits_in digits.now ≡ digits.now }
    ensures { result ≡ held_numeral digits.now }
{
    let mut value: u32 = 0;
    for digit in digits {
        value = (10 * value + (*digit - b'0') as u32).min(16777216);
    }
    value
}

// The decimal number that begins at `at`.
#[tactic(auto, using(crate::proofs::Decimal::by_digits))]
fn decimal_at(text: &[u8], at: usize) -> Result<Read<u32>, Verdict>
    ensures { result ≡ as_read (held (decimal_at text.now at)) }
{
    let digits = digits_at(text, at);
    if digits.is_empty() {
        return Err(Verdict::BadText(at));
    }
    if 1 < digits.len() && digits[0] == b'0' {
        return Err(Verdict::BadText(at + 1));
    }
    Ok(Read {
        value: numeral(digits),
        next: at + digits.len(),
    })
}

// A field's number, which may be quoted.
#[tactic(auto, using(crate::proofs::Valued::by_quotes))]
fn value_at(text: &[u8], at: usize) -> Result<Read<u32>, Verdict>
    ensures { result ≡ as_read (held (value_at text.now at)) }
{
    if byte_at(text, at) != b'"' {
        return decimal_at(text, at);
    }
    let Read { value, next } = decimal_at(text, at + 1)?;
    if byte_at(text, next) != b'"' {
        return Err(Verdict::BadText(next));
    }
    Ok(Read {
        value,
        next: next + 1,
    })
}

// What ends a field at `at`, and where the next begins.
#[tactic(auto, unfolding(crate::specs::TextFields::ending_at, crate::specs::TextFields::stands_at))]
fn ending_at(text: &[u8], at: usize) -> Result<Read<Ending>, Verdict>
    ensures { result ≡ as_read (ending_at text.now at) }
{
    let Some(byte) = text.get(at) else {
        return Ok(Read {
            value: Ending::Text,
            next: at,
        });
    };
    if *byte == b',' {
        return Ok(Read {
            value: Ending::Comma,
            next: at + 1,
        });
    }
    if *byte != b'\r' {
        return Err(Verdict::BadText(at));
    }
    if byte_at(text, at + 1) != b'\n' {
        return Err(Verdict::BadText(at + 1));
    }
    Ok(Read {
        value: Ending::Line,
        next: at + 2,
    })
}

// Whether a stop fits: a comma where other fields follow, and behind the last the end of the line or of the text.
#[tactic(auto, unfolding(crate::specs::TextFields::fits))]
fn fits(last: bool, ending: Ending) -> bool
    ensures { result ≡ fits last ending }
{
    match ending {
        Ending::Comma => !last,
        Ending::Line | Ending::Text => last,
    }
}

// The field of a text at `at`: its text, its range, then whether its stop fits.
#[tactic(auto, using(crate::proofs::FieldSteps::by_steps))]
fn read_text_field(text: &[u8], at: usize, wanted: Wanted, last: bool) -> Result<Read<u32>, Verdict>
    requires { wanted.high < 16777216 }
    ensures { result ≡ as_read (text_field last text.now wanted at) }
{
    let Read { value, next: end } = value_at(text, at)?;
    let ending = ending_at(text, end)?;
    wanted.judge(value, at)?;
    if !fits(last, ending.value) {
        return Err(Verdict::BadText(end));
    }
    Ok(Read {
        value,
        next: ending.next,
    })
}

// As many numbers as `out` has room for, each in its own range, from `at` on; where the next begins.
#[tactic(auto, using(crate::proofs::Filling::one_by_one))]
pub fn read_fields<W: Way>(
    bytes: &[u8],
    at: usize,
    wanted: &[Wanted],
    out: &mut [u32],
) -> Result<usize, Verdict>
    requires same_length { length wanted.now ≡ length out.old }
    requires in_range { AllBelow wanted.now }
    ensures { Fills (fields_at (number_by W.way bytes.now) wanted.now [] at) result out.new }
{
    let mut p = at;
    for (i, one) in wanted.iter().enumerate() {
        let read = W::number(bytes, p, *one)?;
        out[i] = read.value;
        p = read.next;
    }
    Ok(p)
}

// The fields of the row that begins at `at`, where `used` times are already there.
#[tactic(auto, using(crate::proofs::Below::head_below))]
fn read_head<W: Way>(bytes: &[u8], at: usize, used: u32) -> Result<Read<Row>, Verdict>
    ensures { result ≡ as_row (fields_at (number_by W.way bytes.now) (head used) [] at) }
{
    let mut fields = [0u32; 7];
    let next = read_fields::<W>(bytes, at, &table::head(used), &mut fields)?;
    Ok(Read {
        value: Row::from(fields),
        next,
    })
}

// The times of a row, one for each place of `out`; where what follows them begins.
fn read_times<W: Way>(bytes: &[u8], at: usize, out: &mut [u32]) -> Result<usize, Verdict>
    requires some { 1 ≤ length out.old }
    requires few { length out.old ≤ 64 }
    ensures { Fills (times_by W.way bytes.now (length out.old) at) result out.new }
{
    let n = out.len() - 1;
    let p = read_fields::<W>(bytes, at, &[table::TIME; 64][..n], &mut out[..n])?;
    let last = W::last_time(bytes, p)?;
    out[n] = last.value;
    Ok(last.next)
}

// The row that begins at `at`, its times stored behind the `used` ones that are already there.
#[tactic(auto, using(crate::proofs::RowLaid::fields_then_times))]
pub fn read_row<W: Way>(
    bytes: &[u8],
    at: usize,
    used: u32,
    times: &mut [u32],
) -> Result<Read<Row>, Verdict>
    requires before { used ≤ 1024 }
    requires room { length times.old ≡ 1024 }
    ensures { RowInto (row_in W.way bytes.now used at) used times.old result times.new }
{
    let Read { value: row, next } = read_head::<W>(bytes, at, used)?;
    let a = used as usize;
    let e = a + row.parts as usize;
    let next = read_times::<W>(bytes, next, &mut times[a..e])?;
    Ok(Read { value: row, next })
}

// A table as it is read: its rows so far, and how many times they have.
#[derive(Clone, Copy)]
pub struct Growing {
    pub table: Table,
    pub used: u32,
}

impl Growing {
    // No rows yet.
    #[tactic(auto, unfolding(lists::specs::Lists::each))]
    pub fn new() -> Growing
        ensures { SoFar [] result.table result.used }
    {
        Growing {
            table: Table::zeros(),
            used: 0,
        }
    }

    // Reads the row that begins at `at` behind those that are there; where the next begins.
    pub fn read_row<W: Way>(&mut self, bytes: &[u8], at: usize) -> Result<usize, Verdict>
        requires few { self.old.table.count < 64 }
        requires room { self.old.used ≤ 1024 }
        ensures { (done : List Task) → SoFar done self.old.table self.old.used
            → Grows (row_in W.way bytes.now self.old.used at) done result self.new.table self.new.used }
    {
        let Read { value: row, next } = read_row::<W>(bytes, at, self.used, &mut self.table.times)?;
        self.table.rows[self.table.count] = row;
        self.table.count += 1;
        self.used += row.parts;
        Ok(next)
    }
}
