// Table files: read one into a table in memory, and write a table in memory as one.
#![tactic(auto)]

ghost use Rattle.std.specs.Prelude.{◌≡◌, [], ◌≤◌, length};
ghost use Rattle.lists.specs.Lists.{over};
ghost use Rattle.numbers.specs.Numbers.{encode_all};
ghost use Rattle.table.specs.Memory.{tasks_of};
ghost use Rattle.table.specs.Written.{Writes};
ghost use Rattle.table.specs.declared.Verdict.TheVariants.{Good};
ghost use Rattle.files.specs.Reading.{rows_at, decode, read_answer, Loads};
ghost use Rattle.files.specs.Promises.{as_stored, loaded_by, answer_with, Fitted};
ghost use Rattle.files.specs.Writing.{file_numbers, file_of, Wrote};

use arrayvec::ArrayVec;
use fields::{Growing, Seven};
use numbers::Read;
use table::{GoodTable, Table, Verdict, Wanted, Written};

// The verdict on a file, and its table: zeros where the verdict is not good, which `AfterReading` holds.
#[derive(Clone, Copy)]
pub struct Loaded {
    pub verdict: Verdict,
    pub table: Table,
}

impl From<Result<GoodTable, Verdict>> for Loaded {
    ghost from_gives = { λ read answer. answer ≡ loaded_by read };

    fn from(read: Result<GoodTable, Verdict>) -> Loaded {
        match read {
            Ok(good) => Loaded {
                verdict: Verdict::Good,
                table: good.table,
            },
            Err(verdict) => Loaded {
                verdict,
                table: Table::zeros(),
            },
        }
    }
}

// A file's row count.
const ROW_COUNT: Wanted = Wanted {
    low: 0,
    high: 64,
    left: 64,
};

// The answer with this table: the rules over the whole of it, and where none is broken the table itself. It stands beside `load`, since
// it takes any table, also one with faults other than clashes.
pub fn answer_with(table: Table) -> Loaded
    ensures { result ≡ answer_with table }
{
    match table.check_clashes() {
        Ok(()) => Loaded {
            verdict: Verdict::Good,
            table,
        },
        Err(refusal) => Loaded::from(Err(refusal)),
    }
}

// The `n` rows that begin at `at`, as a table, and where reading goes on.
fn read_rows(bytes: &[u8], at: usize, n: u32) -> Result<Read<Table>, Verdict>
    requires { n ≤ 64 }
    ensures { result ≡ as_stored (rows_at n [] bytes.now at) }
{
    let mut growing = Growing::new();
    let mut p = at;
    for _ in 0..n {
        p = growing.read_row::<Seven>(bytes, p)?;
    }
    Ok(Read {
        value: growing.table,
        next: p,
    })
}

// Reads a table file: a table that nothing stands against, or why it is refused.
pub fn load(bytes: &[u8]) -> Result<GoodTable, Verdict>
    ensures { Loads (decode bytes.now) result }
{
    let count = fields::read_field(bytes, 0, ROW_COUNT)?;
    let rows = read_rows(bytes, count.next, count.value)?;
    if rows.next < bytes.len() {
        return Err(Verdict::Trailing(rows.next));
    }
    let table = rows.value;
    table.check_clashes()?;
    Ok(GoodTable { table })
}

// Reads a table file: the verdict, and the table, zeros where it is refused.
pub fn read(bytes: &[u8]) -> Loaded
    ensures { result ≡ read_answer bytes.now }
{
    Loaded::from(load(bytes))
}

// The numbers of a table's file, one after another.
fn file_numbers(t: &GoodTable) -> ArrayVec<u32, 1473>
    ensures { result.items ≡ file_numbers (tasks_of t.now.table) }
{
    let rows = t.table.used_rows();
    let mut rest = &t.table.times[..];
    let mut numbers = ArrayVec::new();
    numbers.push(rows.len() as u32);
    for row in rows {
        let (times, behind) = rest.split_at(row.parts as usize);
        numbers
            .try_extend_from_slice(&<[u32; 7]>::from(*row))
            .unwrap();
        numbers.try_extend_from_slice(times).unwrap();
        rest = behind;
    }
    numbers
}

// How many bytes numbers take.
fn size_of_all(numbers: &[u32]) -> usize
    requires { length numbers.now ≤ 1473 }
    ensures { result ≡ length (encode_all numbers.now) }
{
    numbers.iter().map(|n| numbers::size_of(*n)).sum()
}

// Writes numbers one after another to the front of `out`.
fn put_all(out: &mut [u8], numbers: &[u32])
    requires { length (encode_all numbers.now) ≤ length out.old }
    ensures { out.new ≡ over (encode_all numbers.now) out.old }
{
    let mut p = 0;
    for n in numbers {
        p += numbers::put_number(&mut out[p..], *n);
    }
}

// The file of a table that nothing stands against, where it fits; how many bytes it has.
fn put_file(t: &GoodTable, out: &mut [u8]) -> Result<usize, Verdict>
    ensures { Fitted (file_of t.now.table) out.old result out.new }
{
    let numbers = file_numbers(t);
    let size = size_of_all(numbers.as_slice());
    if out.len() < size {
        return Err(Verdict::NoRoom(size));
    }
    put_all(out, numbers.as_slice());
    Ok(size)
}

// Writes a table file: what stands against it first, then the room, and only then the bytes.
pub fn write(table: &Table, out: &mut [u8]) -> Written
    ensures { Wrote table.now out.old result out.new }
{
    Written::from(match GoodTable::try_from(*table) {
        Ok(good) => put_file(&good, out),
        Err(fault) => Err(fault),
    })
}

// Writes bytes that are worked out into lent room: all of them, or none where they do not fit.
pub fn write_bytes(bytes: &[u8], out: &mut [u8]) -> Written
    ensures { Writes Good bytes.now out.old result out.new }
{
    let n = bytes.len();
    if out.len() < n {
        return Written::from(Err(Verdict::NoRoom(n)));
    }
    out[..n].copy_from_slice(bytes);
    Written::from(Ok(n))
}
