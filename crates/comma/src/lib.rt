// Comma-separated lines of a spreadsheet: read into a table in memory, and written from one.
#![tactic(auto)]

ghost use Rattle.std.specs.Prelude.{◌≤◌, ◌≡◌, ◌++◌, [], length};
ghost use Rattle.text.specs.Promises.{Fits};
ghost use Rattle.table.specs.Memory.{tasks_of};
ghost use Rattle.files.specs.Reading.{Loads};
ghost use Rattle.comma.specs.Reading.{decode_text, read_text};
ghost use Rattle.comma.specs.Writing.{lines_of, WroteText};
ghost use Rattle.comma.specs.Promises.{line_text};

use fields::{Commas, Growing};
use files::Loaded;
use table::{GoodTable, Row, Table, Verdict, Written};
use text::Page;

// A table's text has at most so many bytes.
type Lines = Page<11520>;

// Reads a text, line by line to its end, at most 64, then the rules over the whole table: a table that nothing stands against, or why
// it is refused.
pub fn load(text: &[u8]) -> Result<GoodTable, Verdict>
    ensures { Loads (decode_text text.now) result }
{
    let mut growing = Growing::new();
    let mut p = 0;
    // where the next line begins is known once this one is read: a `while`
    while p < text.len() {
        if growing.table.count == 64 {
            return Err(Verdict::OutOfRange(p));
        }
        p = growing.read_row::<Commas>(text, p)?;
    }
    let table = growing.table;
    table.check_clashes()?;
    Ok(GoodTable { table })
}

// Reads a text: the verdict, and the table, zeros where it is refused.
pub fn read(text: &[u8]) -> Loaded
    ensures { result ≡ read_text text.now }
{
    Loaded::from(load(text))
}

// Writes the line of a row behind those that are there.
fn put_line(lines: &mut Lines, row: &Row, times: &[u32])
    requires some { 1 ≤ length times.now }
    requires room { Fits (line_text row.now times.now) lines.old 11520 }
    ensures { lines.new ≡ lines.old ++ line_text row.now times.now }
{
    lines.put_numbers(&<[u32; 7]>::from(*row), b',', b',');
    lines.put_numbers(times, b',', b'\r');
    lines.put(b"\n");
}

// The lines of a table.
fn lines_of(t: &GoodTable) -> Lines
    ensures { result ≡ lines_of (tasks_of t.now.table) }
{
    let mut lines = Page::new();
    let mut rest = &t.table.times[..];
    for row in t.table.used_rows() {
        let (times, behind) = rest.split_at(row.parts as usize);
        put_line(&mut lines, row, times);
        rest = behind;
    }
    lines
}

// Writes a table as text: what stands against it first, then the room, and only then the bytes.
pub fn write(table: &Table, out: &mut [u8]) -> Written
    ensures { WroteText table.now out.old result out.new }
{
    match GoodTable::try_from(*table) {
        Ok(good) => files::write_bytes(lines_of(&good).as_slice(), out),
        Err(fault) => Written::from(Err(fault)),
    }
}
