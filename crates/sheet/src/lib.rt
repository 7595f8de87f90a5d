// The printed timing sheet: worked out core by core and written line by line.
#![tactic(auto)]

ghost use Rattle.std.specs.Prelude.{◌+◌, ◌<◌, ◌≤◌, ◌≡◌, [], ◌++◌, length};
ghost use Rattle.table.specs.Memory.{used_rows, tasks_of};
ghost use Rattle.text.specs.Text.{line};
ghost use Rattle.text.specs.Promises.{Fits};
ghost use Rattle.sheet.specs.Sheet.{verdict_words, bound_line, core_line, file_line};
ghost use Rattle.sheet.specs.Sheet.{core_text, good_text, sheet_text, Prints};
ghost use Rattle.sheet.specs.Promises.{BoundsFor, row_text, rows_text, core_bytes};

use table::{GoodTable, Row, Table, Verdict, Written};
use text::Page;

// A sheet has at most so many bytes.
type Paper = Page<29842>;

// Writes the end of a verdict line: `code C number N`.
#[tactic(auto, unfolding(text::specs::Text::joined))]
fn put_verdict(paper: &mut Paper, v: Verdict)
    requires { Fits (line (verdict_words v)) paper.old 29842 }
    ensures { paper.new ≡ paper.old ++ line (verdict_words v) }
{
    paper.put_word(b"code", b' ');
    paper.put_decimal(v.code() as usize, b' ');
    paper.put_word(b"number", b' ');
    paper.put_decimal(v.number(), b'\n');
}

// Writes the line of one bound, part `r` of a row counted from 0.
#[tactic(auto, unfolding(crate::specs::Sheet::bound_line))]
fn put_bound(paper: &mut Paper, core: u32, row: &Row, r: u32, bound: u32)
    requires part { r < 1024 }
    requires room { Fits (bound_line core row.now.id (r + 1) bound row.now.deadline) paper.old 29842 }
    ensures { paper.new ≡ paper.old ++ bound_line core row.now.id (r + 1) bound row.now.deadline }
{
    let numbers = [core, row.id, r + 1, bound, row.deadline];
    paper.put_numbers(&numbers, b' ', b'\n');
}

// Writes the lines of a row, one for each of its bounds.
fn put_lines(paper: &mut Paper, core: u32, row: &Row, bounds: &[u32])
    requires parts { length bounds.now ≤ 1024 }
    requires room { Fits (row_text core row.now bounds.now) paper.old 29842 }
    ensures { paper.new ≡ paper.old ++ row_text core row.now bounds.now }
{
    for (r, bound) in bounds.iter().enumerate() {
        put_bound(paper, core, row, r as u32, *bound);
    }
}

// Writes the lines of a core, from its rows and their bounds.
fn put_rows(paper: &mut Paper, core: u32, own: &Table, bounds: &[u32])
    requires bounds { BoundsFor own.now (length bounds.now) }
    requires room { Fits (rows_text core (used_rows own.now) bounds.now) paper.old 29842 }
    ensures { paper.new ≡ paper.old ++ rows_text core (used_rows own.now) bounds.now }
{
    let mut rest = bounds;
    for row in own.used_rows() {
        let (its, behind) = rest.split_at(row.parts as usize);
        put_lines(paper, core, row, its);
        rest = behind;
    }
}

// Writes the verdict line of a core.
#[tactic(auto, unfolding(text::specs::Text::joined, crate::specs::Sheet::core_line))]
fn put_core_line(paper: &mut Paper, core: u32, v: Verdict)
    requires { Fits (core_line core v) paper.old 29842 }
    ensures { paper.new ≡ paper.old ++ core_line core v }
{
    paper.put_word(b"core", b' ');
    paper.put_decimal(core as usize, b' ');
    put_verdict(paper, v);
}

// Writes what is printed of a file with a reading code.
#[tactic(auto, unfolding(text::specs::Text::joined, crate::specs::Sheet::file_line))]
fn put_file_line(paper: &mut Paper, v: Verdict)
    requires { Fits (file_line v) paper.old 29842 }
    ensures { paper.new ≡ paper.old ++ file_line v }
{
    paper.put_word(b"file", b' ');
    put_verdict(paper, v);
}

// Writes what is said of a core: with code 11 only the verdict.
#[tactic(auto, unfolding(crate::specs::Promises::core_bytes))]
fn put_core(paper: &mut Paper, core: u32, own: &Table, v: Verdict, bounds: &[u32])
    requires bounds { BoundsFor own.now (length bounds.now) }
    requires room { Fits (core_bytes core (used_rows own.now) bounds.now v) paper.old 29842 }
    ensures { paper.new ≡ paper.old ++ core_bytes core (used_rows own.now) bounds.now v }
{
    if v.code() != 11 {
        put_rows(paper, core, own, bounds);
    }
    put_core_line(paper, core, v);
}

// Works out a core of a table and writes what is said of it.
fn put_analysed(paper: &mut Paper, core: u32, t: &GoodTable)
    requires there { core ≤ 3 }
    requires room { Fits (core_text (tasks_of t.now.table) core) paper.old 29842 }
    ensures { paper.new ≡ paper.old ++ core_text (tasks_of t.now.table) core }
{
    let c = cores::core_of(t, core);
    let mut bounds = [0u32; 1024];
    let answer = analysis::analyse_core(&c, &mut bounds);
    put_core(paper, core, &c.own, answer.verdict, &bounds);
}

// Writes the sheet of a table: the header, then the cores 0 to 3.
fn put_cores(paper: &mut Paper, t: &GoodTable)
    requires { Fits (good_text (tasks_of t.now.table)) paper.old 29842 }
    ensures { paper.new ≡ paper.old ++ good_text (tasks_of t.now.table) }
{
    paper.put_word(b"core task runnable bound deadline", b'\n');
    for core in 0..4 {
        put_analysed(paper, core, t);
    }
}

// Writes the sheet of a file, read once, on a page that is lent: handed back by value it would be copied.
fn put_sheet(paper: &mut Paper, bytes: &[u8])
    requires { paper.old ≡ [] }
    ensures { paper.new ≡ sheet_text bytes.now }
{
    match files::load(bytes) {
        Ok(good) => put_cores(paper, &good),
        Err(refusal) => put_file_line(paper, refusal),
    }
}

// Prints the sheet of a file: worked out first, and written only where it fits.
pub fn sheet(bytes: &[u8], out: &mut [u8]) -> Written
    ensures { Prints bytes.now out.old result out.new }
{
    let mut paper = Page::new();
    put_sheet(&mut paper, bytes);
    files::write_bytes(paper.as_slice(), out)
}
