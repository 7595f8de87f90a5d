// The task table in memory, the verdicts with their codes and numbers, and what can stand against a table: its own faults and clashes.
#![tactic(auto)]

ghost use Rattle.std.specs.Prelude.{◌≡◌, [], ◌≤◌, length, Bool, Ok, Err, MatchResult};
ghost use Rattle.table.specs.declared.Row.{Row};
ghost use Rattle.table.specs.Verdicts.{code_of, number_of, said, judged};
ghost use Rattle.table.specs.Fields.{head, judge, fault_in, fields_of, row_from};
ghost use Rattle.table.specs.Memory.{stored, used_rows};
ghost use Rattle.table.specs.Rules as R;
ghost use Rattle.table.specs.Clash.{breaks, coop_above, clash_of};
ghost use Rattle.table.specs.Promises.{Computes, FirstsOf, IsSlot, crosses_marks, marks_with, first_of, row_fault_at};
ghost use Rattle.table.specs.Written.{written_by};
ghost use Rattle.table.specs.Faults.{rows_fault, fault_of};

use std::fmt;

// One row of the table; its times stand apart. Its kind is a number: in memory it may be any, and `fault_of` judges it.
#[derive(Clone, Copy)]
pub struct Row {
    pub id: u32,
    pub core: u32,
    pub kind: u32,
    pub priority: u32,
    pub period: u32,
    pub deadline: u32,
    pub parts: u32,
}

// The row of these fields, in file order.
impl From<[u32; 7]> for Row {
    ghost from_gives = { λ fields row. row ≡ row_from fields };

    fn from(fields: [u32; 7]) -> Row {
        let [id, core, kind, priority, period, deadline, parts] = fields;
        Row {
            id,
            core,
            kind,
            priority,
            period,
            deadline,
            parts,
        }
    }
}

// The fields of a row, in file order.
impl From<Row> for [u32; 7] {
    ghost from_gives = { λ row fields. fields ≡ fields_of row };

    fn from(row: Row) -> [u32; 7] {
        [
            row.id,
            row.core,
            row.kind,
            row.priority,
            row.period,
            row.deadline,
            row.parts,
        ]
    }
}

// The table: `count` rows are used, and their times stand one after another (fixed memory, in the form that 01 names).
#[derive(Clone, Copy)]
pub struct Table {
    pub count: usize,
    pub rows: [Row; 64],
    pub times: [u32; 1024],
}

// What is said of a file, a core, a table, a text or a chain: the documents' codes, each with the number it carries. `Good` is among
// them, since the documents' table of codes begins with it (`CodeTable`).
#[derive(Clone, Copy, Debug, PartialEq, Eq)]
pub enum Verdict {
    Good,
    EndsEarly(usize),
    Malformed(usize),
    OutOfRange(usize),
    IdTwice(usize),
    PriorityTwice(usize),
    KindsCrossed(usize),
    TooManyTimes(usize),
    Trailing(usize),
    NoSuchCore(usize),
    NoRoom(usize),
    NoWindow(usize),
    Missed(usize),
    UnknownStep(usize),
    BadText(usize),
}

impl Verdict {
    // The code that the documents give for it.
    pub fn code(self) -> u32
        ensures { result ≡ code_of self }
    {
        match self {
            Verdict::Good => 0,
            Verdict::EndsEarly(_) => 1,
            Verdict::Malformed(_) => 2,
            Verdict::OutOfRange(_) => 3,
            Verdict::IdTwice(_) => 4,
            Verdict::PriorityTwice(_) => 5,
            Verdict::KindsCrossed(_) => 6,
            Verdict::TooManyTimes(_) => 7,
            Verdict::Trailing(_) => 8,
            Verdict::NoSuchCore(_) => 9,
            Verdict::NoRoom(_) => 10,
            Verdict::NoWindow(_) => 11,
            Verdict::Missed(_) => 12,
            Verdict::UnknownStep(_) => 16,
            Verdict::BadText(_) => 17,
        }
    }

    // The number that it carries.
    pub fn number(self) -> usize
        ensures { result ≡ number_of self }
    {
        match self {
            Verdict::Good => 0,
            Verdict::EndsEarly(n)
            | Verdict::Malformed(n)
            | Verdict::OutOfRange(n)
            | Verdict::IdTwice(n)
            | Verdict::PriorityTwice(n)
            | Verdict::KindsCrossed(n)
            | Verdict::TooManyTimes(n)
            | Verdict::Trailing(n)
            | Verdict::NoSuchCore(n)
            | Verdict::NoRoom(n)
            | Verdict::NoWindow(n)
            | Verdict::Missed(n)
            | Verdict::UnknownStep(n)
            | Verdict::BadText(n) => n,
        }
    }
}

// The verdict of a check: good, or its refusal.
impl From<Result<(), Verdict>> for Verdict {
    ghost from_gives = { λ checked v. v ≡ said checked };

    fn from(checked: Result<(), Verdict>) -> Verdict {
        match checked {
            Ok(()) => Verdict::Good,
            Err(refusal) => refusal,
        }
    }
}

// `code C number N`.
impl fmt::Display for Verdict {
    fn fmt<W: fmt::Write>(&self, f: &mut fmt::Formatter<W>) -> fmt::Result {
        write!(f, "code {} number {}", self.code(), self.number())
    }
}

// The verdict on writing bytes into lent room, and how many were written: 0 under a refusal, which `WriteSays` holds.
#[derive(Clone, Copy)]
pub struct Written {
    pub verdict: Verdict,
    pub count: usize,
}

// What is answered for so many bytes written, or for a refusal: nothing was written.
impl From<Result<usize, Verdict>> for Written {
    ghost from_gives = { λ wrote answer. answer ≡ written_by wrote };

    fn from(wrote: Result<usize, Verdict>) -> Written {
        match wrote {
            Ok(count) => Written {
                verdict: Verdict::Good,
                count,
            },
            Err(verdict) => Written { verdict, count: 0 },
        }
    }
}

// What a number may be: from low to high, else code 3; and no more than are left, else code 7.
#[derive(Clone, Copy)]
pub struct Wanted {
    pub low: u32,
    pub high: u32,
    pub left: u32,
}

impl Wanted {
    // A number's own fault: 3, then 7, with the number that it carries.
    pub fn judge(self, n: u32, carried: usize) -> Result<(), Verdict>
        ensures { result ≡ judged (judge self carried n) }
    {
        if n < self.low || self.high < n {
            return Err(Verdict::OutOfRange(carried));
        }
        if self.left < n {
            return Err(Verdict::TooManyTimes(carried));
        }
        Ok(())
    }
}

// A field that has a range and no more.
fn field(low: u32, high: u32) -> Wanted
    ensures { result ≡ record { low = low; high = high; left = high } }
{
    Wanted {
        low,
        high,
        left: high,
    }
}

// The fields before a row's times, in file order, with `used` of the 1,024 times taken before it.
pub fn head(used: u32) -> [Wanted; 7]
    ensures { result ≡ head used }
{
    [
        field(1, 65535), // id
        field(0, 3), // core
        field(0, 1), // type: 0 preemptive, 1 cooperative
        field(1, 255), // priority
        field(1, 16777215), // period
        field(1, 16777215), // deadline
        Wanted {
            low: 1,
            high: 64,
            left: 1024u32.saturating_sub(used),
        }, // part count
    ]
}

// One worst time.
pub const TIME: Wanted = Wanted {
    low: 1,
    high: 16777215,
    left: 16777215,
};

// The first row that has 5; and if none has, the first that has 6.
#[derive(Drop)]
struct Firsts {
    twice: Option<usize>,
    crossed: Option<usize>,
}

// What is kept of a core's rows: the lowest preemptive and the highest cooperative priority.
#[derive(Clone, Copy)]
struct Marks {
    lowest: u32,
    highest: u32,
}

// Whether the first row is cooperative, the second preemptive, and the first higher.
fn coop_above(a: &Row, b: &Row) -> bool
    ensures { result ≡ coop_above a.now b.now }
{
    a.kind == 1 && b.kind == 0 && b.priority < a.priority
}

// The first row that breaks a rule with an earlier one.
fn first_clash<F: Fn(&Row, &Row) -> bool>(rows: &[Row], breaks: F) -> Option<usize>
    requires { F.IsAlwaysCallable breaks }
    ensures { (f : Row → Row → Bool) → Computes F.Fn breaks f → result ≡ first_of f rows.now }
{
    let mut first = None;
    'rows: for (i, row) in rows.iter().enumerate() {
        for earlier in &rows[..i] {
            if breaks(row, earlier) {
                first = Some(i);
                break 'rows;
            }
        }
    }
    first
}

// The slot of a row's core and priority, 256 a core. Every row of a file has one.
fn slot_of(row: &Row) -> Option<usize>
    ensures { IsSlot row.now result }
{
    if 3 < row.core || 1 < row.kind || 255 < row.priority {
        return None;
    }
    Some(row.core as usize * 256 + row.priority as usize)
}

impl Marks {
    // Whether a row crosses kinds by the marks of its core.
    fn crossed_by(self, row: &Row) -> bool
        ensures { result ≡ crosses_marks row.now self }
    {
        if row.kind == 0 {
            return row.priority < self.highest;
        }
        self.lowest < row.priority
    }

    // The marks of a core with a row more.
    fn with(self, row: &Row) -> Marks
        ensures { result ≡ marks_with row.now self }
    {
        if row.kind == 0 {
            return Marks {
                lowest: self.lowest.min(row.priority),
                highest: self.highest,
            };
        }
        Marks {
            lowest: self.lowest,
            highest: self.highest.max(row.priority),
        }
    }
}

// Whether the first row crosses kinds with an earlier one.
fn crossed(row: &Row, earlier: &Row) -> bool
    ensures { result ≡ breaks R.KindsCrossed row.now earlier.now }
{
    earlier.core == row.core && (coop_above(row, earlier) || coop_above(earlier, row))
}

// 5 and 6 where some row has no slot, as no file has it: every two rows are compared.
fn compared_clashes(rows: &[Row]) -> Firsts
    ensures { FirstsOf rows.now result }
{
    Firsts {
        twice: first_clash(rows, |row, earlier| {
            earlier.core == row.core && earlier.priority == row.priority
        }),
        crossed: first_clash(rows, crossed),
    }
}

// 5 and 6 in one pass, by a slot for each core and priority and two marks for each core.
fn priority_clashes(rows: &[Row]) -> Firsts
    ensures { FirstsOf rows.now result }
{
    let unmet = Marks {
        lowest: 256,
        highest: 0,
    };
    let mut taken = [false; 1024];
    let mut marks = [unmet; 4];
    let mut crossed = None;
    for (i, row) in rows.iter().enumerate() {
        let Some(slot) = slot_of(row) else {
            return compared_clashes(rows);
        };
        if taken[slot] {
            return Firsts {
                twice: Some(i),
                crossed,
            };
        }
        taken[slot] = true;
        let core = row.core as usize;
        let kept = marks[core];
        crossed = crossed.or(kept.crossed_by(row).then_some(i));
        marks[core] = kept.with(row);
    }
    Firsts {
        twice: None,
        crossed,
    }
}

// The first fault of numbers one after another, each with its range.
fn judge_all(numbers: &[u32], wanted: &[Wanted], carried: usize) -> Result<(), Verdict>
    ensures { result ≡ judged (fault_in wanted.now carried numbers.now) }
{
    for (n, one) in numbers.iter().zip(wanted) {
        one.judge(*n, carried)?;
    }
    Ok(())
}

// The first fault of row i, whose times begin `rest`: those of the 1,024 that are left.
fn judge_row(row: &Row, i: usize, rest: &[u32]) -> Result<(), Verdict>
    requires { length rest.now ≤ 1024 }
    ensures { result ≡ judged (row_fault_at i row.now rest.now) }
{
    let used = 1024 - rest.len() as u32;
    judge_all(&<[u32; 7]>::from(*row), &head(used), i)?;
    for time in &rest[..row.parts as usize] {
        TIME.judge(*time, i)?;
    }
    Ok(())
}

impl Table {
    // A table with no rows: all zeros. Arrays of 64 and of 1,024 derive no `Default`.
    pub fn zeros() -> Table
        ensures { result ≡ stored [] }
    {
        let row = Row::from([0u32; 7]);
        Table {
            count: 0,
            rows: [row; 64],
            times: [0; 1024],
        }
    }

    // The rows that are used: at most 64, whatever the count says.
    pub fn used_rows(&self) -> &[Row]
        ensures { result.now ≡ used_rows self.now }
    {
        &self.rows[..self.count.min(64)]
    }

    // The first fault of the rows, one by one.
    fn check_rows(&self) -> Result<(), Verdict>
        ensures { result ≡ judged (rows_fault 0 0 (used_rows self.now) self.now.times) }
    {
        let mut rest = &self.times[..];
        for (i, row) in self.used_rows().iter().enumerate() {
            judge_row(row, i, rest)?;
            rest = &rest[row.parts as usize..];
        }
        Ok(())
    }

    // The rules over the whole table: 4, then 5, then 6.
    pub fn check_clashes(&self) -> Result<(), Verdict>
        ensures { result ≡ judged (clash_of (used_rows self.now)) }
    {
        let rows = self.used_rows();
        if let Some(i) = first_clash(rows, |row, earlier| earlier.id == row.id) {
            return Err(Verdict::IdTwice(i));
        }
        let first = priority_clashes(rows);
        if let Some(i) = first.twice {
            return Err(Verdict::PriorityTwice(i));
        }
        if let Some(i) = first.crossed {
            return Err(Verdict::KindsCrossed(i));
        }
        Ok(())
    }

    // What stands against writing it: its row count, its rows one by one, then the rules over all of it.
    pub fn check(&self) -> Result<(), Verdict>
        ensures { result ≡ judged (fault_of self.now) }
    {
        if 64 < self.count {
            return Err(Verdict::OutOfRange(64));
        }
        self.check_rows()?;
        self.check_clashes()
    }
}

// A table that nothing stands against.
#[derive(Clone, Copy)]
pub struct GoodTable {
    pub table: Table,
    ghost good: { code_of (fault_of table) ≡ 0 },
    ghost all_rows: { length table.rows ≡ 64 },
    ghost all_times: { length table.times ≡ 1024 },
}

impl TryFrom<Table> for GoodTable {
    type Error = Verdict;

    ghost try_from_gives = { λ t r. MatchResult r
        (λ good. (judged (fault_of t) ≡ Ok tt) × (good.table ≡ t))
        (λ refusal. judged (fault_of t) ≡ Err refusal) };

    fn try_from(table: Table) -> Result<GoodTable, Verdict> {
        table.check()?;
        Ok(GoodTable { table })
    }
}
