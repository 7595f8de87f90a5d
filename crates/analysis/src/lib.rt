// One core's answer: what is said of it, and its bounds in lent room.
#![tactic(auto)]

ghost use Rattle.std.specs.Prelude.{◌≡◌, ◌≤◌, length};
ghost use Rattle.cores.specs.Cores.{tasks_in};
ghost use Rattle.cores.specs.Promises.{IsCore};
ghost use Rattle.analysis.specs.Analysis.{refusal, room_said, Gives, Analyses, AnalysesTable};
ghost use Rattle.analysis.specs.Promises.{AtRow, Bounding, ToBound, WindowsOf, WindowsFor, BoundedBy, window_in, bounds_on, higher_row};
ghost use Rattle.analysis.specs.Promises.{AnalysesGood};

use arrayvec::ArrayVec;
use bounds::{Loads, Own};
use cores::{Asked, Core};
use table::{GoodTable, Row, Table, Verdict};

// What is said of a core, and how many bounds were written: under code 12 all of them, which `Bounds.count` holds.
#[derive(Clone, Copy)]
pub struct Analysed {
    pub verdict: Verdict,
    pub count: usize,
}

// What is said where no bound is written (a name for it, where `From` would say nothing of bounds).
fn refused(verdict: Verdict) -> Analysed
    ensures { result ≡ refusal verdict }
{
    Analysed { verdict, count: 0 }
}

// The higher of the row to name so far and another.
fn higher_of(top: Option<Row>, row: &Row) -> Option<Row>
    ensures { result ≡ higher_row top row.now }
{
    match top {
        Some(t) if row.priority <= t.priority => top,
        _ => Some(*row),
    }
}

// The window of row `own`.
fn row_window(asked: &[Asked], own: usize) -> Option<u64>
    requires { AtRow asked.now own }
    ensures { result ≡ window_in asked.now own }
{
    let loads = cores::own_first(asked, own);
    let rows = Loads {
        rows: loads.as_slice(),
    };
    rows.window(cores::blocking_of(asked, own)).found
}

// The window of each row, or 11 with the highest row without one.
fn windows(c: &Core) -> Result<ArrayVec<u64, 64>, Verdict>
    requires { IsCore c.now }
    ensures { WindowsOf (tasks_in c.now) result }
{
    let mut lengths = ArrayVec::new();
    let mut top = None;
    let asked = c.used_asked();
    for (i, row) in c.own.used_rows().iter().enumerate() {
        match row_window(asked, i) {
            Some(length) => lengths.push(length),
            None => top = higher_of(top, row),
        }
    }
    match top {
        Some(row) => Err(Verdict::NoWindow(row.id as usize)),
        None => Ok(lengths),
    }
}

// The bounds of row `own`, whose window and times are these.
fn bounds_of_row(asked: &[Asked], own: usize, window: u64, times: &[u32], room: &mut [u32])
    requires bounding { Bounding asked.now own window times.now }
    requires room_len { length room.old ≡ length times.now }
    ensures { room.new ≡ bounds_on asked.now own window times.now }
{
    let loads = cores::own_first(asked, own);
    let preemptive = cores::preemptive_loads(asked);
    let brings = Own {
        cooperative: asked[own].kind == 1,
        blocking: cores::blocking_of(asked, own),
        window,
    };
    let rows = Loads {
        rows: loads.as_slice(),
    };
    let preemptive = Loads {
        rows: preemptive.as_slice(),
    };
    bounds::row_bounds(rows, preemptive, brings, times, room);
}

// The bounds of each row's parts to the front of the room, row by row; 12 with the highest row that is late.
fn core_bounds(c: &Core, windows: &[u64], room: &mut [u32]) -> Result<(), Verdict>
    requires { ToBound c.now windows.now (length room.old) }
    ensures { BoundedBy (tasks_in c.now) room.old result room.new }
{
    let asked = c.used_asked();
    let mut top = None;
    let mut a = 0;
    let mut rest = &c.own.times[..];
    for (i, row) in c.own.used_rows().iter().enumerate() {
        let (times, behind) = rest.split_at(row.parts as usize);
        let e = a + times.len();
        bounds_of_row(asked, i, windows[i], times, &mut room[a..e]);
        if row.deadline < room[e - 1] {
            top = higher_of(top, row);
        }
        rest = behind;
        a = e;
    }
    match top {
        Some(row) => Err(Verdict::Missed(row.id as usize)),
        None => Ok(()),
    }
}

// The window of each row, where so much room is enough: 10, then 11.
fn windows_for(c: &Core, room: usize) -> Result<ArrayVec<u64, 64>, Verdict>
    requires { IsCore c.now }
    ensures { WindowsFor (tasks_in c.now) room result }
{
    if room < c.parts {
        return Err(Verdict::NoRoom(c.parts));
    }
    windows(c)
}

// The rows of a core: 10, 11, 12.
pub fn analyse_core(c: &Core, room: &mut [u32]) -> Analysed
    requires { IsCore c.now }
    ensures { Gives (room_said (tasks_in c.now) (length room.old)) (tasks_in c.now) room.old result room.new }
{
    match windows_for(c, room.len()) {
        Ok(windows) => Analysed {
            verdict: Verdict::from(core_bounds(c, windows.as_slice(), room)),
            count: c.parts,
        },
        Err(refusal) => refused(refusal),
    }
}

// The answer for one core of a table that nothing stands against: 9, then 10, 11, 12.
pub fn analyse_good(t: &GoodTable, core: u32, room: &mut [u32]) -> Analysed
    ensures { AnalysesGood t.now.table core room.old result room.new }
{
    if 3 < core {
        return refused(Verdict::NoSuchCore(core as usize));
    }
    analyse_core(&cores::core_of(t, core), room)
}

// The answer for one core of a table in memory: its own faults first.
pub fn analyse_table(t: &Table, core: u32, room: &mut [u32]) -> Analysed
    ensures { AnalysesTable t.now core room.old result room.new }
{
    match GoodTable::try_from(*t) {
        Ok(good) => analyse_good(&good, core, room),
        Err(fault) => refused(fault),
    }
}

// The answer for one core of a table file: the reading codes first.
pub fn analyse(bytes: &[u8], core: u32, room: &mut [u32]) -> Analysed
    ensures { Analyses bytes.now core room.old result room.new }
{
    match files::load(bytes) {
        Ok(good) => analyse_good(&good, core, room),
        Err(refusal) => refused(refusal),
    }
}
