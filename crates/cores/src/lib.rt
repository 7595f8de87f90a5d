// One core of a table as one value, and from what the searches ask of its rows: the rows of a sum, and the blocking.
#![tactic(auto)]

ghost use Rattle.std.specs.Prelude.{◌≡◌, ◌++◌, ◌+◌, ◌≤◌, ◌<◌, Bool, length};
ghost use Rattle.lists.specs.Lists.{sum, largest};
ghost use Rattle.model.specs.Bounds.{on_core};
ghost use Rattle.table.specs.Memory.{task_of, tasks_of};
ghost use Rattle.cores.specs.declared.Asked.{Asked};
ghost use Rattle.cores.specs.Cores.{asked_of, core_of, used_asked};
ghost use Rattle.cores.specs.Promises.{IsCore, Computes, wanted_loads, own_first, preemptive_loads, longest_below, blocking_in};

use arrayvec::ArrayVec;
use bounds::Load;
use table::{GoodTable, Row, Table};

// What the searches ask of a row. Its kind is a number, as in a `Row`: only 0 is preemptive, only 1 cooperative.
#[derive(Clone, Copy, Default)]
pub struct Asked {
    pub kind: u32,
    pub priority: u32,
    pub load: Load,
    pub longest: u32,
}

// One core's rows in table order, as a table of their own, and what the searches ask of each; `parts` is how many parts they have.
#[derive(Clone, Copy)]
pub struct Core {
    pub own: Table,
    pub parts: usize,
    pub asked: [Asked; 64],
}

impl Core {
    // What the searches ask of each row that is used. An `ArrayVec` in the core would keep it from being `Copy`.
    pub fn used_asked(&self) -> &[Asked]
        ensures { result.now ≡ used_asked self.now }
    {
        &self.asked[..self.own.count.min(64)]
    }
}

// What is asked where there is no row.
const NOTHING: Asked = Asked {
    kind: 0,
    priority: 0,
    load: Load { period: 0, cost: 0 },
    longest: 0,
};

// The sum of times.
fn sum_of(times: &[u32]) -> u32
    requires { sum times.now ≤ 4294967295 }
    ensures { result ≡ sum times.now }
{
    times.iter().sum()
}

// The largest of times, 0 for none, as `largest` has it.
fn largest_of(times: &[u32]) -> u32
    ensures { result ≡ largest times.now }
{
    times.iter().copied().max().unwrap_or(0)
}

// What is asked of a row with these times.
fn asked_of(row: &Row, times: &[u32]) -> Asked
    requires { sum times.now ≤ 4294967295 }
    ensures { result ≡ asked_of (task_of row.now times.now) }
{
    let cost = sum_of(times);
    Asked {
        kind: row.kind,
        priority: row.priority,
        load: Load {
            period: row.period,
            cost,
        },
        longest: largest_of(times),
    }
}

// One core of a table.
pub fn core_of(t: &GoodTable, core: u32) -> Core
    ensures is { result ≡ core_of (on_core core (tasks_of t.now.table)) }
    ensures good { IsCore result }
{
    let mut own = Table::zeros();
    let mut parts = 0;
    let mut asked = [NOTHING; 64];
    let mut rest = &t.table.times[..];
    for row in t.table.used_rows() {
        let (times, behind) = rest.split_at(row.parts as usize);
        rest = behind;
        if row.core == core {
            own.times[parts..parts + times.len()].copy_from_slice(times);
            own.rows[own.count] = *row;
            asked[own.count] = asked_of(row, times);
            own.count += 1;
            parts += times.len();
        }
    }
    Core { own, parts, asked }
}

// The periods and costs of the rows wanted go behind those that are there.
fn put_loads<F: Fn(&Asked) -> bool>(asked: &[Asked], wanted: F, loads: &mut ArrayVec<Load, 64>)
    requires callable { F.IsAlwaysCallable wanted }
    requires room { (p : Asked → Bool) × Computes F.Fn wanted p × (length loads.old.items + length (wanted_loads p asked.now) ≤ 64) }
    ensures { (p : Asked → Bool) → Computes F.Fn wanted p → loads.new.items ≡ loads.old.items ++ wanted_loads p asked.now }
{
    for a in asked {
        if wanted(a) {
            loads.push(a.load);
        }
    }
}

// The period and cost of row `own` first, those of the higher rows behind.
pub fn own_first(asked: &[Asked], own: usize) -> ArrayVec<Load, 64>
    requires there { own < length asked.now }
    requires few { length asked.now ≤ 64 }
    ensures { result.items ≡ own_first asked.now own }
{
    let Asked { priority, load, .. } = asked[own];
    let mut loads = ArrayVec::new();
    loads.push(load);
    put_loads(asked, |a| priority < a.priority, &mut loads);
    loads
}

// The periods and costs of the preemptive rows.
pub fn preemptive_loads(asked: &[Asked]) -> ArrayVec<Load, 64>
    requires { length asked.now ≤ 64 }
    ensures { result.items ≡ preemptive_loads asked.now }
{
    let mut loads = ArrayVec::new();
    put_loads(asked, |a| a.kind == 0, &mut loads);
    loads
}

// The longest part among the rows with a priority below this, 0 for none, as 01's B has it.
fn longest_below(asked: &[Asked], priority: u32) -> u32
    ensures { result ≡ longest_below priority asked.now }
{
    asked
        .iter()
        .filter(|a| a.priority < priority)
        .map(|a| a.longest)
        .max()
        .unwrap_or(0)
}

// The blocking of row `own`: the longest lower part less the tick that it had run before; 0 without one, and for a preemptive row.
pub fn blocking_of(asked: &[Asked], own: usize) -> u64
    requires { own < length asked.now }
    ensures { result ≡ blocking_in asked.now own }
{
    let a = &asked[own];
    if a.kind != 1 {
        return 0;
    }
    longest_below(asked, a.priority).saturating_sub(1) as u64
}
