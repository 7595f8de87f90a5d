// The delay along a chain of parts: the sum of period and bound over the steps that count.
#![tactic(auto)]

ghost use Rattle.std.specs.Prelude.{◌≤◌, ◌≡◌, [], length};
ghost use Rattle.lists.specs.Lists.{total, up_to};
ghost use Rattle.table.specs.Memory.{tasks_of};
ghost use Rattle.chains.specs.Lists.{steps_at, list_numbers};
ghost use Rattle.chains.specs.Chains.{links_at, chain_said, delay_answer};
ghost use Rattle.chains.specs.Promises.{as_steps, IsList, delayed_by, StartsOf, Finds, OnCores, cores_in};
ghost use Rattle.chains.specs.Promises.{Works, WorksAll, adding, added_at, StepsInRange};

use arrayvec::ArrayVec;
use fields::Seven;
use table::{GoodTable, Verdict, Wanted};

// What an answer speaks of: with code 0 the whole chain.
#[derive(Clone, Copy, Debug, PartialEq, Eq)]
pub enum About {
    Chain,
    File,
    List,
    Core(u32),
}

// The verdict on a chain, what it speaks of, and the delay: 0 where it is refused, which `ChainSays` holds.
#[derive(Clone, Copy)]
pub struct Delayed {
    pub about: About,
    pub verdict: Verdict,
    pub delay: u32,
}

// Why a chain has no delay: what is refused, and the verdict on it.
#[derive(Clone, Copy, Debug, PartialEq, Eq)]
pub struct Refusal {
    pub about: About,
    pub verdict: Verdict,
}

// What is answered for a delay, or for a refusal: its delay is 0.
impl From<Result<u32, Refusal>> for Delayed {
    ghost from_gives = { λ along answer. answer ≡ delayed_by along };

    fn from(along: Result<u32, Refusal>) -> Delayed {
        match along {
            Ok(delay) => Delayed {
                about: About::Chain,
                verdict: Verdict::Good,
                delay,
            },
            Err(Refusal { about, verdict }) => Delayed {
                about,
                verdict,
                delay: 0,
            },
        }
    }
}

// A step as its list has it: a task id, and a part from 1.
#[derive(Clone, Copy, Default)]
pub struct ChainStep {
    pub task: u32,
    pub part: u32,
}

// A step in its table: task id, part from 0, core and period, and where its row's bounds begin among those of its core.
#[derive(Clone, Copy, Default)]
struct Spot {
    task: u32,
    part: u32,
    core: u32,
    period: u32,
    start: u32,
}

// How many steps a list has.
const STEP_COUNT: Wanted = Wanted {
    low: 1,
    high: 32,
    left: 32,
};

// What a step's two numbers may be: a task id, a part.
const STEP: [Wanted; 2] = [
    Wanted {
        low: 1,
        high: 65535,
        left: 65535,
    },
    Wanted {
        low: 1,
        high: 64,
        left: 64,
    },
];

// Room for the bounds of one core: a table has no more parts.
const ROOM: usize = 1024;

// The `n` steps of a list that begin at `at`, and its end.
fn read_steps(list: &[u8], at: usize, n: u32) -> Result<ArrayVec<ChainStep, 32>, Verdict>
    requires { n ≤ 32 }
    ensures { result ≡ as_steps (steps_at list.now n at) }
{
    let mut steps = ArrayVec::new();
    let mut p = at;
    for _ in 0..n {
        let mut pair = [0u32; 2];
        p = fields::read_fields::<Seven>(list, p, &STEP, &mut pair)?;
        let [task, part] = pair;
        steps.push(ChainStep { task, part });
    }
    if p < list.len() {
        return Err(Verdict::Trailing(p));
    }
    Ok(steps)
}

// Reads a list of steps.
fn read_list(list: &[u8]) -> Result<ArrayVec<ChainStep, 32>, Verdict>
    ensures { result ≡ as_steps (list_numbers list.now) }
{
    let count = fields::read_field(list, 0, STEP_COUNT)?;
    read_steps(list, count.next, count.value)
}

// Where the bounds of each row of a table begin among those of its core.
fn starts_of(t: &GoodTable) -> [u32; 64]
    ensures { StartsOf (tasks_of t.now.table) result }
{
    let mut used = [0u32; 4];
    let mut starts = [0u32; 64];
    for (i, row) in t.table.used_rows().iter().enumerate() {
        let core = row.core as usize;
        starts[i] = used[core];
        used[core] += row.parts;
    }
    starts
}

// What the chain's steps are in their table: the first whose task or part is unknown is refused.
fn find_steps(t: &GoodTable, steps: &[ChainStep]) -> Result<ArrayVec<Spot, 32>, Verdict>
    requires { IsList steps.now }
    ensures { Finds (tasks_of t.now.table) (links_at (tasks_of t.now.table) steps.now [] 0) result }
{
    let starts = starts_of(t);
    let rows = t.table.used_rows();
    let mut spots = ArrayVec::new();
    for (i, step) in steps.iter().enumerate() {
        let Some(at) = rows.iter().position(|row| row.id == step.task) else {
            return Err(Verdict::UnknownStep(i));
        };
        let row = &rows[at];
        if row.parts < step.part {
            return Err(Verdict::UnknownStep(i));
        }
        spots.push(Spot {
            task: step.task,
            part: step.part - 1,
            core: row.core,
            period: row.period,
            start: starts[at],
        });
    }
    Ok(spots)
}

// The bounds of one core into its room, or what is said of it.
fn work_out(t: &GoodTable, core: u32, rooms: &mut [[u32; ROOM]; 4]) -> Result<(), Refusal>
    requires { core ≤ 3 }
    ensures { Works (tasks_of t.now.table) core rooms.old result rooms.new }
{
    let answer = analysis::analyse_good(t, core, &mut rooms[core as usize]);
    match answer.verdict {
        Verdict::Good => Ok(()),
        verdict => Err(Refusal {
            about: About::Core(core),
            verdict,
        }),
    }
}

// Every bound of the chain's cores into the rooms, or the first core, in step order, whose code is not 0.
fn work_out_all(t: &GoodTable, spots: &[Spot], rooms: &mut [[u32; ROOM]; 4]) -> Result<(), Refusal>
    requires { OnCores spots.now }
    ensures { WorksAll (tasks_of t.now.table) (cores_in spots.now) result rooms.new }
{
    let mut ready = [false; 4];
    for spot in spots {
        let core = spot.core;
        if !ready[core as usize] {
            work_out(t, core, rooms)?;
            ready[core as usize] = true;
        }
    }
    Ok(())
}

// What a step adds to the delay: its period and its bound, unless the next step is one task with it and a later part.
fn added(step: Spot, next: Option<Spot>, bound: u32) -> u32
    requires period { step.period ≤ 16777215 }
    requires bound { bound ≤ 16777215 }
    ensures { result ≡ adding step next bound }
{
    match next {
        Some(next) if step.task == next.task && step.part < next.part => 0,
        _ => step.period + bound,
    }
}

// What the steps add.
fn sum_of(spots: &[Spot], rooms: &[[u32; ROOM]; 4]) -> u32
    requires { StepsInRange spots.now rooms.now }
    ensures { result ≡ total (added_at spots.now rooms.now) (up_to (length spots.now)) }
{
    let mut sum: u32 = 0;
    for (i, step) in spots.iter().enumerate() {
        let next = spots.get(i + 1).copied();
        let bound = rooms[step.core as usize][(step.start + step.part) as usize];
        sum += added(*step, next, bound);
    }
    sum
}

// The delay along a chain of a table.
fn delay_in(t: &GoodTable, steps: &[ChainStep]) -> Result<u32, Refusal>
    requires { IsList steps.now }
    ensures { delayed_by result ≡ chain_said (tasks_of t.now.table) (links_at (tasks_of t.now.table) steps.now [] 0) }
{
    let spots = find_steps(t, steps).map_err(|verdict| Refusal {
        about: About::List,
        verdict,
    })?;
    let mut rooms = [[0u32; ROOM]; 4];
    work_out_all(t, spots.as_slice(), &mut rooms)?;
    Ok(sum_of(spots.as_slice(), &rooms))
}

// The delay along the chain that a list names in a table file, or what is refused.
fn delay_along(bytes: &[u8], list: &[u8]) -> Result<u32, Refusal>
    ensures { delayed_by result ≡ delay_answer bytes.now list.now }
{
    let table = files::load(bytes).map_err(|verdict| Refusal {
        about: About::File,
        verdict,
    })?;
    let steps = read_list(list).map_err(|verdict| Refusal {
        about: About::List,
        verdict,
    })?;
    delay_in(&table, steps.as_slice())
}

// The delay along the chain that a list names in a table file.
pub fn delay(bytes: &[u8], list: &[u8]) -> Delayed
    ensures { result ≡ delay_answer bytes.now list.now }
{
    Delayed::from(delay_along(bytes, list))
}
