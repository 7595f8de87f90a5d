// A row's window and the bounds of its parts, by searches over the periods and costs of rows.
#![tactic(auto)]

ghost use Rattle.std.specs.Prelude.{◌≡◌, ◌+◌, ◌*◌, ◌≤◌, ◌<◌, ◌^◌, length, true};
ghost use Rattle.model.specs.Bounds.{up};
ghost use Rattle.bounds.specs.Loads.{InRange, Summable, work_at, side, searched, solution, first_cost};
ghost use Rattle.bounds.specs.Promises.{AtPart, AtJob, OwnRow, JobLeft, end_of_part, bounds_in};

// The largest length that is looked at.
pub const LIMIT: u64 = 16777215;

// A row of a sum: its period and its cost.
#[derive(Clone, Copy, Default)]
pub struct Load {
    pub period: u32,
    pub cost: u32,
}

impl Load {
    // The work that the row can ask for before tick x: up(x/T) times C.
    fn work(self, x: u32) -> u64
        requires { InRange self }
        ensures { result ≡ up x self.period * self.cost }
    {
        x.div_ceil(self.period) as u64 * self.cost as u64
    }
}

// What a search found, and how often it worked out the right side.
#[derive(Clone, Copy)]
pub struct Answer {
    pub found: Option<u64>,
    pub rounds: u64,
}

// The rows of a sum: few enough, and each in range, so that their work can be summed.
#[derive(Clone, Copy)]
pub struct Loads<'a> {
    pub rows: &'a [Load],
    ghost summable: { Summable rows.now },
}

impl<'a> Loads<'a> {
    // The work that the rows can ask for before tick x.
    pub fn work(self, x: u64) -> u64
        requires { x ≤ 16777215 }
        ensures { result ≡ work_at self.entry.rows.now x }
    {
        let x = x as u32;
        self.rows.iter().map(|load| load.work(x)).sum()
    }

    // The least number from `from` up to the limit that is base plus the rows' work before it.
    pub fn search(self, base: u64, from: u64) -> Answer
        requires base_bound { base ≤ 2 ^ 62 }
        requires from_bound { from ≤ side self.rows.now base from }
        ensures { result ≡ searched self.entry.rows.now base from }
    {
        let mut x = from;
        let mut n: u64 = 0;
        // x goes to what the rows ask for, not by a step: a `while`
        while x <= LIMIT {
            let y = base + self.work(x);
            n += 1;
            if y == x {
                return Answer {
                    found: Some(x),
                    rounds: n,
                };
            }
            x = y;
        }
        Answer {
            found: None,
            rounds: n,
        }
    }

    // The number that a search finds, 0 for none, as the definition `solution` has it.
    fn solution(self, base: u64, from: u64) -> u64
        requires base_bound { base ≤ 2 ^ 62 }
        requires from_bound { from ≤ side self.rows.now base from }
        ensures { result ≡ solution self.entry.rows.now base from }
    {
        self.search(base, from).found.unwrap_or(0)
    }

    // The window of a row: its own numbers first, the higher rows' after them. The search begins at its C.
    #[inline(never)]
    pub fn window(self, blocking: u64) -> Answer
        requires some { 0 < length self.rows.now }
        requires blocking_bound { blocking ≤ 2 ^ 62 }
        ensures { result ≡ searched self.entry.rows.now blocking (first_cost self.entry.rows.now) }
    {
        self.search(blocking, self.rows[0].cost as u64)
    }
}

// The end of a part, and where the search for the next part may begin.
#[derive(Clone, Copy)]
pub struct PartEnd {
    pub end: u64,
    pub next: u64,
}

// What stands before a job, where its first search may begin, and when it was released.
#[derive(Clone, Copy)]
pub struct Job {
    pub base: u64,
    pub from: u64,
    pub release: u64,
}

// What a row's searches go over: the higher rows, and its core's preemptive rows; and whether it is cooperative itself.
#[derive(Clone, Copy)]
pub struct Around<'a> {
    pub higher: Loads<'a>,
    pub preemptive: Loads<'a>,
    pub cooperative: bool,
}

impl<'a> Around<'a> {
    // A cooperative part: the tick after its start over the higher rows, then its end over the preemptive rows alone.
    fn cooperative_end(self, base: u64, from: u64, time: u64) -> PartEnd
        requires { AtPart self.higher.rows.now self.preemptive.rows.now true base from time }
        ensures { result ≡ end_of_part self.entry.higher.rows.now self.entry.preemptive.rows.now true base from time }
    {
        let after = self.higher.solution(base + 1, from + 1);
        let earliest = after - 1 + time;
        let rest = earliest - self.preemptive.work(after);
        let end = self.preemptive.solution(rest, earliest);
        PartEnd {
            end,
            next: earliest,
        }
    }

    // The end of a part with `base` before it; the search begins at `from`, which no solution lies below, and the part's time.
    fn part_end(self, base: u64, from: u64, time: u64) -> PartEnd
        requires { AtPart self.higher.rows.now self.preemptive.rows.now self.cooperative base from time }
        ensures { result ≡ end_of_part self.entry.higher.rows.now self.entry.preemptive.rows.now self.entry.cooperative base from time }
    {
        if self.cooperative {
            return self.cooperative_end(base, from, time);
        }
        let end = self.higher.solution(base + time, from + time);
        PartEnd { end, next: end }
    }

    // One job: the bound of each part is raised to the job's response; what stands before the next job, and where its search may begin.
    fn job_parts(self, job: Job, times: &[u32], bounds: &mut [u32]) -> (u64, u64)
        requires at_job { AtJob self.higher.rows.now self.preemptive.rows.now self.cooperative job times.now }
        requires bounds_len { length bounds.old ≡ length times.now }
        ensures { JobLeft self.entry.higher.rows.now self.entry.preemptive.rows.now self.entry.cooperative job times.now
            bounds.old bounds.new result.0 result.1 }
    {
        let mut done = job.base;
        let mut at = job.from;
        for (r, time) in times.iter().enumerate() {
            let time = *time as u64;
            let part = self.part_end(done, at, time);
            let response = (part.end - job.release) as u32;
            bounds[r] = bounds[r].max(response);
            done += time;
            at = part.next;
        }
        (done, at)
    }
}

// What a row brings to its searches: its kind, its blocking and its window.
#[derive(Clone, Copy)]
pub struct Own {
    pub cooperative: bool,
    pub blocking: u64,
    pub window: u64,
}

// The bounds of a row's parts, job by job: its own numbers first in `loads`, the higher rows' behind. In a frame of its own the jobs'
// numbers stay in registers.
#[inline(never)]
pub fn row_bounds<'a>(
    loads: Loads<'a>,
    preemptive: Loads<'a>,
    own: Own,
    times: &[u32],
    bounds: &mut [u32],
)
    requires own_row { OwnRow loads.rows.now preemptive.rows.now own times.now }
    requires bounds_len { length bounds.old ≡ length times.now }
    ensures { bounds.new ≡ bounds_in loads.entry.rows.now preemptive.entry.rows.now own times.now }
{
    bounds.fill(0);
    let first = loads.rows[0];
    let around = Around {
        higher: Loads {
            rows: &loads.rows[1..],
        },
        preemptive,
        cooperative: own.cooperative,
    };
    let mut job = Job {
        base: own.blocking,
        from: own.blocking,
        release: 0,
    };
    // a job is more than its number, and each begins where the one before ended: a `while`
    while job.release < own.window {
        let (base, from) = around.job_parts(job, times, bounds);
        let release = job.release + first.period as u64;
        job = Job {
            base,
            from,
            release,
        };
    }
}
