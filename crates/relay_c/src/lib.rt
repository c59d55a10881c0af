// The C interface, declared to C in include/relay.h: thin calls, each with the whole contract of the function that it calls.
#![tactic(auto)]

ghost use Rattle.std.specs.Prelude.{Result, ◌≡◌, length};
ghost use Rattle.base.specs.Table.{tab};
ghost use Rattle.job.specs.Steps.{or_else};
ghost use Rattle.job.specs.Read.{limits};
ghost use Rattle.job.specs.Refusal.{bad_lent, refusal};
ghost use Rattle.job.specs.declared.Refusal.{Refusal as JobRefusal};
ghost use Rattle.planner.specs.Answer.{Answers, row_place};
ghost use Rattle.planner.specs.declared.Planned.{Planned};
ghost use Rattle.planner.specs.declared.Refusal as planner;
ghost use Rattle.rates.specs.Answer.{Sizes};
ghost use Rattle.rates.specs.declared.Sizing.{Sizing};
ghost use Rattle.rates.specs.declared.Refusal as rates;
ghost use Rattle.radio.specs.Answer as radio;
ghost use Rattle.radio.specs.declared.Refusal.{Refusal as RadioRefusal};
ghost use Rattle.store.specs.Store.{Starts, Appends, Takes};
ghost use Rattle.writing.specs.PutBack.{Puts};
ghost use Rattle.relay_c.specs.Numbers.{version, limit_numbers, number_of, size_numbers, job_sizes, memory_numbers, row_numbers};
ghost use Rattle.relay_c.specs.Numbers.{rate_numbers, step_numbers, state_length, tree_from, number_at, StepSays};

use job::{Job, Limits};
use planner::{Place, Planned};
use rates::Sizing;
use running::{Progress, Running};
use store::Store;

// How many numbers a running tree is in C: the slot number and a place for each node.
const STATE: usize = Job::MOST_NODES + 1;

// The version of the library: 1,000,000 for each major version, 1,000 for each minor one, 1 for each patch. CHANGELOG.md has them all.
const VERSION: u64 = 1_007_000;

#[unsafe(no_mangle)]
pub extern "C" fn relay_version() -> u64
    ensures { result ≡ version }
{
    VERSION
}

// Every bound, the length of a running tree and of a line, so that a header's constants can be held against them. C's
// struct is flat.
#[repr(C)]
#[derive(Clone, Copy)]
pub struct LibraryLimits {
    pub fewest_nodes: usize,
    pub most_nodes: usize,
    pub fewest_frames: usize,
    pub most_frames: usize,
    pub longest_delay: usize,
    pub greatest_memory: u64,
    pub greatest_rate: u64,
    pub greatest_frame: u64,
    pub tree_length: usize,
    pub most_rates: usize,
    pub line_length: usize,
    pub most_children: usize,
}

#[unsafe(no_mangle)]
pub extern "C" fn relay_library_limits() -> LibraryLimits
    ensures { result ≡ limit_numbers limits }
{
    let all = Limits::all();
    LibraryLimits {
        fewest_nodes: all.fewest_nodes,
        most_nodes: all.most_nodes,
        fewest_frames: all.fewest_frames,
        most_frames: all.most_frames,
        longest_delay: all.longest_delay,
        greatest_memory: all.greatest_memory,
        greatest_rate: all.greatest_rate,
        greatest_frame: all.greatest_frame,
        tree_length: STATE,
        most_rates: radio::MOST_RATES,
        line_length: radio::LINE_LENGTH,
        most_children: Store::MOST_CHILDREN,
    }
}

// The first of refusals 1 to 10 that applies to these bytes, 0 where they are a job.
#[unsafe(no_mangle)]
pub extern "C" fn relay_refusal(job: &[u8]) -> u64
    ensures { result ≡ refusal job.now }
{
    job::read(job).err().map_or(0, u64::from)
}

// What the lengths of outputs follow from: document 01's number, n, M, H and the plan's length.
#[repr(C)]
#[derive(Clone, Copy, Default)]
pub struct JobSizes {
    pub number: u64,
    pub nodes: usize,
    pub frames: usize,
    pub last_slot: usize,
    pub plan_length: usize,
}

impl From<Result<job::Sizes, job::Refusal>> for JobSizes {
    ghost from_gives = { λ answer numbers. numbers ≡ size_numbers answer };

    fn from(answer: Result<job::Sizes, job::Refusal>) -> JobSizes {
        match answer {
            Ok(sizes) => JobSizes {
                number: 0,
                nodes: sizes.nodes,
                frames: sizes.frames,
                last_slot: sizes.last_slot,
                plan_length: sizes.plan_length,
            },
            Err(refusal) => JobSizes {
                number: u64::from(refusal),
                ..JobSizes::default()
            },
        }
    }
}

// The sizes of the job that any bytes say, or their refusal.
#[unsafe(no_mangle)]
pub extern "C" fn relay_job_sizes(job: &[u8]) -> JobSizes
    ensures { result ≡ job_sizes job.now }
{
    JobSizes::from(job::Sizes::read(job))
}

// What the memory question returns: document 01's number, H and T(M).
#[repr(C)]
#[derive(Clone, Copy, Default)]
pub struct MemoryAnswer {
    pub number: u64,
    pub last_slot: u64,
    pub total: u64,
}

impl From<Result<Planned, planner::Refusal>> for MemoryAnswer {
    ghost from_gives = { λ answer numbers. numbers ≡ memory_numbers answer };

    fn from(answer: Result<Planned, planner::Refusal>) -> MemoryAnswer {
        match answer {
            Ok(planned) => MemoryAnswer {
                number: 0,
                last_slot: planned.last_slot,
                total: planned.total,
            },
            Err(refusal) => MemoryAnswer {
                number: u64::from(refusal),
                ..MemoryAnswer::default()
            },
        }
    }
}

// The memory question: an answer that the planner's contract allows, by its numbers.
#[unsafe(no_mangle)]
pub extern "C" fn relay_memory_question(
    job: &[u8],
    plan: &mut [u64],
    peaks: &mut [u64],
) -> MemoryAnswer
    ensures { (a : Result Planned planner.Refusal)
        × (Answers a job.now plan.old plan.new peaks.old peaks.new
        × (result ≡ memory_numbers a)) }
{
    MemoryAnswer::from(planner::memory_question(job, plan, peaks))
}

// Where a row lies in a plan: its first place, and how many slots it has; 0 twice where there is none.
#[repr(C)]
#[derive(Clone, Copy, Default)]
pub struct Row {
    pub start: usize,
    pub slots: usize,
}

impl From<Option<Place>> for Row {
    ghost from_gives = { λ place row. row ≡ row_numbers place };

    fn from(place: Option<Place>) -> Row {
        match place {
            Some(place) => Row {
                start: place.start,
                slots: place.slots,
            },
            None => Row::default(),
        }
    }
}

// The row of one link, by its place in a plan of so many numbers.
#[unsafe(no_mangle)]
pub extern "C" fn relay_row_of(job: &[u8], planned: usize, link: usize) -> Row
    ensures { result ≡ row_numbers (row_place job.now planned link) }
{
    Row::from(planner::row_place(job, planned, link))
}

// What the rate question returns: document 01's number, w and the total.
#[repr(C)]
#[derive(Clone, Copy, Default)]
pub struct RateAnswer {
    pub number: u64,
    pub delay: u64,
    pub total: u64,
}

impl From<Result<Sizing, rates::Refusal>> for RateAnswer {
    ghost from_gives = { λ answer numbers. numbers ≡ rate_numbers answer };

    fn from(answer: Result<Sizing, rates::Refusal>) -> RateAnswer {
        match answer {
            Ok(sizing) => RateAnswer {
                number: 0,
                delay: sizing.delay,
                total: sizing.total,
            },
            Err(refusal) => RateAnswer {
                number: u64::from(refusal),
                ..RateAnswer::default()
            },
        }
    }
}

// The rate question: an answer that its contract allows, by its numbers.
#[unsafe(no_mangle)]
pub extern "C" fn relay_rate_question(job: &[u8], memories: &mut [u64]) -> RateAnswer
    ensures { (a : Result Sizing rates.Refusal)
        × (Sizes a job.now memories.old memories.new × (result ≡ rate_numbers a)) }
{
    RateAnswer::from(rates::rate_question(job, memories))
}

// The lines of constant rates: what `radio::constant_rates` gives, by its number.
#[unsafe(no_mangle)]
pub extern "C" fn relay_constant_rates(job: &[u8], rates: &[u64], lines: &mut [u64]) -> u64
    ensures { (a : Result (Unit {0}) RadioRefusal)
        × (radio.Answers job.now rates.now lines.old a lines.new × (result ≡ radio.number_of a)) }
{
    radio::constant_rates(job, rates, lines)
        .err()
        .map_or(0, u64::from)
}

// An answer of the rate question put back into a job: what `writing::put_back` gives, by its number.
#[unsafe(no_mangle)]
pub extern "C" fn relay_put_back(job: &mut [u8], delay: u64, memories: &[u64]) -> u64
    ensures { (a : Result (Unit {0}) JobRefusal)
        × (Puts job.old delay memories.now a job.new × (result ≡ number_of a)) }
{
    writing::put_back(job, delay, memories)
        .err()
        .map_or(0, u64::from)
}

// What a step gives: the number of its outcome, and the link that 14 names.
#[repr(C)]
#[derive(Clone, Copy)]
pub struct StepAnswer {
    pub number: u64,
    pub link: u64,
}

impl From<Result<Progress, running::Refusal>> for StepAnswer {
    ghost from_gives = { λ outcome numbers. numbers ≡ step_numbers outcome };

    fn from(outcome: Result<Progress, running::Refusal>) -> StepAnswer {
        match outcome {
            Ok(progress) => StepAnswer {
                number: u64::from(progress),
                link: 0,
            },
            Err(refusal) => StepAnswer {
                number: u64::from(refusal),
                link: match refusal {
                    running::Refusal::BrokenRule(link) => link as u64,
                    running::Refusal::Job(_) => 0,
                },
            },
        }
    }
}

// The running tree that lent numbers say.
fn tree_from(numbers: &[u64]) -> Running
    requires { length numbers.now ≡ state_length }
    ensures { result ≡ tree_from numbers.now }
{
    let mut carried = [0u64; Job::MOST_NODES];
    carried.copy_from_slice(&numbers[1..]);
    Running {
        slot: numbers[0],
        carried,
    }
}

// The numbers of a running tree, into lent ones.
fn tree_into(tree: Running, numbers: &mut [u64])
    requires { length numbers.old ≡ state_length }
    ensures { numbers.new ≡ tab (number_at tree) state_length }
{
    numbers[0] = tree.slot;
    numbers[1..].copy_from_slice(&tree.carried);
}

// The refusal of a step that was not lent the numbers of a running tree: 1 to 10 come before 11.
fn no_tree(job: &[u8]) -> StepAnswer
    ensures { result ≡ record { number = or_else (refusal job.now) bad_lent; link = 0 } }
{
    let refusal = job::read(job).err().unwrap_or(job::Refusal::BadLent);
    StepAnswer {
        number: u64::from(refusal),
        link: 0,
    }
}

// A step of a running tree that is lent as its numbers.
#[unsafe(no_mangle)]
pub extern "C" fn relay_step(
    tree: &mut [u64],
    job: &[u8],
    plan: &[u64],
    sent: &mut [u64],
    held: &mut [u64],
) -> StepAnswer
    ensures { StepSays result job.now plan.now tree.old tree.new
        sent.old sent.new held.old held.new }
{
    if tree.len() != STATE {
        return no_tree(job);
    }
    let step = tree_from(tree).step(job, plan, sent, held);
    tree_into(step.state, tree);
    StepAnswer::from(step.outcome)
}

// A byte store, changed where C keeps it: started, with the contract of `Store::new`.
#[unsafe(no_mangle)]
pub extern "C" fn relay_store_start(store: &mut Store, length: usize, children: usize) -> u64
    ensures { Starts store.old length children result store.new }
{
    match Store::new(length, children) {
        Ok(started) => {
            *store = started;
            0
        }
        Err(refusal) => refusal.into(),
    }
}

// Bytes appended to it, with the contract of `Store::append`.
#[unsafe(no_mangle)]
pub extern "C" fn relay_store_append(store: &mut Store, slice: &mut [u8], bytes: &[u8]) -> u64
    ensures { Appends store.old slice.old bytes.now result store.new slice.new }
{
    store.append(slice, bytes).err().map_or(0, u64::from)
}

// Bytes taken by a child of it, with the contract of `Store::take`.
#[unsafe(no_mangle)]
pub extern "C" fn relay_store_take(
    store: &mut Store,
    slice: &[u8],
    child: usize,
    out: &mut [u8],
) -> u64
    ensures { Takes store.old slice.now child out.old result store.new out.new }
{
    store.take(slice, child, out).err().map_or(0, u64::from)
}
