// The rate question: from rates to the least start delay and the least memories.
// Definitions to believe: specs/Rates (floor rate, w, need, memories, what serves), Choice of smoothing (the memories from the needs),
// specs/Answer (what the function below gives).
#![tactic(auto)]

ghost use Rattle.std.specs.Prelude.{true, ◌≡◌, suc, ◌+◌, ◌-◌, ◌≤◌, ◌<◌, min, length, get_or};
ghost use Rattle.base.specs.Range.{fold, two_least};
ghost use Rattle.base.specs.Set.{has, word_bits};
ghost use Rattle.base.specs.Table.{tab};
ghost use Rattle.job.specs.Tree.{link};
ghost use Rattle.job.specs.Read.{tree_in};
ghost use Rattle.job.specs.Sums.{sums_of, long_room};
ghost use Rattle.rates.specs.Rates.{total, floor_rate, least_rate};
ghost use Rattle.rates.specs.Answer.{number, Sizes};
ghost use Rattle.rates.specs.declared.Refusal.TheVariants.{Job as OfJob};
ghost use Rattle.rates.specs.Work.{floors_of, NeedsWithin, handed_by, memory_by, Worked};

use job::{Checked, Film, Job, Node};

// The delay that is found, and the total of the memories.
#[derive(Clone, Copy, Debug, PartialEq, Eq)]
pub struct Sizing {
    pub delay: u64,
    pub total: u64,
}

// Why none is found: the job or what is lent is refused, or no delay up to the longest is in time.
#[derive(Clone, Copy, Debug, PartialEq, Eq)]
pub enum Refusal {
    Job(job::Refusal),
    NoDelay,
}

impl From<job::Refusal> for Refusal {
    ghost from_gives = { λ refusal r. r ≡ OfJob refusal };

    fn from(refusal: job::Refusal) -> Refusal {
        Refusal::Job(refusal)
    }
}

// Document 01's number.
impl From<Refusal> for u64 {
    ghost from_gives = { λ refusal n. n ≡ number refusal };

    fn from(refusal: Refusal) -> u64 {
        match refusal {
            Refusal::Job(refusal) => u64::from(refusal),
            Refusal::NoDelay => pacing::NO_DELAY,
        }
    }
}

// The least of a start and the numbers at the members of a set.
fn least_of(set: u64, start: u64, numbers: &[u64; Job::MOST_NODES]) -> u64
    ensures { result ≡ fold (λ g i. min g (get_or numbers.now i 0)) start (has set) word_bits }
{
    let mut least = start;
    for i in base::members(set) {
        least = least.min(numbers[i]);
    }
    least
}

// The least rate among a node's own link and those below it.
fn floor_rate(film: Film, i: usize) -> u64
    requires { link film.job.now.nodes i ≡ true }
    ensures { result ≡ floor_rate (tree_in film.entry.job.now) i }
{
    let nodes = base::with(film.job.below(i), i);
    least_of(nodes, Node::GREATEST_RATE, &film.job.rate)
}

// The least rate of all: every link's node is below the root.
fn least_rate(film: Film) -> u64
    ensures { result ≡ least_rate (tree_in film.entry.job.now) }
{
    least_of(film.job.below(0), Node::GREATEST_RATE, &film.job.rate)
}

// The floor rate of each node at its place; elsewhere the least rate of all, at which a need is found anyway.
fn floor_rates(film: Film, least: u64) -> [u64; Job::MOST_NODES]
    requires { least ≡ least_rate (tree_in film.job.now) }
    ensures { result ≡ floors_of (tree_in film.entry.job.now) }
{
    let mut floors = [least; Job::MOST_NODES];
    for i in 1..film.job.nodes {
        floors[i] = floor_rate(film, i);
    }
    floors
}

// The second least of a start, which counts twice, and the numbers at the members of a set.
fn second_least_of(set: u64, start: u64, numbers: &[u64; Job::MOST_NODES]) -> u64
    ensures { result ≡ (fold (two_least (λ i. get_or numbers.now i 0)) (start, start) (has set) word_bits).1 }
{
    let mut least = start;
    let mut second = start;
    for i in base::members(set) {
        let next = numbers[i];
        second = second.min(least.max(next));
        least = least.min(next);
    }
    second
}

// What a node hands on to its children of what it is asked for.
fn handed_on(film: Film, needs: &[u64; Job::MOST_NODES], i: usize, asked: u64) -> u64
    ensures { result ≡ handed_by (tree_in film.entry.job.now) needs.now i asked }
{
    let children = film.job.children(i);
    let count = base::count(children);
    if count == 0 {
        return 0;
    }
    if count == 1 {
        return asked;
    }
    second_least_of(children, asked, needs)
}

// All memories from the needs, and their total: from the root down, as what a node is asked for hangs on what its parent hands on.
fn fill(film: Film, needs: &[u64; Job::MOST_NODES], memories: &mut [u64]) -> u64
    requires needs { NeedsWithin (tree_in film.job.now) needs.now }
    requires memories_len { length memories.old ≡ film.job.now.nodes - 1 }
    ensures memories { memories.new ≡ tab (λ i. memory_by (tree_in film.entry.job.now) needs.now (suc i)) (film.entry.job.now.nodes - 1) }
    ensures total { result ≡ total (tree_in film.entry.job.now) (memory_by (tree_in film.entry.job.now) needs.now) }
{
    let mut handed = [0u64; Job::MOST_NODES];
    let mut all = 0;
    for (i, place) in memories.iter_mut().enumerate() {
        let node = i + 1;
        let above = film.job.parent[node];
        let asked = needs[node].max(handed[above]);
        let onward = handed_on(film, needs, node, asked);
        handed[node] = onward;
        let memory = asked - onward;
        *place = memory;
        all += memory;
    }
    all
}

// The work on a job within the limits, with the sums of its film and room for the places of passes over them.
fn with_sums(film: Film, places: &mut [u64], memories: &mut [u64]) -> Result<Sizing, Refusal>
    requires room { length film.sums.t.now ≤ length places.old }
    requires memories_len { length memories.old ≡ film.job.now.nodes - 1 }
    ensures { Worked result film.entry.job.now film.entry.sums.t.now memories.old memories.new }
{
    let least = least_rate(film);
    let Some(delay) = pacing::start_delay(film.sums, least) else {
        return Err(Refusal::NoDelay);
    };
    let floors = floor_rates(film, least);
    let needs = pacing::needs(film.sums, &floors, places);
    let total = fill(film, &needs, memories);
    Ok(Sizing { delay, total })
}

// The same on an accepted job whose film has fewer frames than rooms for its sums and for places have places.
fn with_rooms<const ROOM: usize>(checked: Checked, memories: &mut [u64]) -> Result<Sizing, Refusal>
    requires memories_len { length memories.old ≡ checked.job.now.nodes - 1 }
    requires room { (checked.job.now.frames < ROOM) × (ROOM ≤ long_room) }
    ensures { Worked result checked.entry.job.now (sums_of checked.entry.bytes.now) memories.old memories.new }
{
    let mut room = job::room::<ROOM>();
    let mut places = job::room::<ROOM>();
    with_sums(checked.film(&mut room), &mut places, memories)
}

// The same on an accepted job: it chooses the rooms, as to clear those for the longest film takes longer than a short film's answer.
// The choice isn't made once in job: a closure for the work, which writes what is lent, would take more clauses than the branches.
fn with_job(checked: Checked, memories: &mut [u64]) -> Result<Sizing, Refusal>
    requires { length memories.old ≡ checked.job.now.nodes - 1 }
    ensures { Worked result checked.entry.job.now (sums_of checked.entry.bytes.now) memories.old memories.new }
{
    if checked.job.frames < job::SHORT_ROOM {
        with_rooms::<{ job::SHORT_ROOM }>(checked, memories)
    } else if checked.job.frames < job::MIDDLE_ROOM {
        with_rooms::<{ job::MIDDLE_ROOM }>(checked, memories)
    } else {
        with_rooms::<{ job::LONG_ROOM }>(checked, memories)
    }
}

// The rate question.
pub fn rate_question(bytes: &[u8], memories: &mut [u64]) -> Result<Sizing, Refusal>
    ensures { Sizes result bytes.now memories.old memories.new }
{
    let job = job::read(bytes)?;
    if memories.len() != job.nodes - 1 {
        return Err(Refusal::Job(job::Refusal::BadLent));
    }
    let checked = Checked { bytes, job: &job };
    with_job(checked, memories)
}
