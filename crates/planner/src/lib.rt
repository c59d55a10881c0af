// The memory question: from memories to what every link sends in every slot; and the row of one link.
// Definitions to believe: specs/Rules (the rules of a plan and the best plan), specs/Answer (what the functions below give).
#![tactic(auto)]

ghost use Rattle.std.specs.Prelude.{true, false, ◌≡◌, ◌-◌, length};
ghost use Rattle.job.specs.Read.{tree_in};
ghost use Rattle.job.specs.Sums.{sums_of, sums_in, last_in};
ghost use Rattle.rows.specs.Row.{lazy_row, least_peak_of};
ghost use Rattle.rows.specs.Search.{Searchable};
ghost use Rattle.curves.specs.Rows.{upper_rows};
ghost use Rattle.planner.specs.Work.{Ready, OutputsFit, Starves, AllFed, problem_in, lazy_rows_of, peaks_of, width_of, Worked};
ghost use Rattle.planner.specs.Answer.{number, row_place, row_of, Answers};
ghost use Rattle.planner.specs.declared.Refusal.TheVariants.{Job as OfJob};

use job::{Checked, Film, Job};
use rows::Links;

// H and T(M) of a plan that is given.
#[derive(Clone, Copy, Debug, PartialEq, Eq)]
pub struct Planned {
    pub last_slot: u64,
    pub total: u64,
}

// Why no plan is given: the job or what is lent is refused, or no plan keeps the rules.
#[derive(Clone, Copy, Debug, PartialEq, Eq)]
pub enum Refusal {
    Job(job::Refusal),
    NoPlan,
}

impl From<job::Refusal> for Refusal {
    ghost from_gives = { λ refusal r. r ≡ OfJob refusal };

    fn from(refusal: job::Refusal) -> Refusal {
        Refusal::Job(refusal)
    }
}

// Document 01's number.
impl From<Refusal> for u64 {
    ghost from_gives = { λ refusal n. n ≡ number refusal };

    fn from(refusal: Refusal) -> u64 {
        match refusal {
            Refusal::Job(refusal) => u64::from(refusal),
            Refusal::NoPlan => 12,
        }
    }
}

// The search for a starving leaf, which stops at the first leaf and slot found. A leaf below the root never starves; any other leaf's
// lower curve comes from its parent's, for which the row is room. The most that a leaf may have is D + b here: no leaf has more by its
// upper curve, and where no leaf needs more, lower is nowhere above upper. Labelled loops left from inside, as document 01 has it.
fn starves(film: Film, lowers: &mut [u64]) -> bool
    ensures starving { result ≡ true
        → Starves (tree_in film.entry.job.now) (sums_in film.entry.sums.t.now) (last_in film.entry.sums.t.now) (length lowers.old) }
    ensures fed { result ≡ false
        → AllFed (tree_in film.entry.job.now) (sums_in film.entry.sums.t.now) (last_in film.entry.sums.t.now) (length lowers.old) }
{
    let leaves = film.job.leaves();
    let mut found = false;
    let mut near = 0;
    'search: for i in base::members(leaves) {
        let u = film.job.parent[i];
        if u != 0 {
            curves::keep_row(film, near, u, lowers);
            near = u;
            for (k, &above) in lowers.iter().enumerate() {
                let plays = curves::played(film.sums.t, film.job.delay[i], k);
                let lower = curves::leaf_lower(plays, above, film.job.memory[u]);
                let upper = plays + film.job.memory[i];
                if lower > upper {
                    found = true;
                    break 'search;
                }
            }
        }
    }
    found
}

// One link: the least peak between its lower row and its part of the plan, which has its upper row; the lazy row at that peak takes
// its place.
fn fill_link(lowers: &[u64], row: &mut [u64]) -> u64
    requires { Searchable lowers.now row.old }
    ensures least { result ≡ least_peak_of lowers.now row.old }
    ensures filled { row.new ≡ lazy_row result lowers.now }
{
    let peak = rows::least_peak(lowers, row);
    rows::lazy_row(lowers, peak, row);
    peak
}

// Every link, one after the other, each in its part of the plan, which comes with all upper rows; the rows before and after it are kept.
fn fill(film: Film, lowers: &mut [u64], kept: &mut [u64], plan: &mut [u64], peaks: &mut [u64])
    requires { Ready lowers.old kept.old
        × ((plan.old ≡ upper_rows (tree_in film.job.now) (sums_in film.sums.t.now) (last_in film.sums.t.now) (length lowers.old)
        (film.job.now.nodes - 1))
        × (length peaks.old ≡ film.job.now.nodes - 1)) }
    ensures filled { plan.new
        ≡ lazy_rows_of (problem_in film.entry.job.now film.entry.sums.t.now (length lowers.old)) (length lowers.old)
        (film.entry.job.now.nodes - 1) }
    ensures peaks { peaks.new
        ≡ peaks_of (problem_in film.entry.job.now film.entry.sums.t.now (length lowers.old)) (film.entry.job.now.nodes - 1) }
{
    let links = film.job.nodes - 1;
    let width = lowers.len();
    let mut near = 0;
    for i in 0..links {
        let start = i * width;
        let end = start + width;
        near = curves::lower_near(film, i + 1, near, kept, lowers);
        peaks[i] = fill_link(lowers, &mut plan[start..end]);
    }
}

// The work on an accepted job, with two rows to work in. Plan and peaks are lent by C as two, and a struct of them would have to say in
// each loop that it keeps the other.
fn with_rows(
    film: Film,
    lowers: &mut [u64],
    kept: &mut [u64],
    plan: &mut [u64],
    peaks: &mut [u64],
) -> Result<Planned, Refusal>
    requires { Ready lowers.old kept.old × OutputsFit film.job.now (length lowers.old) plan.old peaks.old }
    ensures { Worked result film.entry.job.now film.entry.sums.t.now (length lowers.old)
        plan.old plan.new peaks.old peaks.new }
{
    if starves(film, lowers) {
        return Err(Refusal::NoPlan);
    }
    let width = lowers.len();
    let last_slot = (width - 1) as u64;
    let total = film.sums.total();
    curves::upper_rows(film, plan, width);
    fill(film, lowers, kept, plan, peaks);
    let links = Links {
        parent: &film.job.parent,
        memory: &film.job.memory,
        nodes: film.job.nodes,
    };
    links.close_rows(plan, lowers, width);
    Ok(Planned { last_slot, total })
}

// The work on an accepted job, with its sums.
fn with_sums(film: Film, plan: &mut [u64], peaks: &mut [u64]) -> Result<Planned, Refusal>
    requires { OutputsFit film.job.now (width_of film.job.now) plan.old peaks.old }
    ensures { Worked result film.entry.job.now film.entry.sums.t.now (width_of film.entry.job.now)
        plan.old plan.new peaks.old peaks.new }
{
    let width = film.job.last_slot() + 1;
    let mut lowers = job::room::<{ Job::MOST_SLOTS }>();
    let mut kept = job::room::<{ Job::MOST_SLOTS }>();
    with_rows(
        film,
        &mut lowers[0..width],
        &mut kept[0..width],
        plan,
        peaks,
    )
}

// The work on an accepted job.
fn with_job(checked: Checked, plan: &mut [u64], peaks: &mut [u64]) -> Result<Planned, Refusal>
    requires { OutputsFit checked.job.now (width_of checked.job.now) plan.old peaks.old }
    ensures { Worked result checked.entry.job.now (sums_of checked.entry.bytes.now) (width_of checked.entry.job.now)
        plan.old plan.new peaks.old peaks.new }
{
    let mut room = job::room::<{ job::LONG_ROOM }>();
    with_sums(checked.film(&mut room), plan, peaks)
}

// The memory question.
pub fn memory_question(
    bytes: &[u8],
    plan: &mut [u64],
    peaks: &mut [u64],
) -> Result<Planned, Refusal>
    ensures { Answers result bytes.now
        plan.old plan.new peaks.old peaks.new }
{
    let job = job::read(bytes)?;
    if plan.len() != job.plan_length() || peaks.len() != job.nodes - 1 {
        return Err(Refusal::Job(job::Refusal::BadLent));
    }
    let checked = Checked { bytes, job: &job };
    with_job(checked, plan, peaks)
}

// Where a row lies in a plan: its first place, and how many slots it has.
#[derive(Clone, Copy, Debug, PartialEq, Eq)]
pub struct Place {
    pub start: usize,
    pub slots: usize,
}

// Where the row of link i lies in a plan of so many numbers, if it has a place there.
pub fn row_place(bytes: &[u8], planned: usize, i: usize) -> Option<Place>
    ensures { result ≡ row_place bytes.now planned i }
{
    let job = job::read(bytes).ok()?;
    if i == 0 || job.nodes <= i || planned != job.plan_length() {
        return None;
    }
    let slots = job.last_slot() + 1;
    Some(Place {
        start: (i - 1) * slots,
        slots,
    })
}

// The row of link i as that part of the plan itself, empty where there is none.
pub fn row_of<'a, 'b>(bytes: &'b [u8], plan: &'a [u64], i: usize) -> &'a [u64]
    ensures { result.now ≡ row_of bytes.now plan.now i }
{
    match row_place(bytes, plan.len(), i) {
        Some(Place { start, slots }) => &plan[start..start + slots],
        None => &plan[0..0],
    }
}
