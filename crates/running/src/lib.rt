// The running tree: a value that each slot hands on, which takes a column of any plan just when that column keeps the rules.
// Definitions to believe: specs/Running, with the rules of one column in planner/specs/Rules.
#![tactic(auto)]

ghost use Rattle.std.specs.Prelude.{Bool, true, false, ◌||◌, ◌≡◌, ℕ, suc, ◌+◌, ◌-◌, ◌*◌, ◌≤◌, ◌<◌, max, ltb, length, get_or};
ghost use Rattle.base.specs.Range.{fold};
ghost use Rattle.base.specs.Set.{has, word_bits};
ghost use Rattle.base.specs.Table.{tab};
ghost use Rattle.job.specs.Limits.{most_nodes, most_slots};
ghost use Rattle.job.specs.Read.{tree_in};
ghost use Rattle.job.specs.Sums.{long_room, sums_in, sums_of};
ghost use Rattle.smoothing.specs.Lists.{family_in, rows_in};
ghost use Rattle.running.specs.Running.{progress_number, number, Stepped, start};
ghost use Rattle.running.specs.declared.Refusal.TheVariants.{Job as OfJob};
ghost use Rattle.running.specs.Work as work;

use job::{Checked, Film, Job};

// A running tree: the slot number, and what each node has been sent by then; of a fixed size, as C keeps its numbers.
#[repr(C)]
#[derive(Clone, Copy)]
pub struct Running {
    pub slot: u64,
    pub carried: [u64; Job::MOST_NODES],
}

// How a step went on: the next column is taken, or no slot is left. Document 01 gives done no number; this one is clear of the refusals.
#[derive(Clone, Copy, Debug, PartialEq, Eq)]
pub enum Progress {
    Taken = 0,
    Done = 100,
}

impl From<Progress> for u64 {
    ghost from_gives = { λ progress n. n ≡ progress_number progress };

    fn from(progress: Progress) -> u64 {
        progress as u64
    }
}

// Why a step isn't taken: the job or what is lent is refused, or the next column breaks a rule on this link.
#[derive(Clone, Copy, Debug, PartialEq, Eq)]
pub enum Refusal {
    Job(job::Refusal),
    BrokenRule(usize),
}

impl From<job::Refusal> for Refusal {
    ghost from_gives = { λ refusal r. r ≡ OfJob refusal };

    fn from(refusal: job::Refusal) -> Refusal {
        Refusal::Job(refusal)
    }
}

// Document 01's number.
impl From<Refusal> for u64 {
    ghost from_gives = { λ refusal n. n ≡ number refusal };

    fn from(refusal: Refusal) -> u64 {
        match refusal {
            Refusal::Job(refusal) => u64::from(refusal),
            Refusal::BrokenRule(_) => 14,
        }
    }
}

// The running tree that a step hands on, with what became of it: document 01 has the same state handed on by a refusal.
#[derive(Clone, Copy)]
pub struct Step {
    pub state: Running,
    pub outcome: Result<Progress, Refusal>,
}

// Whether x is below `least`, or above that and `room`; no sum is made, as the numbers may be any.
fn outside(x: u64, least: u64, room: u64) -> bool
    ensures { result ≡ work.outside x least room }
{
    x < least || room < x - least
}

// Whether a link falls, or passes T(M).
fn strays(old: u64, new: u64, most: u64) -> bool
    ensures { result ≡ (ltb new old || ltb most new) }
{
    new < old || most < new
}

// By how much x is ahead of the member of a set that is furthest behind.
fn most_ahead(set: u64, x: u64, column: &[u64; Job::MOST_NODES]) -> u64
    ensures { result ≡ fold (λ g c. max g (x - get_or column.now c 0)) 0 (has set) word_bits }
{
    let mut most: u64 = 0;
    for c in base::members(set) {
        most = most.max(x.saturating_sub(column[c]));
    }
    most
}

// Slot k of a film: its column, and the bytes carried from the slot before.
#[derive(Clone, Copy)]
struct Slot<'a> {
    film: Film<'a>,
    k: usize,
    carried: &'a [u64; Job::MOST_NODES],
    column: &'a [u64; Job::MOST_NODES],
}

impl<'a> Slot<'a> {
    // Whether the column breaks P2 at node i, where that is a leaf.
    fn leaf_breaks(&self, i: usize) -> bool
        requires { i < self.now.film.job.now.nodes }
        ensures { result ≡ work.breaks_p2 (tree_in self.now.film.job.now) (sums_in self.now.film.sums.t.now) self.now.k
            (family_in self.now.column.now) i }
    {
        base::member(self.film.job.leaves(), i)
            && outside(
                self.column[i],
                curves::played(self.film.sums.t, self.film.job.delay[i], self.k),
                self.film.job.memory[i],
            )
    }

    // Whether the column breaks P3 between node i and its parent, where that is not the root.
    fn pair_breaks(&self, i: usize) -> bool
        requires { (0 < i) × (i < self.now.film.job.now.nodes) }
        ensures { result ≡ work.breaks_p3 (tree_in self.now.film.job.now) (family_in self.now.column.now) i }
    {
        let u = self.film.job.parent[i];
        u != 0 && outside(self.column[u], self.column[i], self.film.job.memory[u])
    }

    // Whether the column breaks a rule on the link into node i; P3 counts on the child's link here.
    fn link_breaks(&self, i: usize) -> bool
        requires { (0 < i) × (i < self.now.film.job.now.nodes) }
        ensures { result ≡ work.breaks_at self.now.film.job.now self.now.film.sums.t.now self.now.k
            self.now.carried.now self.now.column.now i }
    {
        strays(self.carried[i], self.column[i], self.film.sums.total())
            || self.leaf_breaks(i)
            || self.pair_breaks(i)
    }

    // The first link on which the column breaks a rule.
    fn first_breach(&self) -> Option<usize>
        ensures { work.Breach result self.now.film.job.now self.now.film.sums.t.now self.now.k
            self.now.carried.now self.now.column.now }
    {
        for i in 1..self.film.job.nodes {
            if self.link_breaks(i) {
                return Some(i);
            }
        }
        None
    }

    // The held bytes of node i.
    fn held_at(&self, i: usize) -> u64
        requires { i < self.now.film.job.now.nodes }
        ensures { result ≡ work.held (tree_in self.now.film.job.now) (sums_in self.now.film.sums.t.now) self.now.k
            (family_in self.now.column.now) i }
    {
        if base::member(self.film.job.leaves(), i) {
            let played = curves::played(self.film.sums.t, self.film.job.delay[i], self.k);
            self.column[i].saturating_sub(played)
        } else {
            most_ahead(self.film.job.children(i), self.column[i], self.column)
        }
    }

    // Each link's bytes in the slot, and each node's held bytes, in the two rows that C lends; by i, as each turn reads several rows.
    fn report(&self, sent: &mut [u64], held: &mut [u64])
        requires { work.Rows self.now.film.job.now sent.old held.old }
        ensures sent_after { sent.new ≡ work.sent_row self.now.film.job.now self.now.carried.now self.now.column.now }
        ensures held_after { held.new ≡ work.held_row self.now.film.job.now self.now.film.sums.t.now self.now.k self.now.column.now }
    {
        let links = self.film.job.nodes - 1;
        for i in 0..links {
            sent[i] = self.column[i + 1].saturating_sub(self.carried[i + 1]);
            held[i] = self.held_at(i + 1);
        }
    }
}

// The carried bytes after column k of a plan with rows of `width` numbers; places without a link keep theirs.
fn take_column(
    carried: [u64; Job::MOST_NODES],
    plan: &[u64],
    nodes: usize,
    width: usize,
    k: usize,
) -> [u64; Job::MOST_NODES]
    requires { ((0 < nodes) × (nodes ≤ most_nodes)) × (((k < width) × (width ≤ most_slots)) × (length plan.now ≡ (nodes - 1) * width)) }
    ensures { result ≡ tab (λ v. work.after nodes (λ u. rows_in width plan.now u k) (family_in carried) v) most_nodes }
{
    let mut column = carried;
    for i in 1..nodes {
        column[i] = plan[(i - 1) * width + k];
    }
    column
}

// The next running tree on a job with slots left, from its sums; or the first link on which the column breaks a rule.
fn advance(
    state: Running,
    film: Film,
    plan: &[u64],
    sent: &mut [u64],
    held: &mut [u64],
) -> Result<Running, Refusal>
    requires { work.Lent film.job.now state.slot plan.now sent.old held.old }
    ensures { work.Advanced result film.entry.job.now film.entry.sums.t.now plan.now state
        sent.old sent.new held.old held.new }
{
    let width = film.job.last_slot() + 1;
    let k = state.slot as usize + 1;
    let carried = state.carried;
    let column = take_column(carried, plan, film.job.nodes, width, k);
    let slot = Slot {
        film,
        k,
        carried: &carried,
        column: &column,
    };
    if let Some(i) = slot.first_breach() {
        return Err(Refusal::BrokenRule(i));
    }
    slot.report(sent, held);
    Ok(Running {
        slot: k as u64,
        carried: column,
    })
}

// The same on an accepted job whose film has fewer frames than a room for its sums has places.
fn with_room<const ROOM: usize>(
    state: Running,
    checked: Checked,
    plan: &[u64],
    sent: &mut [u64],
    held: &mut [u64],
) -> Result<Running, Refusal>
    requires lent { work.Lent checked.job.now state.slot plan.now sent.old held.old }
    requires room { (checked.job.now.frames < ROOM) × (ROOM ≤ long_room) }
    ensures { work.Advanced result checked.entry.job.now (sums_of checked.entry.bytes.now) plan.now state
        sent.old sent.new held.old held.new }
{
    let mut room = job::room::<ROOM>();
    advance(state, checked.film(&mut room), plan, sent, held)
}

// The same on an accepted job: it chooses the room for the film's sums.
// The choice isn't made once in job: a closure for the work, which writes what is lent, would take more clauses than the branches.
fn with_job(
    state: Running,
    checked: Checked,
    plan: &[u64],
    sent: &mut [u64],
    held: &mut [u64],
) -> Result<Running, Refusal>
    requires { work.Lent checked.job.now state.slot plan.now sent.old held.old }
    ensures { work.Advanced result checked.entry.job.now (sums_of checked.entry.bytes.now) plan.now state
        sent.old sent.new held.old held.new }
{
    if checked.job.frames < job::TINY_ROOM {
        with_room::<{ job::TINY_ROOM }>(state, checked, plan, sent, held)
    } else if checked.job.frames < job::MIDDLE_ROOM {
        with_room::<{ job::MIDDLE_ROOM }>(state, checked, plan, sent, held)
    } else {
        with_room::<{ job::LONG_ROOM }>(state, checked, plan, sent, held)
    }
}

impl Running {
    // The first running tree.
    pub fn start() -> Running
        ensures { result ≡ start }
    {
        Running {
            slot: 0,
            carried: [0u64; Job::MOST_NODES],
        }
    }

    // The next slot: the column after this one of any plan, taken just where it keeps the rules.
    pub fn step(self, bytes: &[u8], plan: &[u64], sent: &mut [u64], held: &mut [u64]) -> Step
        ensures { Stepped result.outcome bytes.now plan.now self result.state
            sent.old sent.new held.old held.new }
    {
        match self.next(bytes, plan, sent, held) {
            Ok(Some(state)) => Step {
                state,
                outcome: Ok(Progress::Taken),
            },
            Ok(None) => Step {
                state: self,
                outcome: Ok(Progress::Done),
            },
            Err(refusal) => Step {
                state: self,
                outcome: Err(refusal),
            },
        }
    }

    // The running tree after the next slot, if one is left.
    fn next(
        self,
        bytes: &[u8],
        plan: &[u64],
        sent: &mut [u64],
        held: &mut [u64],
    ) -> Result<Option<Running>, Refusal>
        ensures { work.Next result bytes.now plan.now self
            sent.old sent.new held.old held.new }
    {
        let job = job::read(bytes)?;
        let links = job.nodes - 1;
        if plan.len() != job.plan_length() || sent.len() != links || held.len() != links {
            return Err(Refusal::Job(job::Refusal::BadLent));
        }
        let last = job.last_slot() as u64;
        if last <= self.slot {
            return Ok(None);
        }
        let checked = Checked { bytes, job: &job };
        Ok(Some(with_job(self, checked, plan, sent, held)?))
    }
}
