// Rows of numbers, one for each slot: lazy rows, the search for a least peak, and rows closed over a tree of links.
// It knows no job: only slices, and the theory in `smoothing`. Definitions to believe: specs/Row, Search, Closing.
#![tactic(auto)]

ghost use Rattle.std.specs.Prelude.{◌≡◌, ℕ, ◌+◌, ◌-◌, ◌*◌, ◌≤◌, ◌<◌, max, min, length};
ghost use Rattle.base.specs.Table.{tab};
ghost use Rattle.smoothing.specs.Row.{ceil_div};
ghost use Rattle.smoothing.specs.Newton as newton;
ghost use Rattle.smoothing.specs.Lists.{family_in, rows_in};
ghost use Rattle.smoothing.specs.Tree.{Tree, Ordered, pass_up, pass_down, close_down, close, open_up, «open»};
ghost use Rattle.rows.specs.Closing.{tree_from, AtEachSlot, with_raised, with_row, lent_row, Closable, Due};
ghost use Rattle.rows.specs.Opening.{with_lowered, Apart, Openable};
ghost use Rattle.job.specs.Limits.{most_nodes, greatest_total, greatest_memory};
ghost use Rattle.rows.specs.Row.{lazy_row, raised_row, lowered_row, least_peak_of, InRange};
ghost use Rattle.rows.specs.Search.{search_in, pass_over, longest_stride, Searchable};

use job::Job;

// The lazy row of `lower` at the rate q, filled from its end.
pub fn lazy_row(lower: &[u64], q: u64, out: &mut [u64])
    requires { (0 < length lower.now) × (length out.old ≡ length lower.now) }
    ensures { out.new ≡ lazy_row q lower.now }
{
    let n = lower.len();
    let mut next = lower[n - 1];
    for k in (0..n).rev() {
        next = lower[k].max(next.saturating_sub(q));
        out[k] = next;
    }
}

// Each number of `out` raised to that of `from` less the amount.
pub fn raise_row_less(from: &[u64], amount: u64, out: &mut [u64])
    requires { length from.now ≡ length out.old }
    ensures { out.new ≡ raised_row from.now amount out.old }
{
    for (k, x) in out.iter_mut().enumerate() {
        *x = (*x).max(from[k].saturating_sub(amount));
    }
}

// Each number of `out` lowered to that of `from` and `plus`.
pub fn lower_row_more(from: &[u64], plus: u64, out: &mut [u64])
    requires same_slots { length from.now ≡ length out.old }
    requires small { plus ≤ greatest_memory }
    requires in_range { InRange from.now }
    ensures { out.new ≡ lowered_row from.now plus out.old }
{
    for (k, x) in out.iter_mut().enumerate() {
        *x = (*x).min(from[k] + plus);
    }
}

// Where a pass of the search for a least peak stands: specs/Newton of `smoothing` says what each number is.
#[derive(Clone, Copy)]
pub struct Search {
    pub reach: u64,
    pub gap: u64,
    pub excess: u64,
    pub span: u64,
}

impl Search {
    // One look at the peak p: from a slot with this upper value to the next, which has this lower value.
    pub fn look(self, lower: u64, upper: u64, p: u64) -> Search
        requires { (self.gap ≤ greatest_total) × ((upper ≤ greatest_total) × (p ≤ greatest_total * longest_stride)) }
        ensures { search_in result ≡ newton.look (λ _. lower) (λ _. upper) p 0 (search_in self) }
    {
        let nearer = upper < self.reach;
        let reach = self.reach.min(upper) + p;
        let gap = base::select(nearer, 1, self.gap + 1);
        let here = lower.saturating_sub(reach);
        let found = self.excess < here;
        let excess = self.excess.max(here);
        let span = base::select(found, gap, self.span);
        Search {
            reach,
            gap,
            excess,
            span,
        }
    }
}

// A pass over every `stride`-th slot of two rows at the peak p.
fn pass(lower: &[u64], upper: &[u64], p: u64, stride: usize) -> Search
    requires searchable { Searchable lower.now upper.now × (p ≤ greatest_total) }
    requires stride_in { (0 < stride) × (stride ≤ longest_stride) }
    ensures { search_in result ≡ pass_over stride p lower.now upper.now }
{
    let rise = p * (stride as u64);
    let mut s = Search {
        reach: upper[0],
        gap: 0,
        excess: 0,
        span: 0,
    };
    for k in 0..(lower.len() - 1) / stride {
        let at = k * stride;
        s = s.look(lower[at + stride], upper[at], rise);
    }
    s
}

// Newton's search over every `stride`-th slot: passes at higher and higher peaks, until one finds no excess. From a peak that is not
// above the least it never passes the least, and over every slot it ends there.
fn search_by(lower: &[u64], upper: &[u64], start: u64, stride: usize) -> u64
    requires searchable { Searchable lower.now upper.now × (start ≤ least_peak_of lower.now upper.now) }
    requires stride_in { (0 < stride) × (stride ≤ longest_stride) }
    ensures between { (start ≤ result) × (result ≤ least_peak_of lower.now upper.now) }
    ensures exact { stride ≡ 1 → result ≡ least_peak_of lower.now upper.now }
{
    let mut p = start;
    let mut s = pass(lower, upper, p, stride);
    while s.excess > 0 {
        let span = s.span * (stride as u64);
        p += s.excess.div_ceil(span);
        s = pass(lower, upper, p, stride);
    }
    p
}

// The stride of the first search.
const COARSE: usize = 32;

// The least peak between two rows. A search over few slots comes first: it costs little, and leaves few passes over every slot.
pub fn least_peak(lower: &[u64], upper: &[u64]) -> u64
    requires { Searchable lower.now upper.now }
    ensures { result ≡ least_peak_of lower.now upper.now }
{
    let near = search_by(lower, upper, 0, COARSE);
    search_by(lower, upper, near, 1)
}

// Of two rows in one list, the one from place a on raised to the later one from place b on.
fn raise_within(plan: &mut [u64], a: usize, b: usize, width: usize)
    requires { (a + width ≤ b) × (b + width ≤ length plan.old) }
    ensures { plan.new ≡ with_raised a b width plan.old }
{
    let (front, rest) = plan.split_at_mut(b);
    raise_row_less(&rest[..width], 0, &mut front[a..a + width]);
}

// The row of link u; that of the root has 0 in every slot.
fn copy_row(plan: &[u64], u: usize, width: usize, out: &mut [u64])
    requires { (u * width ≤ length plan.now) × (length out.old ≡ width) }
    ensures { out.new ≡ tab (rows_in width plan.now u) width }
{
    if u == 0 {
        out.fill(0);
        return;
    }
    let a = (u - 1) * width;
    let e = a + width;
    base::copy(&plan[a..e], out);
}

// The last to touch a link's row, which comes as the pass up left it. `above` is a copy of the parent's closed row, 0 in every slot
// where the parent is the root, and `memory` the parent's memory.
pub fn finish_row(above: &[u64], memory: u64, row: &mut [u64])
    requires { length above.now ≡ length row.old }
    ensures raised { row.new ≡ raised_row above.now memory row.old }
    ensures closed { (T : Tree) (F : ℕ → ℕ → ℕ) (v : ℕ) → Due T F v row.old above.now memory
        → row.new ≡ tab (λ k. close T (F k) v) (length row.old) }
{
    raise_row_less(above, memory, row);
}

// One turn of the pass down: the row of link v, with a copy of the finished row of its parent u. The other rows are kept.
fn close_row(plan: &mut [u64], above: &mut [u64], u: usize, v: usize, amount: u64, width: usize)
    requires { (u < v) × ((v * width ≤ length plan.old) × (length above.old ≡ width)) }
    ensures closed { plan.new ≡ with_row v u amount width plan.old }
    ensures copied { above.new ≡ tab (rows_in width plan.old u) width }
{
    copy_row(plan, u, width, above);
    let a = (v - 1) * width;
    let e = a + width;
    finish_row(above, amount, &mut plan[a..e]);
}

// Of two rows in one list that have no place in common, the one from place `to` on lowered to the one from place `from` on and `plus`.
fn lower_within(plan: &mut [u64], to: usize, from: usize, plus: u64, width: usize)
    requires { Apart to from width plan.old × ((plus ≤ greatest_memory) × InRange plan.old) }
    ensures filled { plan.new ≡ with_lowered to from plus width plan.old }
    ensures ranged { InRange plan.new }
{
    if to < from {
        let (front, rest) = plan.split_at_mut(from);
        lower_row_more(&rest[..width], plus, &mut front[to..to + width]);
    } else {
        let (front, rest) = plan.split_at_mut(to);
        lower_row_more(&front[from..from + width], plus, &mut rest[..width]);
    }
}

// The links of a tree: the parent and the memory of each node at its place, in the first `nodes` places.
#[derive(Clone, Copy)]
pub struct Links<'a> {
    pub parent: &'a [usize; Job::MOST_NODES],
    pub memory: &'a [u64; Job::MOST_NODES],
    pub nodes: usize,
    ghost some_node: { 0 < nodes },
    ghost nodes_to: { nodes ≤ most_nodes },
    ghost ordered: { Ordered (tree_from nodes parent.now memory.now) },
}

// A plan and its width stay two parameters: every method and loop over a struct with a `&mut` would have to say that it keeps both.
impl<'a> Links<'a> {
    ghost use Rattle.rows.specs.Links.{tree_in};

    // The pass up: each row, from the last on, into its parent's, unless that is the root.
    fn pass_up(&self, plan: &mut [u64], width: usize)
        requires { Closable plan.old self.now.nodes width }
        ensures { AtEachSlot width (pass_up (family_in self.now.parent.now) (λ v x y. max x y) (self.now.nodes - 1))
            plan.old plan.new }
    {
        for v in (1..self.nodes).rev() {
            let u = self.parent[v];
            if u > 0 {
                let a = (u - 1) * width;
                let b = (v - 1) * width;
                raise_within(plan, a, b, width);
            }
        }
    }

    // The pass down: each row, from the first on, raised to its parent's less the parent's memory. `above` is for the copies.
    fn pass_down(&self, plan: &mut [u64], above: &mut [u64], width: usize)
        requires { Closable plan.old self.now.nodes width × (length above.old ≡ width) }
        ensures passed { AtEachSlot width
            (pass_down (family_in self.now.parent.now) (close_down (tree_in self.now)) (self.now.nodes - 1))
            plan.old plan.new }
        ensures copied { above.new ≡ lent_row self.now.nodes width self.now.parent.now plan.new above.old }
    {
        for v in 1..self.nodes {
            let u = self.parent[v];
            let amount = self.memory[u];
            close_row(plan, above, u, v, amount, width);
        }
    }

    // A plan with a row of `width` numbers for each link, link 1's first, closed at every slot. The lent row is for copies of rows.
    pub fn close_rows(&self, plan: &mut [u64], lent: &mut [u64], width: usize)
        requires { Closable plan.old self.now.nodes width × (length lent.old ≡ width) }
        ensures closed { AtEachSlot width (close (tree_in self.now))
            plan.old plan.new }
        ensures copied { lent.new ≡ lent_row self.now.nodes width self.now.parent.now plan.new lent.old }
    {
        self.pass_up(plan, width);
        self.pass_down(plan, lent, width);
    }

    // The pass up of opening: each row and its parent's memory, from the last on, into the parent's row, unless that is the root.
    fn open_up(&self, plan: &mut [u64], width: usize)
        requires { Openable plan.old self.now.memory.now self.now.nodes width }
        ensures passed { AtEachSlot width
            (pass_up (family_in self.now.parent.now) (open_up (tree_in self.now)) (self.now.nodes - 1))
            plan.old plan.new }
        ensures ranged { InRange plan.new }
    {
        for v in (1..self.nodes).rev() {
            let u = self.parent[v];
            if u > 0 {
                let to = (u - 1) * width;
                let from = (v - 1) * width;
                let plus = self.memory[u];
                lower_within(plan, to, from, plus, width);
            }
        }
    }

    // The pass down of opening: each row, from the first on, lowered to its parent's, unless that is the root.
    fn open_down(&self, plan: &mut [u64], width: usize)
        requires { Closable plan.old self.now.nodes width × InRange plan.old }
        ensures { AtEachSlot width (pass_down (family_in self.now.parent.now) (λ v x y. min x y) (self.now.nodes - 1))
            plan.old plan.new }
    {
        for v in 1..self.nodes {
            let u = self.parent[v];
            if u > 0 {
                let to = (v - 1) * width;
                let from = (u - 1) * width;
                lower_within(plan, to, from, 0, width);
            }
        }
    }

    // A table with a row of `width` numbers for each link, link 1's first, opened at every slot.
    pub fn open_rows(&self, plan: &mut [u64], width: usize)
        requires { Openable plan.old self.now.memory.now self.now.nodes width }
        ensures { AtEachSlot width («open» (tree_in self.now))
            plan.old plan.new }
    {
        self.open_up(plan, width);
        self.open_down(plan, width);
    }
}
