// The curves of document 01: one function fills a row with a node's lower curve, one the rows of all links with their upper curves.
// Definitions to believe: specs/Curves; what the functions below work with: specs/Rows.
#![tactic(auto)]

ghost use Rattle.std.specs.Prelude.{true, ◌≡◌, ◌↔◌, IsNone, IfSome, ◌+◌, ◌-◌, ◌*◌, ◌≤◌, ◌<◌, max, min, length, get_or, set};
ghost use Rattle.base.specs.Set.{has};
ghost use Rattle.base.specs.Table.{tab};
ghost use Rattle.job.specs.Limits.{most_nodes, most_slots, greatest_memory};
ghost use Rattle.job.specs.Read.{tree_in};
ghost use Rattle.job.specs.Sums.{sums_in, last_in};
ghost use Rattle.smoothing.specs.Tree.{Link};
ghost use Rattle.curves.specs.Curves.{lower_curve, high};
ghost use Rattle.curves.specs.Rows.{least_delay, earliest_of, raised_by, raised_by_all, TakenIn, lowered_by};
ghost use Rattle.curves.specs.Rows.{roof, high_rows, upper_rows, Kept, leaf_lower};

use job::{Film, Job};
use rows::Links;

// Where T(k - delay) stands among T(0) to T(last).
fn place(k: usize, delay: usize, last: usize) -> usize
    ensures { result ≡ min (k - delay) last }
{
    k.saturating_sub(delay).min(last)
}

// Each slot k has T(k - delay).
fn shift(out: &mut [u64], sums: &[u64], delay: usize)
    requires { 0 < length sums.now }
    ensures { out.new ≡ tab (λ k. sums_in sums.now (k - delay)) (length out.old) }
{
    let last = sums.len() - 1;
    for (k, x) in out.iter_mut().enumerate() {
        *x = sums[place(k, delay, last)];
    }
}

// Each place takes `value`, where that is more. This, `lower_all` and `lessen` are no one function with a closure: each call and each proof
// would spell the operation out.
fn raise_to(out: &mut [u64], value: u64)
    ensures { out.new ≡ tab (λ k. max (get_or out.old k 0) value) (length out.old) }
{
    for x in out.iter_mut() {
        *x = (*x).max(value);
    }
}

// The work on leaf l in a lower row, at all its slots: nothing before its delay, then T frame by frame, then T(M), each less `less`,
// where that is more. There is nothing to be done where the row has taken in a delay, `taken`, that is no longer; the row's length stands
// for none, as any row has taken in a delay past its end. Returns a delay that the row has taken in then.
fn raise_by_leaf(film: Film, l: usize, less: u64, taken: usize, out: &mut [u64]) -> usize
    requires node { l < most_nodes }
    requires taken_before { TakenIn film.sums.t.now taken less out.old }
    ensures raised { out.new ≡ raised_by (tree_in film.entry.job.now) film.entry.sums.t.now l less out.old }
    ensures taken_after { TakenIn film.entry.sums.t.now result less out.new }
{
    let delay = film.job.delay[l];
    if taken <= delay {
        return taken;
    }
    let end = out.len();
    let frames = film.sums.t.len();
    let last = film.sums.total().saturating_sub(less);
    let start = delay.min(end);
    let count = (end - start).min(frames);
    let full = start + count;
    rows::raise_row_less(&film.sums.t[0..count], less, &mut out[start..full]);
    raise_to(&mut out[full..end], last);
    delay
}

// The work on each leaf of a set in turn, from the lowest on.
fn raise_by_each(film: Film, set: u64, less: u64, taken: usize, out: &mut [u64]) -> usize
    requires { TakenIn film.sums.t.now taken less out.old }
    ensures raised { out.new ≡ raised_by_all (tree_in film.entry.job.now) film.entry.sums.t.now set less out.old }
    ensures taken_after { TakenIn film.entry.sums.t.now result less out.new }
{
    let mut least = taken;
    for l in base::members(set) {
        least = raise_by_leaf(film, l, less, least, out);
    }
    least
}

// Which member of a set has the least of these delays; the lowest of those that have it.
fn earliest(set: u64, delay: &[usize; Job::MOST_NODES]) -> Option<usize>
    ensures none { IsNone result ↔ (set ≡ 0) }
    ensures member { IfSome result (λ l. has set l ≡ true) }
    ensures found { IfSome result (λ l. l ≡ earliest_of delay.now set) }
{
    let mut members = base::members(set);
    let mut found = members.next()?;
    for l in members {
        found = base::select(delay[l] < delay[found], l, found);
    }
    Some(found)
}

// The same, the earliest first, so that there is nothing to be done on the rest.
fn raise_by_leaves(film: Film, set: u64, less: u64, taken: usize, out: &mut [u64]) -> usize
    requires { TakenIn film.sums.t.now taken less out.old }
    ensures raised { out.new ≡ raised_by_all (tree_in film.entry.job.now) film.entry.sums.t.now set less out.old }
    ensures taken_after { TakenIn film.entry.sums.t.now result less out.new }
{
    let Some(first) = earliest(set, &film.job.delay) else {
        return taken;
    };
    let least = raise_by_leaf(film, first, less, taken, out);
    let rest = base::outside(set, base::with(0, first));
    raise_by_each(film, rest, less, least, out)
}

// The same in a fresh row, which counts as one of zeros, whatever stands in it: the first leaf fills it.
fn begin_by_leaves(film: Film, set: u64, out: &mut [u64]) -> usize
    ensures raised { out.new ≡ raised_by_all (tree_in film.entry.job.now) film.entry.sums.t.now set 0 (tab (λ _. 0) (length out.old)) }
    ensures taken_after { TakenIn film.entry.sums.t.now result 0 out.new }
{
    let Some(first) = earliest(set, &film.job.delay) else {
        out.fill(0);
        return out.len();
    };
    let delay = film.job.delay[first];
    shift(out, film.sums.t, delay);
    let rest = base::outside(set, base::with(0, first));
    raise_by_each(film, rest, 0, delay, out)
}

// lower_i(0), lower_i(1), .. : what the leaves at or below node i bring, and on the way up, at each ancestor below the root, those that
// were not below the one before. Each is finished before the next is begun.
pub fn lower_row(film: Film, i: usize, out: &mut [u64])
    requires { Link film.job.now.nodes i }
    ensures { out.new ≡ tab (lower_curve (tree_in film.entry.job.now) (sums_in film.entry.sums.t.now) i) (length out.old) }
{
    let mut a = i;
    let mut less: u64 = 0;
    let mut seen = film.job.leaves_at(i);
    let mut taken = begin_by_leaves(film, seen, out);
    while film.job.parent[a] != 0 {
        a = film.job.parent[a];
        less += film.job.memory[a];
        let leaves = film.job.leaves_at(a);
        let new = base::outside(leaves, seen);
        taken = raise_by_leaves(film, new, less, taken, out);
        seen = leaves;
    }
}

// Each place takes `value`, where that is less.
fn lower_all(out: &mut [u64], value: u64)
    ensures { out.new ≡ tab (λ k. min (get_or out.old k 0) value) (length out.old) }
{
    for x in out.iter_mut() {
        *x = (*x).min(value);
    }
}

// The work on leaf l in an upper row, at all its slots: T(0) before its delay, then T frame by frame, then T(M), each with its memory,
// where that is less.
fn lower_by_leaf(film: Film, l: usize, out: &mut [u64])
    requires { Link film.job.now.nodes l }
    ensures { out.new ≡ lowered_by (tree_in film.entry.job.now) film.entry.sums.t.now l out.old }
{
    let end = out.len();
    let frames = film.sums.t.len();
    let plus = film.job.memory[l];
    let last = film.sums.total() + plus;
    let start = film.job.delay[l].min(end);
    let count = (end - start).min(frames);
    let full = start + count;
    lower_all(&mut out[0..start], plus);
    rows::lower_row_more(&film.sums.t[0..count], plus, &mut out[start..full]);
    lower_all(&mut out[full..end], last);
}

// Slot 0 of a row becomes 0.
fn start_at_zero(out: &mut [u64])
    ensures { out.new ≡ set out.old 0 0 }
{
    if let Some(first) = out.first_mut() {
        *first = 0;
    }
}

// What the link into node v may have by its own rules, but for slot 0: T(M), and at a leaf D + b too.
fn roof_row(film: Film, v: usize, out: &mut [u64])
    requires { Link film.job.now.nodes v }
    ensures { out.new
        ≡ tab (roof (tree_in film.entry.job.now) (sums_in film.entry.sums.t.now) (last_in film.entry.sums.t.now) v) (length out.old) }
{
    out.fill(film.sums.total());
    if base::member(film.job.leaves(), v) {
        lower_by_leaf(film, v, out);
    }
}

// The same with slot 0.
fn high_row(film: Film, v: usize, out: &mut [u64])
    requires { Link film.job.now.nodes v }
    ensures { out.new
        ≡ tab (high (tree_in film.entry.job.now) (sums_in film.entry.sums.t.now) (last_in film.entry.sums.t.now) v) (length out.old) }
{
    roof_row(film, v, out);
    start_at_zero(out);
}

// The same for each link, one row after the other.
fn high_rows(film: Film, table: &mut [u64], width: usize)
    requires { length table.old ≡ (film.job.now.nodes - 1) * width }
    ensures { table.new
        ≡ high_rows (tree_in film.entry.job.now) (sums_in film.entry.sums.t.now) (last_in film.entry.sums.t.now) width
        (film.entry.job.now.nodes - 1) }
{
    let links = film.job.nodes - 1;
    for i in 0..links {
        let start = i * width;
        high_row(film, i + 1, &mut table[start..start + width]);
    }
}

// The upper curves of all links, one row after the other, in two passes over the tree.
pub fn upper_rows(film: Film, table: &mut [u64], width: usize)
    requires { (width ≤ most_slots) × (length table.old ≡ (film.job.now.nodes - 1) * width) }
    ensures { table.new
        ≡ upper_rows (tree_in film.entry.job.now) (sums_in film.entry.sums.t.now) (last_in film.entry.sums.t.now) width
        (film.entry.job.now.nodes - 1) }
{
    high_rows(film, table, width);
    let links = Links {
        parent: &film.job.parent,
        memory: &film.job.memory,
        nodes: film.job.nodes,
    };
    links.open_rows(table, width);
}

// Each number less `less`, cut off at 0.
fn lessen(out: &mut [u64], less: u64)
    ensures { out.new ≡ tab (λ k. get_or out.old k 0 - less) (length out.old) }
{
    for x in out.iter_mut() {
        *x = (*x).saturating_sub(less);
    }
}

// The kept row, which has the lower curve of node c, becomes that of node u: at little cost where c is u or its parent. It may have
// anything where c is the root, which stands for none and is no Option, as the definition `Kept` speaks of node 0 so.
pub fn keep_row(film: Film, c: usize, u: usize, kept: &mut [u64])
    requires { Link film.job.now.nodes u × Kept (tree_in film.job.now) (sums_in film.sums.t.now) c kept.old }
    ensures { kept.new ≡ tab (lower_curve (tree_in film.entry.job.now) (sums_in film.entry.sums.t.now) u) (length kept.old) }
{
    if c == u {
        return;
    }
    if c == 0 {
        lower_row(film, u, kept);
        return;
    }
    if film.job.parent[u] != c {
        lower_row(film, u, kept);
        return;
    }
    lessen(kept, film.job.memory[c]);
    raise_by_leaves(film, film.job.leaves_at(u), 0, kept.len(), kept);
}

// The least delay of the leaves at or below node a.
fn least_delay(film: Film, a: usize) -> usize
    requires { a < film.job.now.nodes }
    ensures { result ≡ least_delay (tree_in film.entry.job.now) a }
{
    match earliest(film.job.leaves_at(a), &film.job.delay) {
        Some(first) => film.job.delay[first],
        None => 0,
    }
}

// The highest node on the way up from node i, below the root.
fn top_above(film: Film, i: usize) -> usize
    requires { Link film.job.now.nodes i }
    ensures { ((0 < result) × (result ≤ i)) × ((tree_in film.entry.job.now).parent result ≡ 0) }
{
    let mut a = i;
    while film.job.parent[a] != 0 {
        a = film.job.parent[a];
    }
    a
}

// lower_v(0), lower_v(1), .. with the help of a row that is kept from link to link: it has the lower curve of node c before, and that
// of the node returned after; anything where that node is the root. Where no ancestor has a leaf below it that starts before those
// below the parent, `lower_row` takes in one row at most and costs least.
pub fn lower_near(film: Film, v: usize, c: usize, kept: &mut [u64], out: &mut [u64]) -> usize
    requires { Link film.job.now.nodes v
        × (Kept (tree_in film.job.now) (sums_in film.sums.t.now) c kept.old × (length kept.old ≡ length out.old)) }
    ensures lower { out.new ≡ tab (lower_curve (tree_in film.entry.job.now) (sums_in film.entry.sums.t.now) v) (length out.old) }
    ensures kept { Kept (tree_in film.entry.job.now) (sums_in film.entry.sums.t.now) result kept.new }
{
    let u = film.job.parent[v];
    if u == 0 {
        lower_row(film, v, out);
        return c;
    }
    if least_delay(film, u) <= least_delay(film, top_above(film, v)) {
        lower_row(film, v, out);
        return c;
    }
    keep_row(film, c, u, kept);
    begin_by_leaves(film, film.job.leaves_at(v), out);
    rows::raise_row_less(kept, film.job.memory[u], out);
    u
}

// What a leaf with this delay plays by slot k.
pub fn played(sums: &[u64], delay: usize, k: usize) -> u64
    requires { 0 < length sums.now }
    ensures { result ≡ sums_in sums.now (k - delay) }
{
    let last = sums.len() - 1;
    sums[place(k, delay, last)]
}

// A leaf's lower curve at a slot, from what it plays by then, its parent's lower curve there and its parent's memory.
pub fn leaf_lower(plays: u64, above: u64, memory: u64) -> u64
    ensures { result ≡ leaf_lower plays above memory }
{
    plays.max(above.saturating_sub(memory))
}
