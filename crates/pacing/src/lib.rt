// Passes over a film at given rates: the least delay with which a rate is in time, and the most that what is played gets ahead of it.
// It knows no tree and no bytes, only the sums T(0) to T(M) and rates. Definitions to believe: specs/Pace.
// A rate is a plain number with its bound in each contract: a type for it would be wrapped and unwrapped at each place of a job's array.
#![tactic(auto)]

ghost use Rattle.std.specs.Prelude.{◌≡◌, ◌==◌, position, ℕ, suc, ◌+◌, ◌-◌, ◌*◌, ◌≤◌, ◌<◌, max, min, length, get_or};
ghost use Rattle.base.specs.Range.{greatest};
ghost use Rattle.base.specs.Table.{tab};
ghost use Rattle.job.specs.Limits.{most_nodes, most_frames, longest_delay, greatest_rate, greatest_total};
ghost use Rattle.job.specs.Sums.{sums_in};
ghost use Rattle.pacing.specs.Pace.{RatesWithin, delay_at, DelayFound, need_of, needs_at};
ghost use Rattle.pacing.specs.Work.{DelayForSlot, DelayBefore, lead_at, lead_after, LeadsWithin, next_stop, StopBefore, PassOver};
ghost use Rattle.pacing.specs.Work.{Places, PlacesAtOnce, SameFrom, SameUpTo, state_at, left_at};
ghost use Rattle.pacing.specs.Work.{at_once, NextRate, NextRates, chosen};

use job::{Job, Node, Sums};

// The least delay from w on with which rate r has carried `sum` m slots after the start; one more than the longest where none has: as a
// number, and not as an Option, it is what the next slot goes on from.
fn delay_for_slot(sum: u64, r: u64, m: u64, w: u64) -> u64
    requires { (sum ≤ greatest_total) × ((r ≤ greatest_rate) × ((m ≤ most_frames) × (w ≤ longest_delay + 1))) }
    ensures { DelayForSlot sum r m w result }
{
    if sum <= r * (m + w) {
        return w;
    }
    if r == 0 {
        return Node::LONGEST_DELAY as u64 + 1;
    }
    let slots = sum.div_ceil(r);
    (slots - m).min(Node::LONGEST_DELAY as u64 + 1)
}

// The least delay in time at rate r for the slots before `to`, from that for those before m. Where all that is played by the last of
// these slots is in time at the first, each is.
fn delay_for_slots(sums: Sums, r: u64, m: usize, to: usize, w: u64) -> u64
    requires rate { r ≤ greatest_rate }
    requires slots { (m < to) × (to ≤ length sums.t.now) }
    requires delay_before { DelayBefore (sums_in sums.t.now) r m w }
    ensures { DelayBefore (sums_in sums.entry.t.now) r to result }
{
    if sums.t[to - 1] <= r * (m as u64 + w) {
        return w;
    }
    let mut w = w;
    for i in m..to {
        w = delay_for_slot(sums.t[i], r, i as u64, w);
    }
    w
}

// So many slots are tried at once.
pub const STRETCH: usize = 64;

// The number of an answer where no delay up to the longest is in time.
pub const NO_DELAY: u64 = 13;

// The least delay that is in time at rate r, where one up to the longest is.
pub fn start_delay(sums: Sums, r: u64) -> Option<u64>
    requires { r ≤ greatest_rate }
    ensures { DelayFound result (delay_at r (length sums.entry.t.now - 1) (sums_in sums.entry.t.now)) }
{
    let mut w = 0;
    for m in (0..sums.t.len()).step_by(STRETCH) {
        let to = (m + STRETCH).min(sums.t.len());
        w = delay_for_slots(sums, r, m, to, w);
        if w > Node::LONGEST_DELAY as u64 {
            return None;
        }
    }
    Some(w)
}

// How far what is played is ahead of a rate, and the most that it has been, up to some slot: specs/Pace says what the two numbers are.
#[derive(Clone, Copy)]
pub struct Lead {
    pub ahead: u64,
    pub most: u64,
}

// So many rates are taken at once: each step of a pass for a rate waits for the one before it, and those for several rates don't wait for
// each other.
pub const AT_ONCE: usize = 4;

// The lead some slots on, in which so much is played.
fn lead_after(lead: Lead, played: u64, slots: u64, r: u64) -> Lead
    requires { (lead.ahead ≤ greatest_total) × ((played ≤ greatest_total) × ((slots ≤ most_frames) × (r ≤ greatest_rate))) }
    ensures { result ≡ lead_after lead played slots r }
{
    let ahead = (lead.ahead + played).saturating_sub(r * slots);
    Lead {
        ahead,
        most: lead.most.max(ahead),
    }
}

// How many places a pass has to stop at, and the largest frame. A count, as the next pass is lent the room anew and cuts it there.
#[derive(Clone, Copy)]
pub struct Stops {
    pub count: usize,
    pub largest: u64,
}

// The slots at which a pass must stop, where no rate is less than `low`: the next one, or the last of several whose frames are all no
// larger than `low`, in which no lead grows. The count goes up without a branch.
fn leave_out_small_frames(sums: Sums, low: u64, places: &mut [u64]) -> Stops
    requires { (length sums.t.now ≤ length places.old) × (low ≤ greatest_rate) }
    ensures { Places sums.entry.t.now low greatest_rate result.largest places.new result.count }
{
    let mut last = low + 1;
    let mut largest = 0u64;
    let mut k = 1;
    places[0] = 0;
    for m in 1..sums.t.len() {
        let frame = sums.t[m] - sums.t[m - 1];
        k = base::select(low < last.max(frame), k + 1, k);
        largest = largest.max(frame);
        places[k - 1] = m as u64;
        last = frame;
    }
    Stops { count: k, largest }
}

// The more of a lead and of what a frame alone gets ahead of rate r.
fn or_frame_alone(most: u64, frame: u64, r: u64) -> u64
    ensures { result ≡ max most (frame - r) }
{
    most.max(frame.saturating_sub(r))
}

// The lead at each rate, some slots on.
fn leads_after(leads: &mut [Lead; AT_ONCE], played: u64, slots: u64, rates: &[u64; AT_ONCE])
    requires { LeadsWithin leads.old rates.now × ((played ≤ greatest_total) × (slots ≤ most_frames)) }
    ensures { (i : ℕ) → i < at_once → lead_at leads.new i ≡ lead_after (lead_at leads.old i) played slots (get_or rates.now i 0) }
{
    for (i, lead) in leads.iter_mut().enumerate() {
        *lead = lead_after(*lead, played, slots, rates[i]);
    }
}

// The needs by the leads at the last place: it need not show what one frame, `largest`, alone gets ahead.
fn needs_by(leads: &[Lead; AT_ONCE], largest: u64, rates: &[u64; AT_ONCE]) -> [u64; AT_ONCE]
    ensures { result ≡ tab (λ i. max (lead_at leads.now i).most (largest - get_or rates.now i 0)) at_once }
{
    let mut needs = [0u64; AT_ONCE];
    for (i, need) in needs.iter_mut().enumerate() {
        *need = or_frame_alone(leads[i].most, largest, rates[i]);
    }
    needs
}

// The needs at some rates, by one pass over the places: the most that what is played gets ahead of each rate.
fn needs_at_once(sums: Sums, places: &[u64], largest: u64, rates: &[u64; AT_ONCE]) -> [u64; AT_ONCE]
    requires { PlacesAtOnce sums.t.now largest places.now rates.now }
    ensures { result ≡ tab (λ i. need_of sums.entry.t.now (get_or rates.now i 0)) at_once }
{
    let mut leads = [Lead { ahead: 0, most: 0 }; AT_ONCE];
    let mut at = 0;
    let mut sum = 0;
    for &to in &places[1..] {
        let next = sums.t[to as usize];
        leads_after(&mut leads, next - sum, to - at, rates);
        at = to;
        sum = next;
    }
    needs_by(&leads, largest, rates)
}

// A stop of a pass at one rate, what is played by it and the lead there.
#[derive(Clone, Copy)]
pub struct Stop {
    pub at: u64,
    pub sum: u64,
    pub lead: u64,
}

// The next stop of the pass.
fn next_stop(sums: Sums, to: u64, r: u64, s: Stop) -> Stop
    requires { StopBefore sums.t.now to r s }
    ensures { result ≡ next_stop (sums_in sums.entry.t.now) to r s }
{
    let sum = sums.t[to as usize];
    let lead = (s.lead + (sum - s.sum)).saturating_sub(r * (to - s.at));
    Stop { at: to, sum, lead }
}

// What a pass that leaves places out knows at a place of a lead at its rate, by which it puts the next place after the last of those that
// are left so far, or over some of them.
trait Since: Copy {
    // what is so of each state at place j
    ghost Fits: { Self → ℕ → Type 0 };

    ghost after: { Self → ℕ → Self };

    ghost last_of: { Self → ℕ };

    // The state at the next place, with the lead at it.
    fn next(self, lead: u64) -> Self
        requires { Fits self most_frames × (lead ≤ greatest_total) }
        ensures { result ≡ after self lead };

    // The last of the places that are left.
    fn last(self) -> usize
        ensures { result ≡ last_of self };

    ghost later: { (t : Self) (j k : ℕ) → j ≤ k → Fits t j → Fits t k };

    ghost next_fits: { (t : Self) (lead j : ℕ) → Fits t j → Fits (after t lead) (suc j) };

    ghost last_to: { (t : Self) (j : ℕ) → Fits t j → last_of t ≤ j };
}

// The places left of the old ones at rate r, from a state at the first place on, in front; how many they are.
fn leave_out<S: Since>(sums: Sums, r: u64, start: S, places: &mut [u64]) -> usize
    requires { PassOver sums.t.now r places.old × S.Fits start 0 }
    ensures left { places.new ≡ left_at S.after S.last_of (sums_in sums.entry.t.now) r places.old start (length places.old - 1) }
    ensures count { result ≡ S.last_of (state_at S.after (sums_in sums.entry.t.now) r places.old start (length places.old - 1)) + 1 }
{
    let mut t = start;
    let mut s = Stop {
        at: 0,
        sum: 0,
        lead: 0,
    };
    for j in 1..places.len() {
        let to = places[j];
        s = next_stop(sums, to, r, s);
        t = t.next(s.lead);
        let last = t.last();
        places[last] = to;
    }
    t.last() + 1
}

// What is known of a lead at the lowest rate since a peak: the last of the places that are left so far, the peak among them, the least
// lead since that peak, how high the lead may get without being a new peak, and what the largest frame alone gets ahead.
#[derive(Clone, Copy)]
pub struct SincePeak {
    pub last: usize,
    pub peak: usize,
    pub floor: u64,
    pub bar: u64,
    pub slack: u64,
}

// Above the bar the next place is a peak. On the floor all places since the peak are left out: at no rate does the lead get higher between
// them than at the peak, or further ahead in a run of its own than the largest frame alone.
impl Since for SincePeak {
    ghost use Rattle.pacing.specs.Work.{since_peak_after};
    ghost use Rattle.pacing.specs.Since.{PeakFits, peak_later, peak_next};

    ghost Fits = { PeakFits };

    ghost after = { since_peak_after };

    ghost last_of = { λ t. t.last };

    ghost later = { peak_later };

    ghost next_fits = { peak_next };

    ghost last_to = { λ t j so. so.last_to };

    fn next(self, lead: u64) -> SincePeak {
        let is_peak = self.bar < lead;
        let is_above_floor = self.floor < lead;
        let last = base::select(is_above_floor, self.last, self.peak) + 1;
        let floor = self.floor.min(lead);
        let bar = self.bar.min(floor + self.slack);
        SincePeak {
            last,
            peak: base::select(is_peak, last, self.peak),
            floor: base::select(is_peak, lead, floor),
            bar: base::select(is_peak, lead, bar),
            slack: self.slack,
        }
    }

    fn last(self) -> usize {
        self.last
    }
}

// As few places as do where no rate is less than `low`: low peaks are left out.
fn leave_out_low_peaks(sums: Sums, low: u64, largest: u64, places: &mut [u64]) -> usize
    requires { PassOver sums.t.now low places.old × (largest ≤ greatest_total) }
    ensures { SameFrom sums.entry.t.now low largest places.old places.new result }
{
    let slack = largest.saturating_sub(low);
    let start = SincePeak {
        last: 0,
        peak: 0,
        floor: 0,
        bar: slack,
        slack,
    };
    leave_out(sums, low, start, places)
}

// What is known of a lead at the highest rate since a valley: the last of the places that are left so far, the valley among them, the lead
// at that valley, and the greatest lead since.
#[derive(Clone, Copy)]
pub struct SinceValley {
    pub last: usize,
    pub valley: usize,
    pub base: u64,
    pub ceiling: u64,
}

// No higher than the valley the next place is a valley. As high as any since the valley, all places since then are left out: at no rate is
// it better to start between them than at the valley, or to end there than here.
impl Since for SinceValley {
    ghost use Rattle.pacing.specs.Work.{since_valley_after};
    ghost use Rattle.pacing.specs.Since.{ValleyFits, valley_later, valley_next};

    ghost Fits = { ValleyFits };

    ghost after = { since_valley_after };

    ghost last_of = { λ t. t.last };

    ghost later = { valley_later };

    ghost next_fits = { valley_next };

    ghost last_to = { λ t j so. so.last_to };

    fn next(self, lead: u64) -> SinceValley {
        let is_above_valley = self.base < lead;
        let is_below_ceiling = lead < self.ceiling;
        let onto = base::select(is_below_ceiling, self.last, self.valley);
        let last = base::select(is_above_valley, onto, self.last) + 1;
        let ceiling = self.ceiling.max(lead);
        SinceValley {
            last,
            valley: base::select(is_above_valley, self.valley, last),
            base: self.base.min(lead),
            ceiling: base::select(is_above_valley, ceiling, lead),
        }
    }

    fn last(self) -> usize {
        self.last
    }
}

// As few places as do where no rate is more than `high`: dips are left out.
fn leave_out_dips(sums: Sums, high: u64, places: &mut [u64]) -> usize
    requires { PassOver sums.t.now high places.old }
    ensures { SameUpTo sums.entry.t.now high places.old places.new result }
{
    let start = SinceValley {
        last: 0,
        valley: 0,
        base: 0,
        ceiling: 0,
    };
    leave_out(sums, high, start, places)
}

// Dips left out for rates from `low` to `high`, where these are near each other, `high` no more than twice `low`: else few places would go.
fn leave_out_dips_if_near(sums: Sums, low: u64, high: u64, places: &mut [u64]) -> usize
    requires { PassOver sums.t.now high places.old }
    ensures { SameUpTo sums.entry.t.now high places.old places.new result }
{
    if low < high.saturating_sub(low) {
        return places.len();
    }
    leave_out_dips(sums, high, places)
}

// The places for rates from `low` to `high`, and the largest frame. Where no rate is above the last of those first taken at once, one pass
// finds all needs, and takes less time than to leave places out.
fn first_places(sums: Sums, low: u64, last: u64, high: u64, places: &mut [u64]) -> Stops
    requires { (length sums.t.now ≤ length places.old) × ((low ≤ greatest_rate) × (high ≤ greatest_rate)) }
    ensures { Places sums.entry.t.now low high result.largest places.new result.count }
{
    let stops = leave_out_small_frames(sums, low, places);
    if high <= last {
        return stops;
    }
    let largest = stops.largest;
    let fewer = leave_out_low_peaks(sums, low, largest, &mut places[..stops.count]);
    let count = leave_out_dips_if_near(sums, low, high, &mut places[..fewer]);
    Stops { count, largest }
}

// The rate to leave out low peaks for: `a` where it is an eighth above the rate for which they are, as a pass costs time too.
fn rate_to_leave_out_for(done: u64, a: u64) -> u64
    requires { (done ≤ a) × (a ≤ greatest_rate) }
    ensures { (done ≤ result) × (result ≤ a) }
{
    if done + done / 8 < a { a } else { done }
}

// Low peaks left out for rates from `low` on, if they aren't.
fn leave_out_more_peaks(sums: Sums, low: u64, done: u64, largest: u64, places: &mut [u64]) -> usize
    requires { PassOver sums.t.now low places.old × (largest ≤ greatest_total) }
    ensures { SameFrom sums.entry.t.now low largest places.old places.new result }
{
    if low == done {
        return places.len();
    }
    leave_out_low_peaks(sums, low, largest, places)
}

// The highest of the rates.
fn highest(rates: &[u64; Job::MOST_NODES]) -> u64
    ensures { result ≡ greatest (λ i. get_or rates.now i 0) most_nodes }
{
    let mut top = 0u64;
    for &rate in rates {
        top = top.max(rate);
    }
    top
}

// The least rate from y on; the top where there is none, as its need is then found again and nothing has to ask.
fn next_rate(rates: &[u64; Job::MOST_NODES], y: u64, top: u64) -> u64
    ensures { NextRate rates.now most_nodes y top result }
{
    let mut rate = top;
    for &other in rates {
        rate = base::select(other < y, rate, rate.min(other));
    }
    rate
}

// The least rates from y on.
fn next_rates(rates: &[u64; Job::MOST_NODES], y: u64, top: u64) -> [u64; AT_ONCE]
    requires { top ≤ greatest_rate }
    ensures { NextRates rates.now y top result }
{
    let mut next = [top; AT_ONCE];
    let mut from = y;
    for rate in next.iter_mut() {
        *rate = next_rate(rates, from, top);
        from = *rate + 1;
    }
    next
}

// The place of a rate among those taken at once.
fn place_of(taken: &[u64; AT_ONCE], rate: u64) -> Option<usize>
    ensures { result ≡ position (λ r. r == rate) taken.now }
{
    taken.iter().position(|&r| r == rate)
}

// The need at a rate, where it is one of those taken at once; what there was where it isn't.
fn need_at(taken: &[u64; AT_ONCE], needs: &[u64; AT_ONCE], rate: u64, old: u64) -> u64
    ensures { result ≡ chosen taken.now needs.now rate old }
{
    match place_of(taken, rate) {
        Some(i) => needs[i],
        None => old,
    }
}

// The needs at the rates taken at once, to the places that have these rates.
fn hand_out(
    rates: &[u64; Job::MOST_NODES],
    taken: &[u64; AT_ONCE],
    found: &[u64; AT_ONCE],
    needs: &mut [u64; Job::MOST_NODES],
)
    ensures { needs.new ≡ tab (λ i. chosen taken.now found.now (get_or rates.now i 0) (get_or needs.old i 0)) most_nodes }
{
    for (i, need) in needs.iter_mut().enumerate() {
        *need = need_at(taken, found, rates[i], *need);
    }
}

// The need at each of the rates, at its place: some rates at a time, the lowest first, as the higher ones have fewer places to stop at. The
// places are room for the slots at which the passes stop.
pub fn needs(
    sums: Sums,
    rates: &[u64; Job::MOST_NODES],
    places: &mut [u64],
) -> [u64; Job::MOST_NODES]
    requires { (length sums.t.now ≤ length places.old) × RatesWithin rates.now }
    ensures { result ≡ needs_at sums.entry.t.now rates.now }
{
    let top = highest(rates);
    let lowest = next_rates(rates, 0, top);
    let mut y = lowest[0];
    let mut done = y;
    let first = first_places(sums, y, lowest[AT_ONCE - 1], top, places);
    let largest = first.largest;
    let mut count = first.count;
    let mut needs = [0u64; Job::MOST_NODES];
    while y <= top {
        let taken = next_rates(rates, y, top);
        let low = rate_to_leave_out_for(done, taken[0]);
        count = leave_out_more_peaks(sums, low, done, largest, &mut places[..count]);
        let found = needs_at_once(sums, &places[..count], largest, &taken);
        hand_out(rates, &taken, &found, &mut needs);
        done = low;
        y = taken[AT_ONCE - 1] + 1;
    }
    needs
}
