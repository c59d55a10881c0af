// Constant-rate radio links: from a film and rates to the least delay and the least memory of one screen at each rate.
// Definitions to believe: specs/Radio (what serves, the line of a rate), specs/Answer (what the function below gives).
// The rate is a plain number with its bound in each contract, as in pacing.
#![tactic(auto)]

ghost use Rattle.std.specs.Prelude.{[], ◌∷◌, ◌≡◌, ◌+◌, ◌-◌, ◌*◌, ◌≤◌, ◌<◌, length};
ghost use Rattle.job.specs.Limits.{most_frames, longest_delay, greatest_rate};
ghost use Rattle.job.specs.Bytes.{job_of};
ghost use Rattle.job.specs.Sums.{long_room, sums_in};
ghost use Rattle.radio.specs.Radio.{carried, memory_at, line_of, lines_of, lines_for};
ghost use Rattle.radio.specs.Work.{excess_before};
ghost use Rattle.radio.specs.Answer.{number, number_of, line_length, lent_refusal, Answers};
ghost use Rattle.radio.specs.declared.Refusal.TheVariants.{Job as OfJob};

use job::{Checked, Node, Sums};

// The most rates, and how many numbers a line has.
pub const MOST_RATES: usize = 8;

pub const LINE_LENGTH: usize = 3;

// Why no lines are given: the job or the list lent for them is refused, or there is no rate or too many.
#[derive(Clone, Copy, Debug, PartialEq, Eq)]
pub enum Refusal {
    Job(job::Refusal),
    BadRates,
}

impl From<job::Refusal> for Refusal {
    ghost from_gives = { λ refusal r. r ≡ OfJob refusal };

    fn from(refusal: job::Refusal) -> Refusal {
        Refusal::Job(refusal)
    }
}

// The document's number.
impl From<Refusal> for u64 {
    ghost from_gives = { λ refusal n. n ≡ number refusal };

    fn from(refusal: Refusal) -> u64 {
        match refusal {
            Refusal::Job(refusal) => u64::from(refusal),
            Refusal::BadRates => 16,
        }
    }
}

// What is carried by the end of slot k at rate r, of a film that totals `total`.
fn carried_by(r: u64, k: u64, total: u64) -> u64
    requires { (r ≤ greatest_rate) × (k ≤ most_frames + longest_delay) }
    ensures { result ≡ carried total r k }
{
    (r * k).min(total)
}

// The greatest excess of what is carried over what is played, at the slots before `to` after the delay, from that at those before m. Where
// all that is carried by the last of these slots is no greater excess over what is played by the first, none of them has a greater one.
fn excess_for_slots(sums: Sums, r: u64, d: u64, m: usize, to: usize, excess: u64) -> u64
    requires within { (r ≤ greatest_rate) × (d ≤ longest_delay) }
    requires slots { (m < to) × (to ≤ length sums.t.now) }
    requires excess { excess ≡ excess_before sums.t.now r d m }
    ensures { result ≡ excess_before sums.entry.t.now r d to }
{
    let total = sums.total();
    let most = carried_by(r, d + (to - 1) as u64, total);
    if most.saturating_sub(sums.t[m]) <= excess {
        return excess;
    }
    let mut excess = excess;
    for i in m..to {
        let carried = carried_by(r, d + i as u64, total);
        excess = excess.max(carried.saturating_sub(sums.t[i]));
    }
    excess
}

// The memory with the delay d at the rate r. Until slot d nothing is played, so no slot before it has a greater excess.
fn memory_at(sums: Sums, r: u64, d: u64) -> u64
    requires { (r ≤ greatest_rate) × (d ≤ longest_delay) }
    ensures { result ≡ memory_at (length sums.entry.t.now - 1) (sums_in sums.entry.t.now) r d }
{
    let mut excess = 0;
    for m in (0..sums.t.len()).step_by(pacing::STRETCH) {
        let to = (m + pacing::STRETCH).min(sums.t.len());
        excess = excess_for_slots(sums, r, d, m, to, excess);
    }
    excess
}

// The three numbers of a line, into its part of the list.
fn put_line(line: &mut [u64], number: u64, delay: u64, memory: u64)
    requires { length line.old ≡ line_length }
    ensures { line.new ≡ number ∷ delay ∷ memory ∷ [] }
{
    line.copy_from_slice(&[number, delay, memory]);
}

// The line of one rate. A rate above T(M) carries the film in slot 1, as T(M) does: so the smaller of the two does, and its products fit.
fn fill_line(sums: Sums, rate: u64, line: &mut [u64])
    requires { length line.old ≡ line_length }
    ensures { line.new ≡ line_of (length sums.entry.t.now - 1) (sums_in sums.entry.t.now) rate }
{
    let r = rate.min(sums.total());
    match pacing::start_delay(sums, r) {
        Some(d) => put_line(line, 0, d, memory_at(sums, r, d)),
        None => put_line(line, pacing::NO_DELAY, 0, 0),
    }
}

// The line of each rate, in its part of the list, which C lends: three numbers for each rate.
fn fill(sums: Sums, rates: &[u64], lines: &mut [u64])
    requires { length lines.old ≡ length rates.now * line_length }
    ensures { lines.new ≡ lines_of (length sums.entry.t.now - 1) (sums_in sums.entry.t.now) rates.now }
{
    for (i, &rate) in rates.iter().enumerate() {
        let start = i * LINE_LENGTH;
        fill_line(sums, rate, &mut lines[start..start + LINE_LENGTH]);
    }
}

// The work on an accepted job whose film has fewer frames than a room for its sums has places.
fn with_room<const ROOM: usize>(checked: Checked, rates: &[u64], lines: &mut [u64])
    requires lines_len { length lines.old ≡ length rates.now * line_length }
    requires room { (checked.job.now.frames < ROOM) × (ROOM ≤ long_room) }
    ensures { lines.new ≡ lines_for (job_of checked.entry.bytes.now) rates.now }
{
    let mut room = job::room::<ROOM>();
    let film = checked.film(&mut room);
    fill(film.sums, rates, lines);
}

// The same on an accepted job: it chooses the room, as to clear that for the longest film takes longer than a short film's answer.
// The choice isn't made once in job: a closure for the work, which writes what is lent, would take more clauses than the branches.
fn with_job(checked: Checked, rates: &[u64], lines: &mut [u64])
    requires { length lines.old ≡ length rates.now * line_length }
    ensures { lines.new ≡ lines_for (job_of checked.entry.bytes.now) rates.now }
{
    if checked.job.frames < job::SHORT_ROOM {
        with_room::<{ job::SHORT_ROOM }>(checked, rates, lines)
    } else if checked.job.frames < job::MIDDLE_ROOM {
        with_room::<{ job::MIDDLE_ROOM }>(checked, rates, lines)
    } else {
        with_room::<{ job::LONG_ROOM }>(checked, rates, lines)
    }
}

// Whether this many rates, and a list of this length for their lines, will do.
fn check_lent(rates: usize, lent: usize) -> Result<(), Refusal>
    ensures { number_of result ≡ lent_refusal rates lent }
{
    if rates == 0 || MOST_RATES < rates {
        return Err(Refusal::BadRates);
    }
    if lent != rates * LINE_LENGTH {
        return Err(Refusal::Job(job::Refusal::BadLent));
    }
    Ok(())
}

// The lines of up to MOST_RATES rates, each any number, for the film of any bytes that are a job.
pub fn constant_rates(bytes: &[u8], rates: &[u64], lines: &mut [u64]) -> Result<(), Refusal>
    ensures { Answers bytes.now rates.now lines.old result lines.new }
{
    let job = job::read(bytes)?;
    check_lent(rates.len(), lines.len())?;
    let checked = Checked { bytes, job: &job };
    with_job(checked, rates, lines);
    Ok(())
}
