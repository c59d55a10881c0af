// The program: reads a job from standard input and prints both answers to it. Everything that is printed comes from `answer`, which
// says what the text is; reading and writing are thin. Definitions to believe: specs/Decimal, Text, Printed.
#![tactic(auto)]

ghost use Rattle.std.specs.Prelude.{[], ◌++◌, ◌≡◌, ◌+◌, ◌-◌, ◌*◌, ◌≤◌, ◌<◌, length, IfOk, OnOk, Ok, List, ℕ, take};
ghost use Rattle.std.specs.Io.KnownBytes.{Appends, Consumes, IsAtEnd};
ghost use Rattle.io.specs.Counts.{IsPrefixLen};
ghost use Rattle.base.specs.Table.{rows_of};
ghost use Rattle.job.specs.Bytes.{job_of};
ghost use Rattle.job.specs.Tree as tree;
ghost use Rattle.relay.specs.Decimal.{digits};
ghost use Rattle.relay.specs.Text.{spaced, line, node_line};
ghost use Rattle.relay.specs.Room.{most_digits, word_width, line_room, node_room, memory_room, rate_room, text_room, Adds};
ghost use Rattle.relay.specs.Printed.{MemoryLines, RateLine, BothAnswers, Printed};
ghost use Rattle.relay.specs.Taken.{number, Takes};
ghost use Rattle.relay.specs.declared.Refusal.TheVariants.{Job as OfJob};

use arrayvec::ArrayString;
use itoa::Buffer;
use job::{Job, Sizes};
use std::io;
use std::io::{Read, Write};

// The most bytes of a job and the most numbers of a plan that are taken.
const MOST_BYTES: usize = 32_768;

const MOST_PLANNED: usize = 4_096;

// Why no question is asked: the job or its plan is too large for this program, or the bytes are refused.
#[derive(Clone, Copy, Debug, PartialEq, Eq)]
enum Refusal {
    TooLarge,
    Job(job::Refusal),
}

impl From<job::Refusal> for Refusal {
    ghost from_gives = { λ refusal r. r ≡ OfJob refusal };

    fn from(refusal: job::Refusal) -> Refusal {
        Refusal::Job(refusal)
    }
}

// The number that is printed.
impl From<Refusal> for u64 {
    ghost from_gives = { λ refusal n. n ≡ number refusal };

    fn from(refusal: Refusal) -> u64 {
        match refusal {
            Refusal::TooLarge => 15,
            Refusal::Job(refusal) => u64::from(refusal),
        }
    }
}

// Room for every text, at 21 characters for a number and the space or line end after it: the first line has 3 numbers, the node lines have
// at most 4,096 and twice 63, the last has 3 and 63.
const TEXT_ROOM: usize = 90_111;

// What is printed. Its room is fixed, so that no answer fails for want of memory.
type Text = ArrayString<TEXT_ROOM>;

// Each of the next functions adds to a text, which has room for what is added.
fn add_number(text: &mut Text, n: u64)
    requires { length text.old.bytes + most_digits ≤ text_room }
    ensures added { text.new.bytes ≡ text.old.bytes ++ digits n }
    ensures long { length text.new.bytes ≤ length text.old.bytes + most_digits }
{
    let mut buffer = Buffer::new();
    text.push_str(buffer.format(n));
}

// A row's numbers, each after a space.
fn add_row(text: &mut Text, row: &[u64])
    requires { length text.old.bytes + word_width * length row.now ≤ text_room }
    ensures added { text.new.bytes ≡ text.old.bytes ++ spaced row.now }
    ensures long { length text.new.bytes ≤ length text.old.bytes + word_width * length row.now }
{
    for &n in row {
        text.push_str(" ");
        add_number(text, n);
    }
}

// A line: a first number, a few, and those of a row.
fn add_line(text: &mut Text, first: u64, few: &[u64], row: &[u64])
    requires { length text.old.bytes + line_room (length few.now + length row.now) ≤ text_room }
    ensures added { text.new.bytes ≡ text.old.bytes ++ line first (few.now ++ row.now) }
    ensures long { length text.new.bytes ≤ length text.old.bytes + line_room (length few.now + length row.now) }
{
    add_number(text, first);
    add_row(text, few);
    add_row(text, row);
    text.push_str("\n");
}

// The lines of all nodes: node, peak, row.
fn add_nodes(text: &mut Text, bytes: &[u8], plan: &[u64], peaks: &[u64])
    requires { length text.old.bytes + length peaks.now * node_room bytes.now ≤ text_room }
    ensures added { text.new.bytes
        ≡ text.old.bytes ++ rows_of (node_line bytes.now plan.now peaks.now) (length peaks.now) }
    ensures long { length text.new.bytes ≤ length text.old.bytes + length peaks.now * node_room bytes.now }
{
    for (i, &peak) in peaks.iter().enumerate() {
        let row = planner::row_of(bytes, plan, i + 1);
        add_line(text, i as u64 + 1, &[peak], row);
    }
}

// The memory question and its lines, with outputs of the right length.
fn add_memory_lines(text: &mut Text, bytes: &[u8], plan: &mut [u64], peaks: &mut [u64])
    requires { (length plan.old ≡ tree.plan_length (job_of bytes.now)) × ((length peaks.old ≡ (job_of bytes.now).tree.n - 1)
        × (length text.old.bytes + memory_room bytes.now ≤ text_room)) }
    ensures added { Adds (MemoryLines bytes.now) text.old.bytes text.new.bytes }
    ensures long { length text.new.bytes ≤ length text.old.bytes + memory_room bytes.now }
{
    match planner::memory_question(bytes, plan, peaks) {
        Err(refusal) => add_line(text, u64::from(refusal), &[], &[]),
        Ok(planned) => {
            add_line(text, 0, &[planned.last_slot, planned.total], &[]);
            add_nodes(text, bytes, plan, peaks);
        }
    }
}

// The rate question and its line, with an output of the right length.
fn add_rate_line(text: &mut Text, bytes: &[u8], memories: &mut [u64])
    requires { (length memories.old ≡ (job_of bytes.now).tree.n - 1) × (length text.old.bytes + rate_room bytes.now ≤ text_room) }
    ensures added { Adds (RateLine bytes.now) text.old.bytes text.new.bytes }
{
    match rates::rate_question(bytes, memories) {
        Err(refusal) => add_line(text, u64::from(refusal), &[], &[]),
        Ok(sizing) => add_line(text, 0, &[sizing.delay, sizing.total], memories),
    }
}

// Both answers to a job of these sizes, into an empty text. Plan and memories stand in fixed rooms too.
fn add_both(text: &mut Text, bytes: &[u8], sizes: Sizes)
    requires { Takes (Ok sizes) bytes.now × (text.old.bytes ≡ []) }
    ensures { BothAnswers bytes.now text.new.bytes }
{
    let links = sizes.nodes - 1;
    let mut plan = job::room::<MOST_PLANNED>();
    let mut peaks = job::room::<{ Job::MOST_NODES }>();
    add_memory_lines(
        text,
        bytes,
        &mut plan[..sizes.plan_length],
        &mut peaks[..links],
    );
    let mut memories = job::room::<{ Job::MOST_NODES }>();
    add_rate_line(text, bytes, &mut memories[..links]);
}

// The sizes of a job that both questions are asked of.
fn taken(bytes: &[u8]) -> Result<Sizes, Refusal>
    ensures { Takes result bytes.now }
{
    if MOST_BYTES < bytes.len() {
        return Err(Refusal::TooLarge);
    }
    let sizes = Sizes::read(bytes)?;
    if MOST_PLANNED < sizes.plan_length {
        return Err(Refusal::TooLarge);
    }
    Ok(sizes)
}

// All that is printed for these bytes, in place of what the text had: one that was returned would be copied.
fn answer(text: &mut Text, bytes: &[u8])
    ensures { Printed bytes.now text.new.bytes }
{
    text.clear();
    match taken(bytes) {
        Err(refusal) => add_line(text, u64::from(refusal), &[], &[]),
        Ok(sizes) => add_both(text, bytes, sizes),
    }
}

// Reads until `buf` is full, the input ends or a read fails; it gives how many bytes were read. A read may give fewer than asked for.
fn read_job<R: Read>(input: &mut R, buf: &mut [u8]) -> io::Result<usize>
    ensures within { IfOk result (λ count. IsPrefixLen count buf.new) }
    ensures bytes { IfOk result (λ count. Consumes (R.remaining input.old) (R.remaining input.new) (take count buf.new)) }
    ensures end { IfOk result (λ count. count < length buf.new → IsAtEnd (R.remaining input.new)) }
{
    let mut count = 0;
    // Not `read_to_end`: it would try an interrupted read again, and here any read that fails ends the reading.
    while count < buf.len() {
        let more = input.read(&mut buf[count..])?;
        if more == 0 {
            break;
        }
        count += more;
    }
    Ok(count)
}

// Writes all that is printed for these bytes.
fn show<W: Write>(output: &mut W, bytes: &[u8]) -> io::Result<()>
    ensures { OnOk result ((text : List ℕ) × Printed bytes.now text × Appends (W.contents output.old) (W.contents output.new) text) }
{
    let mut text = Text::new();
    answer(&mut text, bytes);
    output.write_all(text.as_str().as_bytes())
}

fn main(rt: HostRuntime) {
    // One byte more than a job may have, so that a longer one shows.
    let mut buf = [0u8; MOST_BYTES + 1];
    let told = match read_job(&mut rt.stdin(), &mut buf) {
        Err(_) => eprintln!(rt; "relay: standard input could not be read"),
        Ok(count) => match show(&mut rt.stdout(), &buf[..count]) {
            Err(_) => eprintln!(rt; "relay: the answer could not be written"),
            Ok(()) => Ok(()),
        },
    };
    // Where standard error takes nothing, there is nobody to tell.
    let _ = told;
}
