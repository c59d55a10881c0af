// Runs document 01's cases that are run and not proved: those that concern reading, with what each job is refused with (0: it is read),
// and rate 0 with a frame above 0; and beside them starred cases of both questions, in the form of the program's lines.
#![tactic(auto)]

ghost use Rattle.std.specs.Prelude.{◌≡◌, ◌+◌, ◌≤◌, length};

use std::io;
use std::io::Write;

// The first bytes of a job: mark, version, n, M.
fn header(nodes: u8, frames: u8) -> [u8; 10] {
    [b'R', b'L', b'Y', 0, 1, nodes, 0, 0, 0, frames]
}

// A node's record, with fields below 256.
fn record(parent: u8, delay: u8, memory: u8, rate: u8) -> [u8; 19] {
    let mut record = [0u8; 19];
    record[0] = parent;
    record[2] = delay;
    record[10] = memory;
    record[18] = rate;
    record
}

// Bytes written into a job, from a place on.
fn put(job: &mut [u8], at: usize, bytes: &[u8])
    requires { at + length bytes.now ≤ length job.old }
    ensures { length job.new ≡ length job.old }
{
    job[at..at + bytes.len()].copy_from_slice(bytes);
}

// The job of a root with n - 1 leaves under it and one frame, and zeros after it; every field of the records and the frame is 0.
fn star(n: u8) -> [u8; 1280]
    ensures { 1280 ≡ length result }
{
    let mut job = [0u8; 1280];
    put(&mut job, 0, &header(n, 1));
    job
}

// Tree Q: node 1 under the root, leaves 2 and 3 under node 1; frames 4, 10, 1; these memories and rates, and leaf 3's delay.
fn tree_q(memories: [u8; 3], rates: [u8; 3], delay: u8) -> [u8; 79]
    ensures { 79 ≡ length result }
{
    let mut job = [0u8; 79];
    put(&mut job, 0, &header(4, 3));
    put(&mut job, 10, &record(0, 0, memories[0], rates[0]));
    put(&mut job, 29, &record(1, 0, memories[1], rates[1]));
    put(&mut job, 48, &record(1, delay, memories[2], rates[2]));
    put(&mut job, 67, &[0, 0, 0, 4, 0, 0, 0, 10, 0, 0, 0, 1]);
    job
}

// What the first `len` bytes of a star's job are refused with.
fn show_star(out: &mut impl Write, name: &str, n: u8, len: usize) -> io::Result<()>
    requires { len ≤ 1280 }
{
    let number = job::read(&star(n)[..len]).err().map_or(0, u64::from);
    writeln!(out, "{name}: {number}")
}

fn show_row(out: &mut impl Write, row: &[u64]) -> io::Result<()> {
    for n in row {
        write!(out, " {n}")?;
    }
    writeln!(out)
}

// A line for each node: node, peak, row.
fn show_nodes(out: &mut impl Write, job: &[u8], plan: &[u64], peaks: &[u64]) -> io::Result<()> {
    for (i, peak) in peaks.iter().enumerate() {
        write!(out, "{} {peak}", i + 1)?;
        show_row(out, planner::row_of(job, plan, i + 1))?;
    }
    Ok(())
}

// Tree Q with these memories: a plan of N numbers. With leaf 3's delay 0 the slots are 0 to 3, with 1 they are 0 to 4.
fn show_q<const N: usize>(out: &mut impl Write, memories: [u8; 3], delay: u8) -> io::Result<()>
    requires { N ≤ 15 }
{
    let job = tree_q(memories, [0; 3], delay);
    let mut plan = [0u64; N];
    let mut peaks = [0u64; 3];
    match planner::memory_question(&job, &mut plan, &mut peaks) {
        Err(refusal) => writeln!(out, "{}", u64::from(refusal)),
        Ok(planned) => {
            writeln!(out, "0 {} {}", planned.last_slot, planned.total)?;
            show_nodes(out, &job, &plan, &peaks)
        }
    }
}

// Tree Q with these rates.
fn show_rated_q(out: &mut impl Write, rates: [u8; 3]) -> io::Result<()> {
    let job = tree_q([0; 3], rates, 0);
    let mut memories = [0u64; 3];
    match rates::rate_question(&job, &mut memories) {
        Err(refusal) => writeln!(out, "{}", u64::from(refusal)),
        Ok(sizing) => {
            write!(out, "0 {} {}", sizing.delay, sizing.total)?;
            show_row(out, &memories)
        }
    }
}

fn main(rt: HostRuntime) -> io::Result<()> {
    let out = &mut rt.stdout();
    // 10 bytes, 63 records of 19 and a frame of 4: 1,211 bytes; one record more: 1,230.
    show_star(out, "n = 64", 64, 1211)?;
    show_star(out, "n = 65", 65, 1230)?;
    show_star(out, "length one short", 64, 1210)?;
    show_star(out, "length one over", 64, 1212)?;
    show_q::<12>(out, [0, 6, 6], 0)?;
    show_q::<12>(out, [6, 0, 6], 0)?;
    show_q::<15>(out, [4, 0, 6], 1)?;
    show_q::<15>(out, [4, 0, 5], 1)?;
    show_rated_q(out, [5, 10, 4])?;
    show_rated_q(out, [0, 0, 0])?;
    show_rated_q(out, [5, 0, 4])
}
