// Writing into job bytes: an answer of the rate question put back into its job. Definitions to believe: specs/PutBack.
#![tactic(auto)]

ghost use Rattle.std.specs.Prelude.{cond, ◌≡◌, ◌+◌, ◌%◌, ◌≤◌, ◌<◌, length};
ghost use Rattle.job.specs.Limits.{most_nodes};
ghost use Rattle.job.specs.Bytes.{record_place, record_width};
ghost use Rattle.writing.specs.PutBack.{written, record_with, put_back, memories_in, some_memory_wrong, Puttable, Puts};

use job::{Job, Node, Refusal};

// The number x in WIDTH bytes, big-endian: the last byte is written first. By hand, as base's `number`.
fn put_number<const WIDTH: usize>(s: &mut [u8], place: usize, x: u64)
    requires { place + WIDTH ≤ length s.old }
    ensures { s.new ≡ written s.old place WIDTH x }
{
    let mut rest = x;
    for i in (0..WIDTH).rev() {
        s[place + i] = (rest % 256) as u8;
        rest /= 256;
    }
}

// The delay of a leaf; that of an inner node stays.
fn put_delay(s: &mut [u8], place: usize, leaf: bool, w: u64)
    requires { place + 2 ≤ length s.old }
    ensures { s.new ≡ cond leaf (written s.old place 2 w) s.old }
{
    if leaf {
        put_number::<2>(s, place, w);
    }
}

// What the answer changes in the record of node i.
fn put_record(s: &mut [u8], i: usize, leaf: bool, w: u64, memory: u64)
    requires { (0 < i) × ((i ≤ most_nodes) × (record_place i + record_width ≤ length s.old)) }
    ensures { s.new ≡ record_with s.old i leaf w memory }
{
    let at = Job::HEADER + Node::WIDTH * (i - 1);
    put_delay(s, at + 1, leaf, w);
    put_number::<8>(s, at + 3, memory);
}

// The answer in every record. Which nodes are leaves is known before anything is written.
fn put_records(s: &mut [u8], nodes: usize, leaves: u64, w: u64, memories: &[u64])
    requires { Puttable s.old nodes leaves memories.now }
    ensures { s.new ≡ put_back s.old w (memories_in memories.now) }
{
    for i in 1..nodes {
        put_record(s, i, base::member(leaves, i), w, memories[i - 1]);
    }
}

// Whether some number of a list is too large a memory.
fn some_memory_wrong(memories: &[u64]) -> bool
    ensures { result ≡ some_memory_wrong memories.now }
{
    memories
        .iter()
        .any(|&memory| Node::GREATEST_MEMORY < memory)
}

// The answer w and memories, for nodes 1 to n-1 in their order, put back into a job's bytes; or its refusal, and the bytes stay as they
// are.
pub fn put_back(bytes: &mut [u8], w: u64, memories: &[u64]) -> Result<(), Refusal>
    ensures { Puts bytes.old w memories.now result bytes.new }
{
    let job = job::read(bytes)?;
    let nodes = job.nodes;
    if (Node::LONGEST_DELAY as u64) < w {
        return Err(Refusal::BadDelay);
    }
    if some_memory_wrong(memories) {
        return Err(Refusal::LargeMemory);
    }
    if memories.len() != nodes - 1 {
        return Err(Refusal::BadLent);
    }
    put_records(bytes, nodes, job.leaves(), w, memories);
    Ok(())
}
