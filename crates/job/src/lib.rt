// The job of document 01: its bounds, its bytes, the reader, the running sums of its frames, and the sets of its nodes.
// Definitions to believe: specs/Limits, Tree, Bytes, Refusal; what the types below hold: specs/Read.
#![tactic(auto)]

ghost use Rattle.std.specs.Prelude.{false, ◌≡◌, ℕ, ◌+◌, ◌≤◌, ◌<◌, length, get_or};
ghost use Rattle.base.specs.Range.{some, greatest_over};
ghost use Rattle.base.specs.Set.{has, word_bits};
ghost use Rattle.job.specs.Limits as limit;
ghost use Rattle.job.specs.Limits.{fewest_nodes, most_nodes, most_frames};
ghost use Rattle.job.specs.Tree as tree;
ghost use Rattle.job.specs.Tree.{child, leaf, below, leaf_at, plan_length, TreeWithin};
ghost use Rattle.job.specs.Bytes.{record_place, node_count, frame_count, frame_at, tree_of, job_of};
ghost use Rattle.job.specs.Refusal.{number, delay_wrong, frame_wrong, refusal};
ghost use Rattle.job.specs.Sums as sums;
ghost use Rattle.job.specs.Sums.{sums_of, last_in, FilmSums, WithSums};
ghost use Rattle.job.specs.Read.{Gives, Reads, Accepted, limits, size_refusal, node_refusal, frame_refusal};
ghost use Rattle.job.specs.Read.{struct_of, bare_tree, tree_in, job_in, sizes_of};
ghost use Rattle.job.specs.Steps.{node_at, parents_of, empty_job, full_job, InnerNodes};
ghost use Rattle.job.specs.Steps.{head_refusal, nodes_refusal, rest_refusal, row_of, sooner, Sized};

// Why a job is refused, in the order of document 01's table; the last row is of what is lent beside its bytes.
#[derive(Clone, Copy, Debug, PartialEq, Eq, PartialOrd, Ord)]
pub enum Refusal {
    Short = 1,
    BadMark,
    BadVersion,
    BadNodes,
    BadFrames,
    BadLength,
    BadParent,
    BadDelay,
    LargeMemory,
    LargeFrame,
    BadLent,
}

// The table's number.
impl From<Refusal> for u64 {
    ghost from_gives = { λ refusal n. n ≡ number refusal };

    fn from(refusal: Refusal) -> u64 {
        refusal as u64
    }
}

// A frame's size in bytes.
#[derive(Clone, Copy)]
pub struct Frame {
    pub size: u64,
}

impl Frame {
    pub const GREATEST: u64 = 268_435_455;
    // Bytes that a size takes in a job.
    pub const WIDTH: usize = 4;

    pub fn new(size: u64) -> Result<Frame, Refusal>
        ensures { Gives result (frame_refusal size) (record { size = size }) }
    {
        if Frame::GREATEST < size {
            return Err(Refusal::LargeFrame);
        }
        Ok(Frame { size })
    }
}

// The record of a node other than the root, with the link into it.
#[derive(Clone, Copy)]
pub struct Node {
    pub parent: usize,
    pub delay: usize,
    pub memory: u64,
    pub rate: u64,
}

fn delay_wrong(leaf: bool, delay: usize) -> bool
    ensures { result ≡ delay_wrong leaf delay }
{
    if leaf {
        Node::LONGEST_DELAY < delay
    } else {
        delay != 0
    }
}

impl Node {
    pub const LONGEST_DELAY: usize = 4096;

    pub const GREATEST_MEMORY: u64 = 17_592_186_044_415;

    pub const GREATEST_RATE: u64 = Node::GREATEST_MEMORY;
    // Bytes that a record takes in a job.
    pub const WIDTH: usize = 19;

    // Node `number` of a tree, where it is known whether that is a leaf.
    pub fn new(number: usize, leaf: bool, node: Node) -> Result<Node, Refusal>
        ensures { Gives result (node_refusal number leaf node) node }
    {
        if number <= node.parent {
            return Err(Refusal::BadParent);
        }
        if delay_wrong(leaf, node.delay) {
            return Err(Refusal::BadDelay);
        }
        if Node::GREATEST_MEMORY < node.memory || Node::GREATEST_RATE < node.rate {
            return Err(Refusal::LargeMemory);
        }
        Ok(node)
    }
}

// A job without its frames, which stay in the bytes. Place i of each array is node i's; places without a record have 0. Fixed arrays, as
// the library has no heap. That they hold a tree is asked in clauses and is no ghost field, as `leaves` and `children` take any parents.
#[derive(Clone, Copy)]
pub struct Job {
    pub nodes: usize,
    pub frames: usize,
    pub parent: [usize; Job::MOST_NODES],
    pub delay: [usize; Job::MOST_NODES],
    pub memory: [u64; Job::MOST_NODES],
    pub rate: [u64; Job::MOST_NODES],
}

fn empty(nodes: usize, frames: usize) -> Job
    ensures { result ≡ struct_of (bare_tree nodes) frames }
{
    Job {
        nodes,
        frames,
        parent: [0usize; Job::MOST_NODES],
        delay: [0usize; Job::MOST_NODES],
        memory: [0u64; Job::MOST_NODES],
        rate: [0u64; Job::MOST_NODES],
    }
}

impl Job {
    pub const FEWEST_NODES: usize = 2;

    pub const MOST_NODES: usize = 64;

    pub const FEWEST_FRAMES: usize = 1;

    pub const MOST_FRAMES: usize = 65_536;
    // The most slots 0 to H that a job can have.
    pub const MOST_SLOTS: usize = Job::MOST_FRAMES + Node::LONGEST_DELAY + 1;
    // The mark `RLY` as a number, and the version.
    pub const MARK: u64 = 0x52_4c_59;

    pub const VERSION: u64 = 1;
    // Bytes before the first record.
    pub const HEADER: usize = 10;

    // A job of these counts, its records still empty; or the refusal of a count.
    pub fn new(nodes: usize, frames: usize) -> Result<Job, Refusal>
        ensures { Gives result (size_refusal nodes frames) (struct_of (bare_tree nodes) frames) }
    {
        if nodes < Job::FEWEST_NODES || Job::MOST_NODES < nodes {
            return Err(Refusal::BadNodes);
        }
        if frames < Job::FEWEST_FRAMES || Job::MOST_FRAMES < frames {
            return Err(Refusal::BadFrames);
        }
        Ok(empty(nodes, frames))
    }

    // The nodes that are somebody's parent. Parents may be any numbers here: the reader asks before it has tested them.
    fn inner_nodes(&self) -> u64
        requires { (fewest_nodes ≤ self.now.nodes) × (self.now.nodes ≤ most_nodes) }
        ensures { InnerNodes (tree_in self.now) result }
    {
        let mut set = 0;
        for i in 1..self.nodes {
            set = base::with(set, self.parent[i]);
        }
        set
    }

    // The leaves.
    pub fn leaves(&self) -> u64
        requires { (fewest_nodes ≤ self.now.nodes) × (self.now.nodes ≤ most_nodes) }
        ensures { (k : ℕ) → has result k ≡ leaf (tree_in self.now) k }
    {
        let inner = self.inner_nodes();
        let mut set = 0;
        for i in 0..self.nodes {
            if !base::member(inner, i) {
                set = base::with(set, i);
            }
        }
        set
    }

    // The children of node a.
    pub fn children(&self, a: usize) -> u64
        requires { (fewest_nodes ≤ self.now.nodes) × (self.now.nodes ≤ most_nodes) }
        ensures { (k : ℕ) → has result k ≡ child (tree_in self.now) k a }
    {
        let mut set = 0;
        for i in 1..self.nodes {
            if self.parent[i] == a {
                set = base::with(set, i);
            }
        }
        set
    }

    // The nodes below node a.
    pub fn below(&self, a: usize) -> u64
        requires { TreeWithin (tree_in self.now) }
        ensures { (k : ℕ) → has result k ≡ below (tree_in self.now) k a }
    {
        let mut set = 0;
        for i in 1..self.nodes {
            if self.parent[i] == a || base::member(set, self.parent[i]) {
                set = base::with(set, i);
            }
        }
        set
    }

    // The leaves at or below node a.
    pub fn leaves_at(&self, a: usize) -> u64
        requires { TreeWithin (tree_in self.now) }
        ensures { (k : ℕ) → has result k ≡ leaf_at (tree_in self.now) a k }
    {
        base::common(self.leaves(), base::with(self.below(a), a))
    }

    // H, the last slot.
    pub fn last_slot(&self) -> usize
        requires { TreeWithin (tree_in self.now) × (self.now.frames ≤ most_frames) }
        ensures { (frame : ℕ → ℕ) → result ≡ tree.H (job_in self.now frame) }
    {
        self.frames + longest(self.leaves(), &self.delay)
    }

    // How many numbers a plan has.
    pub fn plan_length(&self) -> usize
        requires { TreeWithin (tree_in self.now) × (self.now.frames ≤ most_frames) }
        ensures { (frame : ℕ → ℕ) → result ≡ plan_length (job_in self.now frame) }
    {
        (self.nodes - 1) * (self.last_slot() + 1)
    }
}

// The greatest of the numbers at the members of a set.
fn longest(set: u64, delay: &[usize; Job::MOST_NODES]) -> usize
    ensures { result ≡ greatest_over (has set) (λ i. get_or delay.now i 0) word_bits }
{
    let mut longest: usize = 0;
    for i in base::members(set) {
        longest = longest.max(delay[i]);
    }
    longest
}

// Where the record of node i stands.
fn record_place(i: usize) -> usize
    requires { (0 < i) × (i ≤ most_nodes) }
    ensures { result ≡ record_place i }
{
    Job::HEADER + Node::WIDTH * (i - 1)
}

// Rows 1 to 3 of the table of refusals.
fn check_head(s: &[u8]) -> Result<(), Refusal>
    ensures { Gives result (head_refusal s.now) tt }
{
    if s.len() < Job::HEADER {
        return Err(Refusal::Short);
    }
    if base::number::<3>(s, 0) != Job::MARK {
        return Err(Refusal::BadMark);
    }
    if base::number::<2>(s, 3) != Job::VERSION {
        return Err(Refusal::BadVersion);
    }
    Ok(())
}

// The job with the parents of its records; the rest of them is still empty. `Sized` is asked of the bytes by each function of the reader: a
// type of such bytes would be made in `read` alone and be no plainer.
fn read_parents(s: &[u8], mut job: Job) -> Job
    requires { Sized s.now × (job ≡ empty_job s.now) }
    ensures { result ≡ struct_of (parents_of s.now) (frame_count s.now) }
{
    for i in 1..job.nodes {
        job.parent[i] = base::number::<1>(s, record_place(i)) as usize;
    }
    job
}

// Node i as its record has it, or its refusal.
fn read_node(s: &[u8], i: usize, leaf: bool) -> Result<Node, Refusal>
    requires { Sized s.now × ((0 < i) × (i < node_count s.now)) }
    ensures { Gives result (node_refusal i leaf (node_at s.now i)) (node_at s.now i) }
{
    let at = record_place(i);
    let parent = base::number::<1>(s, at);
    let delay = base::number::<2>(s, at + 1);
    let memory = base::number::<8>(s, at + 3);
    let rate = base::number::<8>(s, at + 11);
    Node::new(
        i,
        leaf,
        Node {
            parent: parent as usize,
            delay: delay as usize,
            memory,
            rate,
        },
    )
}

// The earlier in the table: of the refusal of the nodes before, if there is one, and that of the next node.
fn earlier(before: Option<Refusal>, next: Refusal) -> Refusal
    ensures { number result ≡ sooner (row_of before) (number next) }
{
    match before {
        Some(first) => first.min(next),
        None => next,
    }
}

// The job, which has its parents, with the rest of its records; or the first of rows 7 to 9, whichever node it is at.
fn read_nodes(s: &[u8], mut job: Job, inner: u64) -> Result<Job, Refusal>
    requires { Sized s.now × ((job ≡ struct_of (parents_of s.now) (frame_count s.now))
        × InnerNodes (tree_of s.now) inner) }
    ensures { Gives result (nodes_refusal (tree_of s.now)) (full_job s.now) }
{
    let mut refused: Option<Refusal> = None;
    for i in 1..job.nodes {
        match read_node(s, i, !base::member(inner, i)) {
            Ok(node) => {
                job.delay[i] = node.delay;
                job.memory[i] = node.memory;
                job.rate[i] = node.rate;
            }
            Err(row) => {
                refused = Some(earlier(refused, row));
            }
        }
    }
    match refused {
        Some(row) => Err(row),
        None => Ok(job),
    }
}

// So many frames are looked at before it is asked whether one of them was wrong: the compiler puts no loop into vectors that asks at each,
// and that takes half as long again where none is.
const STRETCH: usize = 256;

// Whether some frame before `to` is too large, where none before m is.
fn frame_wrong_before(s: &[u8], nodes: usize, m: usize, to: usize) -> bool
    requires sized { Sized s.now × (nodes ≡ node_count s.now) }
    requires frames { (m ≤ to) × (to ≤ frame_count s.now) }
    requires before { some (λ m. frame_wrong (frame_at s.now m)) m ≡ false }
    ensures { result ≡ some (λ m. frame_wrong (frame_at s.now m)) to }
{
    let at = record_place(nodes);
    let mut wrong = false;
    for i in m..to {
        wrong |= Frame::new(base::number::<4>(s, at + Frame::WIDTH * i)).is_err();
    }
    wrong
}

// Whether some frame is too large.
fn some_frame_wrong(s: &[u8], nodes: usize, frames: usize) -> bool
    requires { Sized s.now × ((nodes ≡ node_count s.now) × (frames ≡ frame_count s.now)) }
    ensures { result ≡ some (λ m. frame_wrong (frame_at s.now m)) (frame_count s.now) }
{
    for m in (0..frames).step_by(STRETCH) {
        if frame_wrong_before(s, nodes, m, (m + STRETCH).min(frames)) {
            return true;
        }
    }
    false
}

// Rows 7 to 10, of a job whose counts and length are right.
fn read_rest(s: &[u8], job: Job) -> Result<Job, Refusal>
    requires { Sized s.now × (job ≡ empty_job s.now) }
    ensures { Gives result (rest_refusal s.now) (full_job s.now) }
{
    let job = read_parents(s, job);
    let full = read_nodes(s, job, job.inner_nodes())?;
    if some_frame_wrong(s, job.nodes, job.frames) {
        return Err(Refusal::LargeFrame);
    }
    Ok(full)
}

// The job that any bytes say, or their refusal.
pub fn read(s: &[u8]) -> Result<Job, Refusal>
    ensures { Reads result s.now }
{
    check_head(s)?;
    let nodes = base::number::<1>(s, 5);
    let frames = base::number::<4>(s, 6);
    let job = Job::new(nodes as usize, frames as usize)?;
    if s.len() != record_place(job.nodes) + Frame::WIDTH * job.frames {
        return Err(Refusal::BadLength);
    }
    read_rest(s, job)
}

// What the lengths of outputs follow from: n, M, H and the plan's length.
#[derive(Clone, Copy)]
pub struct Sizes {
    pub nodes: usize,
    pub frames: usize,
    pub last_slot: usize,
    pub plan_length: usize,
}

impl Sizes {
    // The sizes of the job that any bytes say, or their refusal.
    pub fn read(s: &[u8]) -> Result<Sizes, Refusal>
        ensures { Gives result (refusal s.now) (sizes_of (job_of s.now)) }
    {
        let job = read(s)?;
        Ok(Sizes {
            nodes: job.nodes,
            frames: job.frames,
            last_slot: job.last_slot(),
            plan_length: job.plan_length(),
        })
    }
}

// Rooms for the sums of a film, cleared. To clear the longest takes longer than the answer to a short film, so there are shorter ones.
pub const TINY_ROOM: usize = 1_024;

pub const SHORT_ROOM: usize = 4_097;

pub const MIDDLE_ROOM: usize = 16_385;

pub const LONG_ROOM: usize = Job::MOST_FRAMES + 1;

pub fn room<const N: usize>() -> [u64; N]
    ensures { length result ≡ N }
{
    [0u64; N]
}

// T(0) to T(M) of a film within the limits.
#[derive(Clone, Copy)]
pub struct Sums<'a> {
    pub t: &'a [u64],
    ghost film: { FilmSums t.now },
}

impl<'a> Sums<'a> {
    // T(M).
    pub fn total(&self) -> u64
        ensures { result ≡ last_in self.now.t.now }
    {
        self.t[self.t.len() - 1]
    }
}

// A job within the limits, with the sums of its film.
#[derive(Clone, Copy)]
pub struct Film<'a> {
    pub job: &'a Job,
    pub sums: Sums<'a>,
    ghost with_sums: { WithSums job.now sums.t.now },
}

// Bytes that are accepted, with the job that they say.
#[derive(Clone, Copy)]
pub struct Checked<'a> {
    pub bytes: &'a [u8],
    pub job: &'a Job,
    ghost accepted: { Accepted bytes.now job.now },
}

impl<'a> Checked<'a> {
    // T(0) to T(M) of the job's film, in a room that has place for them: the part of it that has them.
    pub fn sums<'b>(self, room: &'b mut [u64]) -> &'b mut [u64]
        requires { self.job.now.frames < length room.old }
        ensures { result.now ≡ sums_of self.entry.bytes.now }
    {
        let count = self.job.frames + 1;
        write_sums(self.bytes, &mut room[..count]);
        &mut room[..count]
    }

    // The job's film, its sums in a room that has place for them.
    pub fn film(self, room: &'a mut [u64]) -> Film<'a>
        requires { self.job.now.frames < length room.old }
        ensures sums { result.sums.t.now ≡ sums_of self.entry.bytes.now }
        ensures job { result.job.now ≡ self.entry.job.now }
    {
        let sums = Sums { t: self.sums(room) };
        Film {
            job: self.job,
            sums,
        }
    }
}

// T(0) to T(M) of an accepted job, one after the other; by m, as a frame's place in the bytes follows from it.
fn write_sums(s: &[u8], out: &mut [u64])
    requires { (refusal s.now ≡ 0) × (length out.old ≡ frame_count s.now + 1) }
    ensures { out.new ≡ sums_of s.now }
{
    let nodes = base::number::<1>(s, 5);
    let at = record_place(nodes as usize);
    let mut total = 0;
    out[0] = 0;
    for m in 0..out.len() - 1 {
        total += base::number::<4>(s, at + Frame::WIDTH * m);
        out[m + 1] = total;
    }
}

// Every bound at once. Each is the constant of its type, and the number that specs/Limits has; so is the length of each room, which
// specs/Sums has.
#[derive(Clone, Copy)]
pub struct Limits {
    pub fewest_nodes: usize,
    pub most_nodes: usize,
    pub fewest_frames: usize,
    pub most_frames: usize,
    pub longest_delay: usize,
    pub greatest_memory: u64,
    pub greatest_rate: u64,
    pub greatest_frame: u64,
}

impl Limits {
    pub fn all() -> Limits
        ensures bounds { result ≡ limits }
        ensures fewest_nodes { Job.FEWEST_NODES ≡ limit.fewest_nodes }
        ensures most_nodes { Job.MOST_NODES ≡ limit.most_nodes }
        ensures fewest_frames { Job.FEWEST_FRAMES ≡ limit.fewest_frames }
        ensures most_frames { Job.MOST_FRAMES ≡ limit.most_frames }
        ensures longest_delay { Node.LONGEST_DELAY ≡ limit.longest_delay }
        ensures greatest_memory { Node.GREATEST_MEMORY ≡ limit.greatest_memory }
        ensures greatest_rate { Node.GREATEST_RATE ≡ limit.greatest_rate }
        ensures greatest_frame { Frame.GREATEST ≡ limit.greatest_frame }
        ensures tiny_room { TINY_ROOM ≡ sums.tiny_room }
        ensures short_room { SHORT_ROOM ≡ sums.short_room }
        ensures middle_room { MIDDLE_ROOM ≡ sums.middle_room }
        ensures long_room { LONG_ROOM ≡ sums.long_room }
    {
        Limits {
            fewest_nodes: Job::FEWEST_NODES,
            most_nodes: Job::MOST_NODES,
            fewest_frames: Job::FEWEST_FRAMES,
            most_frames: Job::MOST_FRAMES,
            longest_delay: Node::LONGEST_DELAY,
            greatest_memory: Node::GREATEST_MEMORY,
            greatest_rate: Node::GREATEST_RATE,
            greatest_frame: Frame::GREATEST,
        }
    }
}
