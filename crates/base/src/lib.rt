// What every crate above leans on: numbers in bytes, sets of numbers as 64-bit words and their members, copies, tables (specs/ alone). It
// knows no job.
#![tactic(auto)]

ghost use Rattle.std.specs.Prelude.{cond, not, ◌&&◌, ◌||◌, ◌≡◌, ℕ, ◌+◌, ◌-◌, ◌^◌, ◌≤◌, ◌<◌, eqb, ltb, length};
ghost use Rattle.std.specs.Iterator.{YieldsFirst, item_count};
ghost use Rattle.base.specs.Number.{number};
ghost use Rattle.base.specs.Range.{how_many, first};
ghost use Rattle.base.specs.Set.{has, word_bits};
ghost use Rattle.base.specs.Walk.{walk_left};

// How many numbers a word has room for, as a set.
pub const WORD_BITS: usize = 64;

// The first where the test passes, else the second: a choice that needs no branch.
pub fn select<T: Copy>(test: bool, first: T, second: T) -> T
    ensures { result ≡ cond test first second }
{
    if test { first } else { second }
}

// The first list onto the second. A loop, as `copy_from_slice` calls memmove, and the C library asks for memcpy and memset alone.
pub fn copy<T: Copy>(from: &[T], to: &mut [T])
    requires { length from.now ≡ length to.old }
    ensures { to.new ≡ from.now }
{
    for (i, x) in to.iter_mut().enumerate() {
        *x = from[i];
    }
}

// The big-endian number in `width` bytes. By hand: fields are 1, 2, 3, 4 and 8 bytes wide, and `from_be_bytes` has one width for each type.
pub fn number_at(s: &[u8], place: usize, width: usize) -> u64
    requires { (width ≤ 8) × (place + width ≤ length s.now) }
    ensures { (result ≡ number s.now place width) × (result < 256 ^ width) }
{
    let mut r = 0;
    for i in 0..width {
        r = r * 256 + u64::from(s[place + i]);
    }
    r
}

// The same of a width that is known beforehand: the loop is unrolled.
pub fn number<const WIDTH: usize>(s: &[u8], place: usize) -> u64
    requires { (WIDTH ≤ 8) × (place + WIDTH ≤ length s.now) }
    ensures { (result ≡ number s.now place WIDTH) × (result < 256 ^ WIDTH) }
{
    number_at(s, place, WIDTH)
}

// Whether i is in the set s.
pub fn member(s: u64, i: usize) -> bool
    ensures { result ≡ has s i }
{
    if i < WORD_BITS {
        return (s >> i) % 2 == 1;
    }
    false
}

// The set s with i, where a word has room for i.
pub fn with(s: u64, i: usize) -> u64
    ensures { (j : ℕ) → has result j ≡ (has s j || (eqb j i && ltb j word_bits)) }
{
    if i < WORD_BITS {
        return s | (1u64 << i);
    }
    s
}

// What two sets share.
pub fn common(a: u64, b: u64) -> u64
    ensures { (j : ℕ) → has result j ≡ (has a j && has b j) }
{
    a & b
}

// What is in a and not in b.
pub fn outside(a: u64, b: u64) -> u64
    ensures { (j : ℕ) → has result j ≡ (has a j && not (has b j)) }
{
    (a | b) ^ b
}

// How many members s has.
pub fn count(s: u64) -> usize
    ensures { result ≡ how_many (has s) word_bits }
{
    u64::count_ones(s) as usize
}

// The lowest member of s; 64 where s is empty.
pub fn lowest(s: u64) -> usize
    ensures { result ≡ first (has s) word_bits }
{
    u64::trailing_zeros(s) as usize
}

// The set s without its lowest member, by which a walk over s goes on: it is a smaller number, so the walk ends.
pub fn without_lowest(s: u64) -> u64
    ensures { ((j : ℕ) → has result j ≡ (has s j && not (eqb j (first (has s) word_bits)))) × (result ≤ s - 1) }
{
    if s == 0 {
        return 0;
    }
    s & (s - 1)
}

// The members of a set, from the lowest on.
#[derive(Clone, Copy, Debug)]
pub struct Walk {
    pub left: u64,
}

pub fn members(s: u64) -> Walk
    ensures { result.left ≡ s }
{
    Walk { left: s }
}

impl Iterator for Walk {
    type Item = usize;

    ghost next_gives = { YieldsFirst walk_left };

    ghost remaining = { item_count walk_left };

    fn next(&mut self) -> Option<usize> {
        if self.left == 0 {
            return None;
        }
        let next = lowest(self.left);
        self.left = without_lowest(self.left);
        Some(next)
    }
}
