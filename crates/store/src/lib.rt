// A byte store over one lent slice: bytes are appended once, each child takes them in stream order at its own pace, and a byte's space
// is free once the last child has taken it. A store is numbers only, changed in place. It knows no job.
// Definitions to believe: specs/Store, and specs/Run for calls in a row.
#![tactic(auto)]

ghost use Rattle.std.specs.Prelude.{◌≡◌, ℕ, ◌+◌, ◌^◌, ◌≤◌, ◌<◌, ltb, length, get_or};
ghost use Rattle.std.specs.List.{list_any};
ghost use Rattle.std.specs.Result.{result_unwrap_or};
ghost use Rattle.base.specs.Range.{some};
ghost use Rattle.base.specs.Table.{tab};
ghost use Rattle.store.specs.Store.{onward, back, written, number, number_of};
ghost use Rattle.store.specs.Store.{most_children, count_wrong, place_wrong, impossible, unfit};
ghost use Rattle.store.specs.Store.{append_number, take_number, Starts, Appends, Takes};

// The slice's length at the start, the child count, the place where the next byte is written, and how many bytes wait for each child: C's
// struct, of a fixed size, with the slice lent to each call.
#[repr(C)]
#[derive(Clone, Copy)]
pub struct Store {
    pub length: usize,
    pub children: usize,
    pub place: usize,
    pub waiting: [usize; Store::MOST_CHILDREN],
}

// Why a call changes nothing.
#[derive(Clone, Copy, Debug, PartialEq, Eq)]
pub enum Refusal {
    BadStore,
    NoSpace,
    NotWaiting,
}

// Document 02's numbers.
impl From<Refusal> for u64 {
    ghost from_gives = { λ e n. n ≡ number e };

    fn from(refusal: Refusal) -> u64 {
        match refusal {
            Refusal::BadStore => 17,
            Refusal::NoSpace => 18,
            Refusal::NotWaiting => 19,
        }
    }
}

// Whether one of these counts is above `most`.
fn some_above(counts: &[usize], most: usize) -> bool
    ensures { result ≡ list_any (ltb most) counts.now }
{
    counts.iter().any(|&count| most < count)
}

// Each count n higher.
fn raise(counts: &mut [usize], n: usize)
    requires { (c : ℕ) → c < length counts.old → get_or counts.old c 0 + n < 2 ^ 64 }
    ensures { counts.new ≡ tab (λ c. get_or counts.old c 0 + n) (length counts.old) }
{
    for count in counts.iter_mut() {
        *count += n;
    }
}

// Writes bytes from a place of the slice on, in two stretches: up to the slice's end, and from its start.
fn write_round(place: usize, slice: &mut [u8], bytes: &[u8])
    requires { (place ≤ length slice.old) × (length bytes.now ≤ length slice.old) }
    ensures { slice.new ≡ written place slice.old bytes.now }
{
    let n = bytes.len();
    let first = n.min(slice.len() - place);
    base::copy(&bytes[..first], &mut slice[place..place + first]);
    base::copy(&bytes[first..], &mut slice[..n - first]);
}

// Reads the bytes from a place of the slice on into all of `out`, in two stretches.
fn read_round(place: usize, slice: &[u8], out: &mut [u8])
    requires { (place ≤ length slice.now) × (length out.old ≤ length slice.now) }
    ensures { out.new
        ≡ tab (λ i. get_or slice.now (onward (length slice.now) place i) 0) (length out.old) }
{
    let n = out.len();
    let first = n.min(slice.len() - place);
    base::copy(&slice[place..place + first], &mut out[..first]);
    base::copy(&slice[..n - first], &mut out[first..]);
}

impl Store {
    pub const MOST_CHILDREN: usize = 63;

    // A store for a slice of this length and so many children, with nothing appended.
    pub fn new(length: usize, children: usize) -> Result<Store, Refusal>
        ensures { (before : Store)
            → Starts before length children (number_of result) (result_unwrap_or result before) }
    {
        if Store::MOST_CHILDREN < children {
            return Err(Refusal::BadStore);
        }
        Ok(Store {
            length,
            children,
            place: 0,
            waiting: [0; Store::MOST_CHILDREN],
        })
    }

    // Appends bytes to the stream where they fit into the space that is free.
    pub fn append(&mut self, slice: &mut [u8], bytes: &[u8]) -> Result<(), Refusal>
        ensures { Appends self.old slice.old bytes.now (number_of result) self.new slice.new }
    {
        self.check_append(slice.len(), bytes.len())?;
        write_round(self.place, slice, bytes);
        self.place = self.onward(bytes.len());
        raise(&mut self.waiting[..self.children], bytes.len());
        Ok(())
    }

    // Gives a child the next bytes of the stream, as many as `out` is long, where so many wait for it.
    pub fn take(&mut self, slice: &[u8], child: usize, out: &mut [u8]) -> Result<(), Refusal>
        ensures { Takes self.old slice.now child out.old (number_of result) self.new out.new }
    {
        self.check_take(slice.len(), child, out.len())?;
        let waits = self.waiting[child];
        let left = waits - out.len();
        read_round(self.back(waits), slice, out);
        self.waiting[child] = left;
        Ok(())
    }

    // Whether the place isn't 0, and there is no child to append for or it isn't a place of the slice.
    fn place_wrong(&self) -> bool
        ensures { result ≡ place_wrong self.now.length self.now.children self.now.place }
    {
        self.place != 0 && (self.children == 0 || self.length <= self.place)
    }

    // Whether more waits for a child than the slice holds, or something for one that the store hasn't got.
    fn counts_wrong(&self) -> bool
        requires { self.now.children ≤ most_children }
        ensures { result ≡ some (count_wrong self.now) most_children }
    {
        some_above(&self.waiting[..self.children], self.length)
            || some_above(&self.waiting[self.children..], 0)
    }

    // Whether no calls could leave this store.
    #[tactic(auto, unfolding(crate::specs::Store::impossible))]
    fn impossible(&self) -> bool
        ensures { result ≡ impossible self.now }
    {
        if Store::MOST_CHILDREN < self.children {
            return true;
        }
        self.place_wrong() || self.counts_wrong()
    }

    // Whether the slice is not as long as at the start, or no calls could leave this store.
    #[tactic(auto, unfolding(crate::specs::Store::unfit))]
    fn unfit(&self, long: usize) -> bool
        ensures { result ≡ unfit self.now long }
    {
        long != self.length || self.impossible()
    }

    // The first refusal of an append of n bytes with a slice of this length.
    #[tactic(auto, using(crate::proofs::StoreLaws::few_children))]
    fn check_append(&self, long: usize, n: usize) -> Result<(), Refusal>
        ensures { number_of result ≡ append_number self.now long n }
    {
        if self.unfit(long) || self.children == 0 {
            return Err(Refusal::BadStore);
        }
        if self.length < n || some_above(&self.waiting[..self.children], self.length - n) {
            return Err(Refusal::NoSpace);
        }
        Ok(())
    }

    // The first refusal of a take of n bytes by a child.
    #[tactic(auto, using(crate::proofs::StoreLaws::few_children))]
    fn check_take(&self, long: usize, child: usize, n: usize) -> Result<(), Refusal>
        ensures { number_of result ≡ take_number self.now long child n }
    {
        if self.unfit(long) || self.children <= child {
            return Err(Refusal::BadStore);
        }
        if self.waiting[child] < n {
            return Err(Refusal::NotWaiting);
        }
        Ok(())
    }

    // The place n after the next byte's, round the end; no sum is made that could wrap.
    fn onward(&self, n: usize) -> usize
        requires { (self.now.place ≤ self.now.length) × (n ≤ self.now.length) }
        ensures { result ≡ onward self.now.length self.now.place n }
    {
        let room = self.length - self.place;
        if n < room { self.place + n } else { n - room }
    }

    // The place n before it.
    fn back(&self, n: usize) -> usize
        requires { (self.now.place ≤ self.now.length) × (n ≤ self.now.length) }
        ensures { result ≡ back self.now.length self.now.place n }
    {
        if self.place < n {
            self.length - (n - self.place)
        } else {
            self.place - n
        }
    }
}
