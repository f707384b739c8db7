// The matches of one segment: a set of 320 bits, emptied from the lowest bit up.
#![tactic(auto)]

ghost use Rattle.std.specs.Prelude.{◌≡◌, true, false, ℕ, [], ◌∷◌, ◌+◌, ◌-◌, ◌^◌, ◌<◌, ◌≤◌, ◌↔◌, IsTrue, length, slice_index, slice_set, MatchOption, IfSome};
ghost use Rattle.std.specs.Int.Count.{count_trailing_zeros};
ghost use Rattle.std.specs.Int.Count as Count;
ghost use Rattle.bitset.specs.Inner.Words.{has, empty_words, insert_in, without, members};
ghost use Rattle.bitset.specs.Inner.Emptying.{next_of, IsFirst};

// Places 0 to 319: place p is bit p mod 64 of word p div 64.
#[derive(Clone, Copy)]
pub struct Bits {
    pub words: [u64; 5],
}

// The places that a set has left to give, from the lowest up.
#[derive(Clone, Copy, Drop)]
pub struct Places {
    pub left: Bits,
}

// 2 to the k.
pub fn power(k: usize) -> u64
    requires { k < 64 }
    ensures { result ≡ 2 ^ k }
{
    1u64 << k
}

// The lowest set bit's place.
pub fn lowest(x: u64) -> usize
    requires { 0 < x }
    ensures { (result ≡ count_trailing_zeros 64 x) × (result < 64) × (2 ^ result ≤ x) }
{
    x.trailing_zeros() as usize
}

// How many bits are set.
pub fn ones(x: u64) -> u32
    ensures { (result ≡ Count.ones x) × (result ≤ 64) }
{
    x.count_ones()
}

// The word without its lowest bit.
pub fn without_lowest(x: u64) -> u64
    requires { 0 < x }
    ensures { result ≡ x - 2 ^ count_trailing_zeros 64 x }
{
    let k = lowest(x);
    x - power(k)
}

// The word as `change` makes it, where it is its turn. A function of its own, and closures that own what they use (`move`): each word then
// comes to a choice of two values, and not to a jump, which a search would pay for at each match.
fn changed<F: Fn(u64) -> u64>(x: u64, here: bool, change: &F) -> u64
    requires { here ≡ true → F.pre change.now x }
    ensures own { here ≡ true → F.post change.now x result }
    ensures other { here ≡ false → result ≡ x }
{
    if here { change(x) } else { x }
}

// The place of the lowest bit of x, a word whose places begin at `from`, and the words without it.
fn found_at(words: [u64; 5], x: u64, from: usize) -> (usize, Bits)
    requires { (0 < x) × (from ≤ 256) }
    ensures { (result.0 ≡ from + count_trailing_zeros 64 x) × (result.0 < 320) × (result.1.words ≡ words) }
{
    (from + lowest(x), Bits { words })
}

impl Bits {
    pub fn empty() -> Bits
        ensures { result.words ≡ empty_words }
    {
        Bits { words: [0; 5] }
    }

    // The set with word i as `change` makes it.
    fn with_word<F: Fn(u64) -> u64>(self, i: usize, change: F) -> Bits
        requires place { i < 5 }
        requires can { F.pre change (slice_index self.words i) }
        ensures { (x : ℕ) × F.post change (slice_index self.words i) x × (result.words ≡ slice_set self.words i x) }
    {
        let w = self.words;
        // A constant place for each word: a computed one would keep the words in memory.
        let a = changed(w[0], i == 0, &change);
        let b = changed(w[1], i == 1, &change);
        let c = changed(w[2], i == 2, &change);
        let d = changed(w[3], i == 3, &change);
        let e = changed(w[4], i == 4, &change);
        Bits {
            words: [a, b, c, d, e],
        }
    }

    pub fn insert(self, p: usize) -> Bits
        requires { p < 320 }
        ensures { result.words ≡ insert_in self.words p }
    {
        let bits = power(p % 64);
        self.with_word(p / 64, move |x| x | bits)
    }

    // The set without a place of it.
    pub fn remove(self, p: usize) -> Bits
        requires { (p < 320) × (has self.words p ≡ true) }
        ensures { result.words ≡ without self.words p }
    {
        let bits = power(p % 64);
        self.with_word(p / 64, move |x| x - bits)
    }

    pub fn count(self) -> u32
        ensures { (result ≡ length (members self.words)) × (result ≤ 320) }
    {
        let w = self.words;
        ones(w[0]) + ones(w[1]) + ones(w[2]) + ones(w[3]) + ones(w[4])
    }

    pub fn is_empty(self) -> bool
        ensures { IsTrue result ↔ members self.words ≡ [] }
    {
        self.split_first().is_none()
    }

    // The lowest place, and the set without it.
    pub fn split_first(self) -> Option<(usize, Bits)>
        ensures { (result ≡ next_of self) × IsFirst self result }
    {
        let [a, b, c, d, e] = self.words;
        if 0 < a {
            return Some(found_at([without_lowest(a), b, c, d, e], a, 0));
        }
        if 0 < b {
            return Some(found_at([a, without_lowest(b), c, d, e], b, 64));
        }
        if 0 < c {
            return Some(found_at([a, b, without_lowest(c), d, e], c, 128));
        }
        if 0 < d {
            return Some(found_at([a, b, c, without_lowest(d), e], d, 192));
        }
        if 0 < e {
            return Some(found_at([a, b, c, d, without_lowest(e)], e, 256));
        }
        None
    }

    pub fn places(self) -> Places
        ensures { result.left ≡ self }
    {
        Places { left: self }
    }
}

impl Iterator for Places {
    ghost use Rattle.std.specs.Iterator.{YieldsFirst, item_count};
    ghost use Rattle.bitset.specs.Inner.Emptying.{places_left};

    type Item = usize;

    ghost next_gives = { YieldsFirst places_left };

    ghost remaining = { item_count places_left };

    fn next(&mut self) -> Option<usize> {
        let (place, others) = self.left.split_first()?;
        self.left = others;
        Some(place)
    }
}
