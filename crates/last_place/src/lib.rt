// The matches of one segment (`bitset`), emptied from the highest place down: for what is written from its end backwards.
#![tactic(auto)]

ghost use Rattle.std.specs.Prelude.{◌≡◌, ◌+◌, ◌*◌, ◌^◌, ◌≤◌, ◌<◌};
ghost use Rattle.last_place.specs.Inner.Last.{IsLast};

use bitset::Bits;

// The places that a set has left to give, from the highest down.
#[derive(Clone, Copy, Drop)]
pub struct PlacesDown {
    pub left: Bits,
}

// The highest set bit's place.
fn highest(x: u64) -> usize
    requires { 0 < x }
    ensures { (result < 64) × (2 ^ result ≤ x) × (x < 2 * 2 ^ result) }
{
    63 - x.leading_zeros() as usize
}

// The place of bit k of a word whose places begin at `from`, and the words without it.
fn found_at(words: [u64; 5], from: usize, k: usize) -> (usize, Bits)
    requires { (from ≤ 256) × (k < 64) }
    ensures { (result.0 ≡ from + k) × (result.1.words ≡ words) }
{
    (from + k, Bits { words })
}

// The highest place, and the set without it.
pub fn last(set: Bits) -> Option<(usize, Bits)>
    ensures { IsLast set result }
{
    let [a, b, c, d, e] = set.words;
    if 0 < e {
        let k = highest(e);
        return Some(found_at([a, b, c, d, e - bitset::power(k)], 256, k));
    }
    if 0 < d {
        let k = highest(d);
        return Some(found_at([a, b, c, d - bitset::power(k), e], 192, k));
    }
    if 0 < c {
        let k = highest(c);
        return Some(found_at([a, b, c - bitset::power(k), d, e], 128, k));
    }
    if 0 < b {
        let k = highest(b);
        return Some(found_at([a, b - bitset::power(k), c, d, e], 64, k));
    }
    if 0 < a {
        let k = highest(a);
        return Some(found_at([a - bitset::power(k), b, c, d, e], 0, k));
    }
    None
}

// The places of a set from the highest down.
pub fn places_down(set: Bits) -> PlacesDown
    ensures { result.left ≡ set }
{
    PlacesDown { left: set }
}

impl Iterator for PlacesDown {
    ghost use Rattle.std.specs.Iterator.{YieldsLast, item_count};
    ghost use Rattle.last_place.specs.Inner.Last.{places_below};

    type Item = usize;

    ghost next_gives = { YieldsLast places_below };

    ghost remaining = { item_count places_below };

    fn next(&mut self) -> Option<usize> {
        let (place, others) = last(self.left)?;
        self.left = others;
        Some(place)
    }
}
