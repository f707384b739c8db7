// The counts in a lent area of 88 bytes, read and changed where they stand (document 02, W-214: "4 each").
ghost use Rattle.std.specs.Prelude.{◌≡◌, ◌≤◌, length};
ghost use Rattle.plate.specs.Total.{total};
ghost use Rattle.counts.specs.Counts.{counts_most, counts_broken, one_more};
ghost use Rattle.counts.specs.CountsBytes.{counts_length, counts_bytes, counts_in};

use plate::PLATES;

const COUNT_BYTES: usize = 4;

pub const COUNTS_BYTES: usize = COUNT_BYTES * PLATES;

// Ground 3 of the counts.
pub fn are_broken(b: &[u8]) -> bool
    requires { length b.now ≡ counts_length }
    ensures { result ≡ counts_broken (counts_in b.now) }
{
    crate::are_broken(get_counts(b))
}

// A lift more, by its stored load: where the count stands, since all 22 would be copied there and back for each lift.
pub fn one_more(b: &mut [u8], code: u32)
    requires { (length b.old ≡ counts_length) × (total (counts_in b.old) ≤ counts_most) }
    ensures { b.new ≡ counts_bytes (one_more (counts_in b.old) code) }
{
    let at = COUNT_BYTES * (plate::plate_of_code(code) as usize);
    let n = codec::get_u32(b, at);
    codec::put_u32(b, at, n + 1);
}

pub fn get_counts(b: &[u8]) -> [u32; PLATES]
    requires { length b.now ≡ counts_length }
    ensures { result ≡ counts_in b.now }
{
    let mut counts = [0u32; PLATES];
    for (i, n) in counts.iter_mut().enumerate() {
        *n = codec::get_u32(b, COUNT_BYTES * i);
    }
    counts
}

pub fn put_counts(b: &mut [u8], counts: [u32; PLATES])
    requires { length b.old ≡ counts_length }
    ensures { b.new ≡ counts_bytes counts }
{
    for (i, n) in counts.iter().enumerate() {
        codec::put_u32(b, COUNT_BYTES * i, *n);
    }
}
