// The note that a test program gives to a lift: made from a number of it, so that a row tells whose note it has and the list keeps
// none.
use std::array;

pub fn note_of(number: u64) -> [u8; 20] {
    array::from_fn(|j| ((number >> (j % 20)) % 251) as u8)
}
