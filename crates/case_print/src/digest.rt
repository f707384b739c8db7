// The 64-bit FNV-1a hash of bytes.

const START: u64 = 14695981039346656037;

const PRIME: u64 = 1099511628211;

fn with_byte(hash: u64, byte: u8) -> u64 {
    (hash ^ u64::from(byte)).wrapping_mul(PRIME)
}

pub fn of(s: &[u8]) -> u64 {
    s.iter().fold(START, |hash, byte| with_byte(hash, *byte))
}

// Of the first n bytes, of which those past the end are 0.
pub fn of_first(s: &[u8], n: usize) -> u64 {
    (0..n).fold(
        START,
        |hash, i| with_byte(hash, s.get(i).copied().unwrap_or(0)),
    )
}
