// A list's digest: it starts at 0 and takes in number after number (README.md).
const PRIME: u64 = 4294967291;

// Both are reduced first, so that no sum here is too large.
fn take_in(h: u64, x: u64) -> u64 {
    (h % PRIME * 65599 + x % PRIME + 1) % PRIME
}

// The digest of numbers of 64 bits, or of bytes.
pub fn of_numbers<T: Copy>(numbers: &[T]) -> u64
where
    u64: From<T>,
{
    let mut h = 0;
    for n in numbers {
        h = take_in(h, u64::from(*n));
    }
    h
}
