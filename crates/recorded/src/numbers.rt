// Numbers out of the file's bytes, low byte first; 0 where they pass the end.
ghost use Rattle.std.specs.Prelude.{◌<◌, ◌≤◌};

// The bytes from a place on; zeros where they pass the end.
fn bytes_at<const N: usize>(bytes: &[u8], at: usize) -> [u8; N] {
    let Some(rest) = bytes.get(at..) else {
        return [0; N];
    };
    match rest.first_chunk() {
        Some(chunk) => *chunk,
        None => [0; N],
    }
}

pub fn four_at(bytes: &[u8], at: usize) -> u64
    ensures { result < 4294967296 }
{
    u64::from(u32::from_le_bytes(bytes_at(bytes, at)))
}

pub fn eight_at(bytes: &[u8], at: usize) -> u64 {
    u64::from_le_bytes(bytes_at(bytes, at))
}

// A length, and no more than there is room for: a case that asks for more gets the room, and differs.
pub fn within(room: usize, n: usize) -> usize
    ensures { result ≤ room }
{
    n.min(room)
}
