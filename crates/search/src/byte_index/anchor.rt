// The anchor of a pattern: the byte by whose links in the image its matches are found.
ghost use Rattle.std.specs.Prelude.{◌≤◌, length};
ghost use Rattle.search.specs.byte_index.Anchor.{Anchored};

// The place of the anchor in a pattern: the rarest in the image among the bytes that have the mask FFh and stand in the
// image fewer than `most` times. `first` has the count of a byte 256 behind its first place. A byte that the image has
// fewer than 4 times ends the choice, and so does one that it has no more often than bytes were looked at.
pub fn anchor(bytes: &[u8], masks: &[u8], first: &[u32], most: usize) -> Option<usize>
    requires { 512 ≤ length first.now }
    ensures { Anchored bytes.now masks.now result }
{
    let n = bytes.len().min(masks.len());
    let mut rarest = most;
    let mut place = n;
    let mut end = n.min(most);
    let mut i = 0;
    // The end moves on the way, so that this is no walk over a range.
    while i < end {
        if masks[i] == 255 {
            let count = first[256 + bytes[i] as usize] as usize;
            if count < rarest {
                if count < 4 {
                    return Some(i);
                }
                rarest = count;
                place = i;
                end = end.min(count);
            }
        }
        i += 1;
    }
    (place < n).then_some(place)
}
