// Merging into one segment's part of pattern memory. Bytes and masks are merged alike, so that one function serves both.
ghost use Rattle.std.specs.Prelude.{◌≡◌};
ghost use Rattle.segments.specs.Masks.{ored, merged};
ghost use Rattle.segment_parts.specs.merge.MergedAt.{merged_at};

// ORs new bytes into old bytes, so that each place has the bits of both and nothing is overwritten. Bytes past the end
// of the shorter of the two change nothing.
fn or_into(old: &mut [u8], new: &[u8])
    ensures { old.new ≡ ored old.old new.now }
{
    for i in 0..old.len().min(new.len()) {
        old[i] |= new[i];
    }
}

// ORs new bytes into a pattern from an offset on; an offset past the pattern's end changes nothing.
pub fn merge(pattern: &mut [u8], offset: usize, new: &[u8])
    ensures { pattern.new ≡ merged pattern.old offset new.now }
{
    if offset <= pattern.len() {
        or_into(&mut pattern[offset..], new);
    }
}

// Merges new bytes into one segment's pattern, the `size` bytes from `start` on in the memory of all segments,
// from an offset on. A pattern that passes the memory's end is not touched; no sum is taken before the pattern
// is known to fit, so that none can wrap.
pub fn merge_at(memory: &mut [u8], start: usize, size: usize, offset: usize, new: &[u8])
    ensures { memory.new ≡ merged_at memory.old start size offset new.now }
{
    if start <= memory.len() && size <= memory.len() - start {
        merge(&mut memory[start..start + size], offset, new);
    }
}
