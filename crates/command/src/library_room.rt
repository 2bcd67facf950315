// The library, as far as a program takes it: a run takes longer ones.

// No longer library is taken.
const LONGEST: usize = 65536;

// No depth is greater.
const DEEPEST: u64 = 4;

// Whether a run looks at the library: not if the edition is none, the depth too great, or the image refused for itself.
fn is_next(is_image_accepted: bool, edition: u64, depth: u64) -> bool {
    matches!(edition, 1 | 2) && depth <= DEEPEST && is_image_accepted
}

// Whether a library is refused because it is too long for the program. That is said in its place in the order: behind an edition that is none, a depth that is
// too great and an image that is refused for itself, before a stretch that passes the image's end.
pub fn is_refused(library: &[u8], is_image_accepted: bool, edition: u64, depth: u64) -> bool {
    LONGEST < library.len() && is_next(is_image_accepted, edition, depth)
}

// As much of a library as the program takes; of one that is too long the run sees no more, and does not look at it. So the compiler leaves the tables for longer
// libraries, which are never needed, off the stack.
pub fn taken(library: &[u8]) -> &[u8] {
    library.get(..LONGEST).unwrap_or(library)
}
