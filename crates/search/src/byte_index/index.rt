// The index of an image's bytes.
ghost use Rattle.search.specs.byte_index.Index.{Ready, Indexed};

use std::num::wrapping_add_u32;

// Links each place of the image to the next place with the same byte, going from the back to the front. `first` has the
// first place of each byte value, and 256 further on how often the image has it. A count only steers the choice of an
// anchor, so that the contract says nothing of it.
pub fn index(image: &[u8], first: &mut [u32], next: &mut [u32])
    requires { Ready image.now first.old next.old }
    ensures { Indexed image.now first.new next.new }
{
    for i in (0..image.len()).rev() {
        let byte = image[i] as usize;
        next[i] = first[byte];
        first[byte] = (i + 1) as u32;
        first[256 + byte] = wrapping_add_u32(first[256 + byte], 1);
    }
}
