// Where a masked pattern matches an image of which stretches are withheld. The code never builds a view: it reads plain
// bytes, and where a pattern stands it compares its window, the bytes under it, with the stretches. They are lent as
// pairs of numbers, a start and a length each.
#![tactic(auto)]

ghost use Rattle.std.specs.Prelude.{◌≡◌, ◌+◌, ◌<◌, ◌≤◌, length};
ghost use Rattle.image.specs.View.{stretches_in, view, pair_at};
ghost use Rattle.image.specs.Match.{matches_at, part_agrees, Reaches, Agreeing};
ghost use Rattle.image.specs.Window.{is_beside, is_apart};
ghost use Rattle.image.specs.Next.{next_match};

pub mod cover;
pub mod fixup;

// The length of the longest image that a run takes.
pub const LONGEST_IMAGE: usize = 65536;

// A stretch of the image that is withheld: `len` bytes from `start` on.
#[derive(Clone, Copy, Debug, PartialEq, Eq)]
pub struct Stretch {
    pub start: usize,
    pub len: usize,
}

// Where a pattern may stand: that of a kept segment anywhere, that of an absolute content only at its address.
#[derive(Clone, Copy, Debug, PartialEq, Eq)]
pub enum Seat {
    Anywhere,
    Only(usize),
}

// The stretch of a cover whose start is number i of the list.
fn stretch_at(s: &[u64], i: usize) -> Stretch
    requires { i + 1 < length s.now }
    ensures { result ≡ pair_at s.now i }
{
    Stretch {
        start: s[i] as usize,
        len: s[i + 1] as usize,
    }
}

// Whether the n bytes of the image from `at` on share no byte with a stretch. No sum is taken, so that none can wrap.
fn is_beside(s: Stretch, at: usize, n: usize) -> bool
    ensures { result ≡ is_beside s at n }
{
    let start = s.start;
    let len = s.len;
    if n == 0 || len == 0 {
        return true;
    }
    if at < start {
        return n <= start - at;
    }
    len <= at - start
}

// Whether they share no byte with any stretch of a cover: with none of its first, nor of the others. It calls itself and has
// no loop, since the compiler would put a loop into those of the search, which nearly always go over an image with no cover
// at all, and they would take more for it.
fn apart_from_all(s: &[u64], at: usize, n: usize) -> bool
    ensures { result ≡ is_apart (stretches_in s.now) at n }
{
    if s.len() < 2 {
        return true;
    }
    is_beside(stretch_at(s, 0), at, n) && apart_from_all(&s[2..], at, n)
}

// The same, where most covers have no stretch.
pub fn is_apart(s: &[u64], at: usize, n: usize) -> bool
    ensures { result ≡ is_apart (stretches_in s.now) at n }
{
    if s.len() < 2 {
        return true;
    }
    apart_from_all(s, at, n)
}

// Whether the first n bytes of a pattern agree with the image at a place, where the first `from` bytes are known to
// agree: the other bytes are compared one by one.
fn rest_agrees(image: &[u8], bytes: &[u8], masks: &[u8], at: usize, from: usize, n: usize) -> bool
    requires { Agreeing image.now bytes.now masks.now at n from × Reaches image.now bytes.now masks.now at n }
    ensures { result ≡ part_agrees image.now bytes.now masks.now at 0 n }
{
    for i in from..n {
        if (image[at + i] ^ bytes[i]) & masks[i] != 0 {
            return false;
        }
    }
    true
}

// Whether the 32 bytes of a pattern from byte i on agree with the image. No test stands between the 32 bytes, so that
// the compiler can compare many at once.
fn part_agrees(image: &[u8], bytes: &[u8], masks: &[u8], at: usize, i: usize) -> bool
    requires { Reaches image.now bytes.now masks.now at (i + 32) }
    ensures { result ≡ part_agrees image.now bytes.now masks.now at i 32 }
{
    let mut differ = 0;
    for j in 0..32 {
        differ |= (image[at + (i + j)] ^ bytes[i + j]) & masks[i + j];
    }
    differ == 0
}

// How many of the first n bytes of a pattern agree with the image, found by parts of 32: all n, or the bytes before the
// first part that does not agree. The last part overlaps the one before it where 32 does not divide n, so that this is no
// walk over a range.
fn parts_agreeing(image: &[u8], bytes: &[u8], masks: &[u8], at: usize, n: usize) -> usize
    requires { (32 ≤ n) × Reaches image.now bytes.now masks.now at n }
    ensures { Agreeing image.now bytes.now masks.now at n result }
{
    let last = n - 32;
    let mut i = 0;
    while i < n {
        i = i.min(last);
        if !part_agrees(image, bytes, masks, at, i) {
            return i;
        }
        i += 32;
    }
    i
}

// Whether a pattern matches the image at a place, with nothing withheld: all of it fits, and each byte
// agrees on all bits of its mask; a missing mask counts as 0. Most places differ within the first bytes, so
// that the first four are compared one by one.
pub fn stands_at(image: &[u8], bytes: &[u8], masks: &[u8], at: usize) -> bool
    ensures { result ≡ matches_at image.now bytes.now masks.now at }
{
    if image.len() < at || image.len() - at < bytes.len() {
        return false;
    }
    let n = bytes.len().min(masks.len());
    if n < 32 {
        return rest_agrees(image, bytes, masks, at, 0, n);
    }
    if !rest_agrees(image, bytes, masks, at, 0, 4) {
        return false;
    }
    let agreeing = parts_agreeing(image, bytes, masks, at, n);
    rest_agrees(image, bytes, masks, at, agreeing, n)
}

// Whether a pattern matches at a place of the image with a cover withheld: a window that shares a byte with the cover
// does not match. Nearly all places differ in their first bytes, so the stretches are asked last.
pub fn match_at(image: &[u8], s: &[u64], bytes: &[u8], masks: &[u8], at: usize) -> bool
    ensures { result ≡ matches_at (view image.now (stretches_in s.now)) bytes.now masks.now at }
{
    stands_at(image, bytes, masks, at) && is_apart(s, at, bytes.len())
}

// The first match of a pattern at or after the place `from`.
pub fn next_match(image: &[u8], s: &[u64], bytes: &[u8], masks: &[u8], from: usize) -> Option<usize>
    ensures { result ≡ next_match (view image.now (stretches_in s.now)) bytes.now masks.now from }
{
    let end = (image.len() + 1).saturating_sub(bytes.len());
    for at in from..end {
        if match_at(image, s, bytes, masks, at) {
            return Some(at);
        }
    }
    None
}
