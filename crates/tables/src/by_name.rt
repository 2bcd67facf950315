// Rows that have a key and a name, found by links. A row's first three numbers are its key and its name's place and length; its
// last number is the link to an earlier row in the same bucket of key and name. A link is one more than a row's number, or 0.
ghost use Rattle.std.specs.Prelude.{◌≡◌, ◌+◌, ◌-◌, ◌<◌, ◌&&◌, length, drop, ◌==◌};
ghost use Rattle.lent.specs.Parts.{bytes_of, same as same_bytes};
ghost use Rattle.tables.specs.by_name.Sheet.{spread as spread_bytes, ends, name_bucket};
ghost use Rattle.tables.specs.by_name.Heads.{head_at, low_head, head_set, heads_with};
ghost use Rattle.tables.specs.by_name.Tables.{followed};
ghost use Rattle.tables.specs.by_name.Tags.{Whole, tag_at, other_length, may_be, named_at, Stops};

use crate::links::number_at;
use lent::names;
use lent::part::Part;
use lent::rows::cell;
use std::num::wrapping_sub_usize;

// How many buckets of keys there are. In a table of heads as many buckets of key and name together follow them.
pub const KEYS: usize = 65536;

// The same number as 64 bits, for sums of keys and name bytes.
pub const BUCKETS: u64 = KEYS as u64;

// How many heads there are of both kinds: of the buckets of keys, and of those of key and name together.
pub const HEADS: usize = 2 * KEYS;

// The same with as many numbers behind the heads, for links of more than 31 bits.
pub const WIDE_HEADS: usize = 2 * HEADS;

// A link below this stands in its head by itself.
pub const NEAR: usize = 2147483648;

// What a search looks at in a row: its key, its name, and its link to an earlier row of its bucket.
#[derive(Clone, Copy)]
struct Tag {
    key: u64,
    name: Part,
    next: usize,
}

// How many rows of the width are whole in memory; 0 for a width that has no room for a key and a name.
fn whole_rows(m: &[u64], width: usize) -> usize
    ensures { Whole width m.now result }
{
    if width < 3 {
        return 0;
    }
    m.len() / width
}

// The tag of row i for any width, with 0 for each number that the row does not have, as when there is no such row.
fn tag_at(m: &[u64], width: usize, i: usize) -> Tag
    ensures { result ≡ tag_at width m.now i }
{
    if width == 0 {
        return Tag {
            key: 0,
            name: Part { at: 0, len: 0 },
            next: 0,
        };
    }
    Tag {
        key: cell(m, width, i, 0),
        name: Part {
            at: cell(m, width, i, 1) as usize,
            len: cell(m, width, i, 2) as usize,
        },
        next: cell(m, width, i, width - 1) as usize,
    }
}

// Whether a row's tag has this key, and a name of these bytes.
fn is_tagged(library: &[u8], tag: Tag, key: u64, bytes: &[u8]) -> bool
    ensures { result ≡ (tag.key == key && same_bytes (bytes_of library.now tag.name) bytes.now) }
{
    tag.key == key && names::same(names::name(library, tag.name), bytes)
}

// Whether the length of a row's name alone rules out the bytes wanted. No length rules out the empty name, since a name
// that passes the library's end has no bytes whatever its length says.
fn is_other_length(len: usize, wanted: usize) -> bool
    ensures { result ≡ other_length len wanted }
{
    wanted != 0 && len != wanted
}

// Whether the row at a place has this key, and a name whose length does not rule out a name of `wanted` bytes. The length
// comes first: in a long bucket it tells more rows apart than the key.
fn may_be(m: &[u64], at: usize, key: u64, wanted: usize) -> bool
    requires { at + 2 < length m.now }
    ensures { result ≡ may_be m.now at key wanted }
{
    !is_other_length(m[at + 2] as usize, wanted) && m[at] == key
}

// The name of the row at a place.
fn name_at(m: &[u64], at: usize) -> Part
    requires { at + 2 < length m.now }
    ensures { result ≡ named_at m.now at }
{
    Part {
        at: m[at + 1] as usize,
        len: m[at + 2] as usize,
    }
}

// Follows the links of a bucket from `link` on, past rows that can't have this key and a name of `wanted` bytes; gives the
// link to the first row that may, or 0. `links` has the link of a row where `m` has its key. Nearly all of a long bucket
// is gone over here, so that a turn does no more than it must: one test tells that a link leads to no earlier row, whether
// it is 0 or too large.
fn pass(m: &[u64], links: &[u64], width: usize, link: usize, key: u64, wanted: usize) -> usize
    requires { Whole width m.now link × (links.now ≡ drop (width - 1) m.now) }
    ensures { Stops width m.now key wanted link result }
{
    if link == 0 {
        return 0;
    }
    let mut i = link - 1;
    loop {
        let at = i * width;
        if may_be(m, at, key, wanted) {
            return i + 1;
        }
        let before = wrapping_sub_usize(links[at] as usize, 1);
        if i <= before {
            return 0;
        }
        i = before;
    }
}

// What `find` does where the first row and those before it are whole.
fn find_whole(library: &[u8], m: &[u64], width: usize, link: usize, key: u64, name: Part) -> usize
    requires { (0 < link) × Whole width m.now link }
    ensures { result ≡ followed library.now width m.now key name link }
{
    let bytes = names::name(library, name);
    let last = width - 1;
    let links = &m[last..];
    let mut here = link;
    loop {
        let there = pass(m, links, width, here, key, bytes.len());
        if there == 0 {
            return 0;
        }
        let at = (there - 1) * width;
        if names::same(names::name(library, name_at(m, at)), bytes) {
            return there;
        }
        let next = links[at] as usize;
        if there <= next {
            return 0;
        }
        here = next;
    }
}

// What `find` does on any numbers.
fn find_by_cells(
    library: &[u8],
    m: &[u64],
    width: usize,
    link: usize,
    key: u64,
    name: Part,
) -> usize
    ensures { result ≡ followed library.now width m.now key name link }
{
    let bytes = names::name(library, name);
    let mut here = link;
    while here != 0 {
        let tag = tag_at(m, width, here - 1);
        if is_tagged(library, tag, key, bytes) {
            return here;
        }
        if here <= tag.next {
            return 0;
        }
        here = tag.next;
    }
    0
}

// Follows the links of a bucket from `link` on, to the first row with this key and name; gives the link to that row, or
// 0. A link that does not lead to an earlier row ends the search, so that the loop ends on any numbers.
pub fn find(library: &[u8], m: &[u64], width: usize, link: usize, key: u64, name: Part) -> usize
    ensures { result ≡ followed library.now width m.now key name link }
{
    if link == 0 {
        return 0;
    }
    if whole_rows(m, width) < link {
        return find_by_cells(library, m, width, link, key, name);
    }
    find_whole(library, m, width, link, key, name)
}

// A number of 32 bits after bytes were mixed in.
fn spread(from: u64, bytes: &[u8]) -> u64
    requires { from < 4294967296 }
    ensures { result ≡ spread_bytes from bytes.now }
{
    let mut h = from;
    for b in bytes {
        h = (h + u64::from(*b)) * 2654435761 % 4294967296;
    }
    h
}

// The same of a name: of a long one only the bytes at its ends are mixed in, so that its length does not count.
fn spread_ends(from: u64, bytes: &[u8]) -> u64
    requires { from < 4294967296 }
    ensures { result ≡ spread_bytes from (ends bytes.now) }
{
    let len = bytes.len();
    if len <= 16 {
        return spread(from, bytes);
    }
    let front = spread(from, &bytes[..8]);
    spread(front, &bytes[len - 8..])
}

// The bucket of a key and a name together: a number made of the key's low 16 bits, and of the name's length and ends.
pub fn bucket(library: &[u8], key: u64, name: Part) -> usize
    ensures { result ≡ name_bucket key (bytes_of library.now name) }
{
    let bytes = names::name(library, name);
    let mixed = spread_ends(bytes.len() as u64 % BUCKETS, bytes);
    ((key % BUCKETS + mixed / BUCKETS) % BUCKETS) as usize
}

// The link in head i, 0 past the end of the heads.
pub fn head_at(heads: &[u32], i: usize) -> usize
    ensures { result ≡ head_at heads.now i }
{
    let low = number_at(heads, i) as usize;
    if low < NEAR {
        return low;
    }
    low % NEAR + NEAR * number_at(heads, HEADS + i) as usize
}

// What stands in the head of a link itself.
fn low_head(link: usize) -> u32
    ensures { result ≡ low_head link }
{
    if link < NEAR {
        return link as u32;
    }
    (link % NEAR + NEAR) as u32
}

// Makes head i a link; past the end of the heads nothing changes.
fn set_head(heads: &mut [u32], i: usize, link: usize)
    ensures { heads.new ≡ head_set heads.old i link }
{
    let end = heads.len();
    if end <= i {
        return;
    }
    heads[i] = low_head(link);
    let behind = HEADS + i;
    if behind < end {
        heads[behind] = (link / NEAR % 4294967296) as u32;
    }
}

// Makes the heads of two buckets links to one row: that of the row's key, and that of its key and name together.
pub fn set_heads(heads: &mut [u32], key: u64, bucket: usize, number: usize)
    ensures { heads.new ≡ heads_with heads.old key bucket number }
{
    set_head(heads, (key % KEYS as u64) as usize, number);
    if bucket < heads.len() {
        set_head(heads, KEYS + bucket, number);
    }
}
