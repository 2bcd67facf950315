// Links between the things of one key: they let the things of a key be gone over without looking at other things. A
// thing is one number, which holds its key, its place in the library and the link to the next thing of its key; a link
// is one more than a thing's number in its table, or 0.
ghost use Rattle.std.specs.Prelude.{◌≡◌, ◌<◌, ◌≤◌, length, take, slice_index};
ghost use Rattle.tables.specs.links.Things.{thing_key, thing_of, linked_to, keys_of, places_of, next_of};
ghost use Rattle.tables.specs.links.Index.{Ready, LinkedThings, Cleared};

// A thing of this key, which is read again at this place of the library, and is not linked yet. That a key has 16 bits
// is said for callers, who know it of the type only.
pub fn thing(key: u16, place: usize) -> u64
    requires { place < 1048576 }
    ensures { (result ≡ thing_of key place) × (key < 65536) }
{
    u64::from(key) + 65536 * place as u64
}

// The thing with this link in the place of its own.
fn linked_to(thing: u64, link: u32) -> u64
    requires { link < 268435456 }
    ensures { result ≡ linked_to thing link }
{
    thing % 68719476736 + 68719476736 * u64::from(link)
}

// The key of a thing.
fn key_in(thing: u64) -> usize
    ensures { result ≡ thing_key thing }
{
    (thing % 65536) as usize
}

// The thing at a place of a table, 0 past the end.
fn thing_at(things: &[u64], i: usize) -> u64
    ensures { result ≡ slice_index things.now i }
{
    things.get(i).copied().unwrap_or(0)
}

// The key of thing i, 0 past the end of the table.
pub fn key_at(things: &[u64], i: usize) -> usize
    ensures { result ≡ slice_index (keys_of things.now) i }
{
    key_in(thing_at(things, i))
}

// The place in the library of thing i, 0 past the end of the table.
pub fn place_at(things: &[u64], i: usize) -> usize
    ensures { result ≡ slice_index (places_of things.now) i }
{
    (thing_at(things, i) / 65536 % 1048576) as usize
}

// The link from thing i to the next thing of its key, 0 past the end of the table.
pub fn next_at(things: &[u64], i: usize) -> usize
    ensures { result ≡ slice_index (next_of things.now) i }
{
    (thing_at(things, i) / 68719476736 % 268435456) as usize
}

// Links each of the first n things to the next of its key, going from the back to the front: `first` has the first thing
// of each key.
pub fn link(things: &mut [u64], n: usize, first: &mut [u32])
    requires { Ready things.old n first.old }
    ensures { LinkedThings things.old n 0 things.new first.new }
{
    for i in (0..n).rev() {
        let thing = things[i];
        let key = key_in(thing);
        things[i] = linked_to(thing, first[key]);
        first[key] = (i + 1) as u32;
    }
}

// Sets the first thing of the key of each of the first n things to 0 again, so that the heads can serve the next module
// without being cleared as a whole.
pub fn unlink(things: &[u64], n: usize, first: &mut [u32])
    requires { (n ≤ length things.now) × (65536 ≤ length first.old) }
    ensures { Cleared (take n (keys_of things.now)) first.old first.new }
{
    for thing in &things[..n] {
        first[key_in(*thing)] = 0;
    }
}

// The number at a place of a list, 0 past the end: of heads, the link to the first thing of a key.
pub fn number_at(numbers: &[u32], i: usize) -> u32
    ensures { result ≡ slice_index numbers.now i }
{
    numbers.get(i).copied().unwrap_or(0)
}
