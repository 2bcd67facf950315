// References out of a pattern: their kinds, and the targets to which the bytes of the image lead.
ghost use Rattle.std.specs.Prelude.{◌≡◌, ◌+◌, ◌<◌, nat_lt};
ghost use Rattle.image.specs.View.{stretches_in, view, cell_at};
ghost use Rattle.image.specs.fixup.Target.{signed as signed_of, top_bits, addr16 as addr16Of, reads, leads_to, counted as counted_by, target, page11};

// The two rule sets: 0, as found, and 1, as documented.
#[derive(Clone, Copy, Debug, PartialEq, Eq)]
pub enum Rules {
    AsFound,
    Documented,
}

// The three kinds of fixup that leave a reference.
#[derive(Clone, Copy, Debug, PartialEq, Eq)]
pub enum Kind {
    Relative,
    Word,
    Inblock,
}

// The target of a reference: an address; or none, since its bytes pass the image's end, or, where they do not, since one
// of them is withheld. It is no `Result`, since no caller hands a missing target on: the check of references tells why there
// is none, and the others pass it over.
#[derive(Clone, Copy, Debug, PartialEq, Eq)]
pub enum Target {
    At(u64),
    PastEnd,
    Withheld,
}

// How many bytes a reference of a kind reads.
fn width(kind: Kind) -> usize
    ensures { result ≡ reads kind }
{
    match kind {
        Kind::Relative => 1,
        Kind::Word => 2,
        Kind::Inblock => 2,
    }
}

// A byte as a signed number, at 64 bits.
fn signed(a: u8) -> u64
    ensures { result ≡ signed_of a }
{
    if a < 128 {
        u64::from(a)
    } else {
        u64::from(a) + 0xffff_ffff_ffff_ff00
    }
}

// The address of two bytes, high byte first.
fn addr16(a: u8, b: u8) -> u64
    ensures { result ≡ addr16Of a b }
{
    256 * u64::from(a) + u64::from(b)
}

// The three bits of the first byte of an AJMP or ACALL that belong to the address; under rule set 0, as found, they count as 0.
fn top_bits(rules: Rules, a: u8) -> u64
    ensures { result ≡ top_bits rules a }
{
    match rules {
        Rules::AsFound => 0,
        Rules::Documented => u64::from(a >> 5),
    }
}

// The address of an AJMP or ACALL, put together by shifts and masks: five bits of the place after it, three bits of its
// first byte, its second byte.
fn addr11(rules: Rules, next: u64, a: u8, b: u8) -> u64
    ensures { result ≡ page11 next (top_bits rules a) b }
{
    let page = (next >> 11) & 31;
    let low = (top_bits(rules, a) << 8) | u64::from(b);
    (page << 11) | low
}

// Whether n bytes at `pos` pass the end of an image of `end` bytes. No sum is taken, which could wrap.
fn passes(end: usize, pos: usize, n: usize) -> bool
    ensures { result ≡ nat_lt end (pos + n) }
{
    end < n || end - n < pos
}

// The byte of the image at a place, 0 past the end.
fn byte_at(image: &[u8], at: usize) -> u8
    ensures { result ≡ cell_at image.now at }
{
    image.get(at).copied().unwrap_or(0)
}

// The address to which the bytes a and b at `pos` lead. All sums wrap at 64 bits, as document 01 says.
fn leads_to(rules: Rules, pos: u64, kind: Kind, a: u8, b: u8) -> u64
    ensures { result ≡ leads_to rules pos kind a b }
{
    match kind {
        Kind::Relative => { pos.wrapping_add(1).wrapping_add(signed(a)) }
        Kind::Word => addr16(a, b),
        Kind::Inblock => { addr11(rules, pos.wrapping_add(2), a, b) }
    }
}

// A target as the program counter holds it: as documented it has 16 bits, as found a target keeps its 64.
fn counted(rules: Rules, t: u64) -> u64
    ensures { result ≡ counted_by rules t }
{
    match rules {
        Rules::AsFound => t,
        Rules::Documented => t % 65536,
    }
}

// The target of a reference that reads at `pos`: none if its bytes pass the image's end, or, where they do not, touch the
// cover; else the address that the bytes give, less the fixup's offset, where the difference wraps at 64 bits, as the
// program counter holds it.
pub fn find_target(
    image: &[u8],
    s: &[u64],
    rules: Rules,
    pos: usize,
    kind: Kind,
    offset: u64,
) -> Target
    ensures { result ≡ target (view image.now (stretches_in s.now)) rules pos kind offset }
{
    let n = width(kind);
    if passes(image.len(), pos, n) {
        return Target::PastEnd;
    }
    if !crate::is_apart(s, pos, n) {
        return Target::Withheld;
    }
    let a = byte_at(image, pos);
    let b = byte_at(image, pos + 1);
    let led = leads_to(rules, pos as u64, kind, a, b);
    Target::At(counted(rules, led.wrapping_sub(offset)))
}
