// Names are parts of the library: what their bytes are, whether two names are the same, and which comes first in byte order.
ghost use Rattle.std.specs.Prelude.{◌≡◌};
ghost use Rattle.lent.specs.Parts.{bytes_of, same as same_bytes, before as before_bytes, same_name, name_before};

use crate::part::Part;

// The bytes of a part of the library, lent and not copied; a part that passes the library's end has none.
pub fn name<'a>(library: &'a [u8], p: Part) -> &'a [u8]
    ensures { result.now ≡ bytes_of library.now p }
{
    let Some(rest) = library.get(p.at..) else {
        return &[];
    };
    rest.get(..p.len).unwrap_or(&[])
}

// Whether two strings of bytes are the same.
pub fn same(a: &[u8], b: &[u8]) -> bool
    ensures { result ≡ same_bytes a.now b.now }
{
    a == b
}

// Whether one string of bytes comes before another in byte order.
pub fn before(a: &[u8], b: &[u8]) -> bool
    ensures { result ≡ before_bytes a.now b.now }
{
    a.cmp(b).is_lt()
}

// Whether two names have the same bytes, wherever in the library they stand.
pub fn same_name(library: &[u8], a: Part, b: Part) -> bool
    ensures { result ≡ same_name library.now a b }
{
    same(name(library, a), name(library, b))
}

// Whether one name comes before another in byte order, wherever in the library they stand.
pub fn name_before(library: &[u8], a: Part, b: Part) -> bool
    ensures { result ≡ name_before library.now a b }
{
    before(name(library, a), name(library, b))
}
