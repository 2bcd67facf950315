// The sum of what one item of a library says, with each of its numbers, so that a compiler can leave none of them unread.
use lent::part::Part;
use omf51::{Content, Definition, Fixup, ModuleId};

// The sum of two numbers that are first cut to 16 bits each, so that no sum is too large.
pub fn plus(sum: usize, x: usize) -> usize {
    sum % 65536 + x % 65536
}

// The sum of a part: 1 for the part itself, its place and its length.
fn of_part(p: Part) -> usize {
    plus(plus(1, p.at), p.len)
}

// The sum of a segment without its name.
fn of_segment(id: ModuleId, info: u8, relocation: u8, size: usize) -> usize {
    plus(
        plus(usize::from(id.0), usize::from(info)),
        plus(usize::from(relocation), size),
    )
}

// The sum of a definition.
pub fn of_definition(d: Definition) -> usize {
    match d {
        Definition::Segment {
            id,
            info,
            relocation,
            size,
            name,
        } => plus(of_segment(id, info, relocation, size), of_part(name)),
        Definition::Public { id, offset, name } => {
            plus(plus(usize::from(id.0), offset), of_part(name))
        }
        Definition::External { id, info, name } => {
            plus(plus(usize::from(id.0), usize::from(info)), of_part(name))
        }
    }
}

// The sum of a content.
pub fn of_content(c: Content) -> usize {
    plus(plus(usize::from(c.id.0), c.offset), of_part(c.part))
}

// The sum of a fixup.
pub fn of_fixup(f: Fixup) -> usize {
    let kinds = plus(usize::from(f.kind), usize::from(f.block));
    plus(
        plus(plus(1, f.location), kinds),
        plus(usize::from(f.id.0), f.offset),
    )
}
