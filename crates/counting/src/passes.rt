// Each module of a library is gone over: once over its definitions, and once over its contents, each content with its fixups.
use crate::items::{of_content, of_definition, of_fixup, plus};
use library::Places;
use library::edition::EditionOne;
use library::items::contents::next_content;
use library::items::decoded::{next_definition, next_fixup};
use library::items::entries::start;
use library::items::{Cursor, NextContent, NextDefinition, NextFixup};
use library::module::module_at;

// The sum of all definitions of a module.
fn over_definitions(library: &[u8], definitions: usize) -> usize {
    let mut sum = 0;
    let mut c = start(definitions);
    while let Some(NextDefinition { definition, rest }) = next_definition(library, c) {
        sum = plus(sum, of_definition(definition));
        c = rest;
    }
    sum
}

// The sum of the fixups of a content, from a cursor on.
fn over_fixups(library: &[u8], from: Cursor) -> usize {
    let mut sum = 0;
    let mut c = from;
    while let Some(NextFixup { fixup, rest }) = next_fixup(library, c) {
        sum = plus(sum, of_fixup(fixup));
        c = rest;
    }
    sum
}

// The sum of all contents of a module, with their fixups.
fn over_contents(library: &[u8], contents: usize) -> usize {
    let mut sum = 0;
    let mut at = contents;
    while let Some(
        NextContent {
            content,
            fixups,
            rest,
        },
    ) = next_content(library, at)
    {
        sum = plus(sum, plus(of_content(content), over_fixups(library, fixups)));
        at = rest;
    }
    sum
}

// The sum of a module.
fn over_module(library: &[u8], places: Places) -> usize {
    plus(
        over_definitions(library, places.definitions),
        over_contents(library, places.contents),
    )
}

// The sum of `count` modules in a row. Each module was whole when the library was read, so that none ends the loop early.
pub fn over_modules(library: &[u8], first: usize, count: usize) -> usize {
    let mut sum = 0;
    let mut at = first;
    for _ in 0..count {
        let Ok(Some(places)) = module_at::<EditionOne>(library, at) else {
            return sum;
        };
        sum = plus(sum, over_module(library, places));
        at = places.next;
    }
    sum
}
