// The entry point of the collection, which makes the tables for a module and lends them to all that follows.
ghost use Rattle.std.specs.Prelude.{◌≡◌, [], ◌≤◌, length};
ghost use Rattle.omf51.specs.Module.{module_at};
ghost use Rattle.library.specs.Gathered.{items_at};
ghost use Rattle.module_ids.specs.Noted.{Tells};
ghost use Rattle.collect.specs.stored.Stores.{Stores};
ghost use Rattle.collect.specs.stored.Segments.{lists};
ghost use Rattle.collect.specs.all_modules.All.{nothing, StoresAll};
ghost use Rattle.collect.specs.Sizes.{Sizes};
ghost use Rattle.collect.specs.Outcome.{collection};

use crate::all_modules::all::store_all;
use crate::conclude::{clear_all, conclude};
use crate::stored::{CollectCounts, NoRoom};
use image::fixup::Rules;
use lent::refusal::Refusal;
use library::LONGEST_LIBRARY;
use tables::by_name::KEYS;
use tables::zeros::{
    CONTENT_ROOM, FEW_CONTENTS, FEW_PUBLICS, ID_TABLE, MANY_CONTENTS, MANY_PUBLICS, zeros,
};

// A library up to this length is collected with small tables.
const SHORT_LIBRARY: usize = 65536;

// Stores the segments of all modules from the place `from` on. The tables of contents and of public definitions are lent,
// and large enough for the library, whatever they hold; the other tables of a module are made here.
fn store_in(
    library: &[u8],
    rules: Rules,
    from: usize,
    table: &mut [u32],
    contents: &mut [u64],
    publics: &mut [u64],
    segments: &mut [u64],
    references: &mut [u64],
    symbols: &mut [u64],
    bytes: &mut [u8],
    masks: &mut [u8],
) -> Result<CollectCounts, NoRoom>
    requires { Sizes library.now contents.old publics.old × (Tells [] table.old × Stores [] (lists segments.old references.old symbols.old bytes.old masks.old) nothing) }
    ensures { StoresAll library.now rules (items_at library.now (module_at library.now) from) table.new
        (lists segments.old references.old symbols.old bytes.old masks.old)
        (lists segments.new references.new symbols.new bytes.new masks.new) result }
{
    let mut first: [u32; KEYS] = zeros();
    let mut names: [u32; KEYS] = zeros();
    let mut apart: [u8; CONTENT_ROOM] = zeros();
    store_all(
        library, rules, from, table, contents, &mut first, publics, &mut names, segments,
        references, symbols, bytes, masks, &mut apart,
    )
}

// Stores the segments of all modules from the place `from` on, with tables of the size that the library's length asks
// for: tables are filled with zeros in each run, which costs time.
fn store(
    library: &[u8],
    rules: Rules,
    from: usize,
    table: &mut [u32],
    segments: &mut [u64],
    references: &mut [u64],
    symbols: &mut [u64],
    bytes: &mut [u8],
    masks: &mut [u8],
) -> Result<CollectCounts, NoRoom>
    requires { (length library.now ≤ 1048576) × (Tells [] table.old × Stores [] (lists segments.old references.old symbols.old bytes.old masks.old) nothing) }
    ensures { StoresAll library.now rules (items_at library.now (module_at library.now) from) table.new
        (lists segments.old references.old symbols.old bytes.old masks.old)
        (lists segments.new references.new symbols.new bytes.new masks.new) result }
{
    if library.len() <= SHORT_LIBRARY {
        let mut contents: [u64; FEW_CONTENTS] = zeros();
        let mut publics: [u64; FEW_PUBLICS] = zeros();
        return store_in(
            library,
            rules,
            from,
            table,
            &mut contents,
            &mut publics,
            segments,
            references,
            symbols,
            bytes,
            masks,
        );
    }
    let mut contents: [u64; MANY_CONTENTS] = zeros();
    let mut publics: [u64; MANY_PUBLICS] = zeros();
    store_in(
        library,
        rules,
        from,
        table,
        &mut contents,
        &mut publics,
        segments,
        references,
        symbols,
        bytes,
        masks,
    )
}

// Collects the segments of all modules from the place `from` on into the five lists of the collection: rows of
// segments, of references and of symbols, pattern bytes, masks. A library above 1 MiB is refused, and nothing is
// written; any other refusal leaves zeros.
// The five lists are parameters of their own: with a struct of `&mut` slices, the proof of `collect` does not close, since no
// fact ties what the lists hold at its end to what the struct led to.
pub fn collect(
    library: &[u8],
    rules: Rules,
    from: usize,
    segments: &mut [u64],
    references: &mut [u64],
    symbols: &mut [u64],
    bytes: &mut [u8],
    masks: &mut [u8],
) -> Result<CollectCounts, Refusal>
    ensures { record { answer = result; left = lists segments.new references.new symbols.new bytes.new masks.new }
        ≡ collection rules library.now (items_at library.now (module_at library.now) from) (lists segments.old references.old symbols.old bytes.old masks.old) }
{
    if library.len() > LONGEST_LIBRARY {
        return Err(Refusal::LibraryTooLong);
    }
    let mut table: [u32; ID_TABLE] = zeros();
    clear_all(segments, references, symbols, bytes, masks);
    let stored = store(
        library, rules, from, &mut table, segments, references, symbols, bytes, masks,
    );
    conclude(
        library, from, stored, &mut table, segments, references, symbols, bytes, masks,
    )
}
