// The row of an id in the table: three numbers of 32 bits, each of which holds a number below 2^24 and one below 256.
ghost use Rattle.std.specs.Prelude.{◌≡◌, [], ◌∷◌, ◌≤◌, ◌<◌};
ghost use Rattle.lent.specs.Rows.{cell_of, put_row};
ghost use Rattle.module_ids.specs.IdRows.{mark_number, mark_from, kept_cells, kept_from, name_from, packed as packed_number, id_cells, id_row_at, Small};

use crate::{IdRow, KeptSegment, Mark};
use lent::part::Part;
use omf51::ModuleId;

// The numbers of a kept segment: which of its module's kept segments it is, counted from 1, and its size.
#[derive(Clone, Copy)]
struct KeptPair {
    ordinal: usize,
    size: usize,
}

impl From<Mark> for usize {
    ghost from_gives = { λ mark n. n ≡ mark_number mark };

    fn from(mark: Mark) -> usize {
        mark as usize
    }
}

impl From<u32> for Mark {
    ghost from_gives = { λ n mark. mark ≡ mark_from n };

    fn from(n: u32) -> Mark {
        match n {
            0 => Mark::Missing,
            1 => Mark::Other,
            _ => Mark::Code,
        }
    }
}

// The two numbers of an id's first kept segment; zeros where there is none.
fn kept_cells(kept: Option<KeptSegment>) -> KeptPair
    requires { (kept_cells kept).ordinal < 16777216 }
    ensures { result ≡ kept_cells kept }
{
    match kept {
        None => KeptPair {
            ordinal: 0,
            size: 0,
        },
        Some(KeptSegment { place, size }) => KeptPair {
            ordinal: place + 1,
            size,
        },
    }
}

// An id's first kept segment, from its two numbers.
fn kept_from(ordinal: u32, size: u32) -> Option<KeptSegment>
    ensures { result ≡ kept_from ordinal size }
{
    let place = ordinal.checked_sub(1)?;
    Some(KeptSegment {
        place: place as usize,
        size: size as usize,
    })
}

// The name of an id's first external, from its place and length in one number.
fn name_from(n: u32) -> Part
    ensures { result ≡ name_from n }
{
    Part {
        at: (n / 256) as usize,
        len: (n % 256) as usize,
    }
}

// Two numbers in one.
fn packed(high: usize, low: usize) -> u32
    requires { (high < 16777216) × (low < 256) }
    ensures { result ≡ packed_number high low }
{
    (high * 256 + low) as u32
}

// The three numbers of an id's row; zeros if the table ends before the row's end.
fn numbers(table: &[u32], id: ModuleId) -> [u32; 3]
    ensures { result ≡ cell_of 3 table.now id.0 0 ∷ cell_of 3 table.now id.0 1 ∷ cell_of 3 table.now id.0 2 ∷ [] }
{
    let at = id.0 as usize * 3;
    if at + 3 <= table.len() {
        return [table[at], table[at + 1], table[at + 2]];
    }
    [0, 0, 0]
}

// Puts three numbers into an id's row; if the table ends before the row's end, it stays as it was.
fn put(table: &mut [u32], id: ModuleId, a: u32, b: u32, c: u32)
    ensures { table.new ≡ put_row 3 table.old id.0 (a ∷ b ∷ c ∷ []) }
{
    let at = id.0 as usize * 3;
    if at + 3 <= table.len() {
        table[at] = a;
        table[at + 1] = b;
        table[at + 2] = c;
    }
}

// What an id leads to, by the table. The contract also says that an id has 16 bits, for the proofs of callers.
pub fn id_row(table: &[u32], id: ModuleId) -> IdRow
    ensures { (result ≡ id_row_at table.now id) × (id.0 < 65536) }
{
    let n = numbers(table, id);
    IdRow {
        segment: Mark::from(n[0] % 256),
        kept: kept_from(n[0] / 256, n[1] / 256),
        external: Mark::from(n[1] % 256),
        name: name_from(n[2]),
    }
}

// Puts what an id leads to into its row of the table.
pub fn put_id(table: &mut [u32], id: ModuleId, row: IdRow)
    requires { Small row }
    ensures { table.new ≡ put_row 3 table.old id.0 (id_cells row) }
{
    let k = kept_cells(row.kept);
    let a = packed(k.ordinal, usize::from(row.segment));
    let b = packed(k.size, usize::from(row.external));
    let c = packed(row.name.at, row.name.len);
    put(table, id, a, b, c);
}
