// Lent memory that is filled with rows, one after another, until there is no room.
ghost use Rattle.std.specs.Prelude.{◌≡◌, length};
ghost use Rattle.lent.specs.Rows.{Layout};
ghost use Rattle.tables.specs.fill.FilledRows.{one_more, put_more};

use lent::rows::Row;

// How many rows were put, and whether there was no room for a further row. Once `over` is set no row is put any more,
// and the number of rows means nothing.
#[derive(Clone, Copy, Debug, PartialEq, Eq)]
pub struct Fill {
    pub rows: usize,
    pub over: bool,
}

// The fill after one more row of this width in memory of this length.
pub fn one_more(f: Fill, width: usize, len: usize) -> Fill
    ensures { result ≡ one_more f width len }
{
    if f.over {
        return f;
    }
    if width == 0 {
        return Fill {
            rows: f.rows,
            over: true,
        };
    }
    if f.rows < len / width {
        return Fill {
            rows: f.rows + 1,
            over: false,
        };
    }
    Fill {
        rows: f.rows,
        over: true,
    }
}

// Puts one row more behind the others, if there is room; gives the fill afterwards.
pub fn append<R: Row>(m: &mut [u64], f: Fill, row: R) -> Fill
    ensures { (m.new ≡ put_more R.layout f row m.old) × (result ≡ one_more f R.layout.width (length m.old)) }
{
    let next = one_more(f, R::width(), m.len());
    if next.over {
        return next;
    }
    row.put(m, f.rows);
    next
}
