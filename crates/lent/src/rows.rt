// Rows of numbers in lent memory: row i of a width is the numbers from i * width on.
ghost use Rattle.std.specs.Prelude.{◌≡◌, length};
ghost use Rattle.lent.specs.Rows.{cell_of, numbers_of, put_row, Layout};

// A thing that is kept as a row of numbers.
pub trait Row: Copy {
    // How many numbers a row takes, the numbers of a thing, and the thing again.
    ghost layout: { Layout Self };

    // How many numbers a row takes.
    fn width() -> usize
        ensures { result ≡ layout.width };

    // Puts the thing into row i; without such a row the memory stays as it was.
    fn put(self, m: &mut [u64], i: usize)
        ensures { m.new ≡ put_row layout.width m.old i (layout.cells self) };
}

// Number j of row i, or 0 where there is no such row or number.
pub fn cell(m: &[u64], width: usize, i: usize, j: usize) -> u64
    ensures { result ≡ cell_of width m.now i j }
{
    if j < width && i < m.len() / width {
        m[i * width + j]
    } else {
        0
    }
}

// The numbers of row i. No row has more than eight; a number that the row does not have is 0.
pub fn numbers(m: &[u64], width: usize, i: usize) -> [u64; 8]
    ensures { result ≡ numbers_of width m.now i }
{
    std::array::from_fn(|j| cell(m, width, i, j))
}

// Puts the numbers of a row into row i; if the memory ends before that row's end, it stays as it was.
pub fn put(m: &mut [u64], i: usize, cells: &[u64])
    ensures { m.new ≡ put_row (length cells.now) m.old i cells.now }
{
    let width = cells.len();
    if width != 0 && i < m.len() / width {
        let at = i * width;
        m[at..at + width].copy_from_slice(cells);
    }
}
