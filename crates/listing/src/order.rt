// The lines of a position are put in byte order of their names, in lent memory: a Shell sort.
// The library's sorts order the elements of a slice, and a line is a row of four elements of a flat list.
ghost use Rattle.std.specs.Prelude.{◌+◌, ◌≤◌, ◌<◌, length};
ghost use Rattle.listing.specs.order.Order.{Orders};
ghost use Rattle.listing.specs.order.Passes.{Sinks, Passes};

use lent::names::{before, name};
use listing_rules::rows::{line_at, put_line};

// Line i of the region from row `from` on goes down by steps of `gap`, past the lines that it comes before, and those go up.
fn sink(library: &[u8], m: &mut [u64], from: usize, gap: usize, i: usize)
    requires { (0 < gap) × (from + i < length m.old) }
    ensures { Sinks library.now m.old from gap i m.new }
{
    let x = line_at(m, from + i);
    let part = x.name;
    let bytes = name(library, part);
    let mut j = i;
    while gap <= j {
        let y = line_at(m, from + (j - gap));
        let other = y.name;
        if !before(bytes, name(library, other)) {
            break;
        }
        put_line(m, from + j, y);
        j -= gap;
    }
    put_line(m, from + j, x);
}

// One pass of the sort: each of the n lines that has a line `gap` rows in front of it sinks, from the first such line on.
fn pass(library: &[u8], m: &mut [u64], from: usize, n: usize, gap: usize)
    requires { (0 < gap) × (from + n ≤ length m.old) }
    ensures { Passes library.now m.old from n gap m.new }
{
    for i in gap..n {
        sink(library, m, from, gap, i);
    }
}

// The gap after a gap: about 4/9 of it, and odd, so that gaps have little in common; in the end
// the gaps that Ciura found to be quick.
fn next_gap(gap: usize) -> usize
    requires { 1 < gap }
    ensures { (0 < result) × (result < gap) }
{
    match gap {
        3938.. => gap / 9 * 4 + 1,
        1751.. => 1750,
        702.. => 701,
        302.. => 301,
        133.. => 132,
        58.. => 57,
        24.. => 23,
        11.. => 10,
        5.. => 4,
        _ => 1,
    }
}

// Puts the n lines from row `from` on in order. With one line, or none, there is nothing to do; a region that is longer
// than the memory is left alone.
pub fn order(library: &[u8], m: &mut [u64], from: usize, n: usize)
    ensures { Orders library.now m.old from n m.new }
{
    if m.len() < from {
        return;
    }
    if m.len() - from < n {
        return;
    }
    let mut gap = n;
    while 1 < gap {
        gap = next_gap(gap);
        pass(library, m, from, n, gap);
    }
}
