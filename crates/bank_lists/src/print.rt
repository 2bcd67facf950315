// The lists of all banks on standard output: for each bank a line with its number, from 0 on, and its list behind that; an empty line between two banks.
use bank_rules::BankCounts;
use command::output::write_lines;
use std::io;

// Puts what stands before a bank's list.
fn put_title(rt: &impl Print, k: usize) -> io::Result<()> {
    if k != 0 {
        rt.write_all(b"\n")?;
    }
    rt.write_all(b"Bank ")?;
    rt.print(k)?;
    rt.write_all(b"\n")
}

fn put_bank(
    rt: &impl Print,
    library: &[u8],
    lines: &[u64],
    k: usize,
    from: usize,
    to: usize,
) -> io::Result<()> {
    put_title(rt, k)?;
    write_lines(rt, library, lines, from, to)
}

// Puts all banks. Their lines stand one after another; `each` says how many each has.
fn put_banks(
    rt: &impl Print,
    library: &[u8],
    lines: &[u64],
    each: &[u64],
    banks: usize,
) -> io::Result<()> {
    let mut from: usize = 0;
    for (k, n) in each.iter().take(banks).enumerate() {
        let to = from.wrapping_add(*n as usize);
        put_bank(rt, library, lines, k, from, to)?;
        from = to;
    }
    Ok(())
}

pub fn print(rt: &impl Print, library: &[u8], lines: &[u64], found: BankCounts) -> io::Result<()> {
    put_banks(rt, library, lines, &found.lines, found.banks)
}
