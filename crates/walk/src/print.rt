// The rows on standard output, an instruction a line: its address, its bytes, the manual's form, and where a call or a jump
// leads; and last, why no more are shown.
use crate::forms::FORMS;
use lent::rows::cell;
use opcodes::length_of;
use routine::{ROW_WIDTH, Row, What, Why};
use std::io;

// Row i of the lent rows.
fn row_at(rows: &[u64], i: usize) -> Row {
    let target = cell(rows, ROW_WIDTH, i, 2);
    Row {
        address: cell(rows, ROW_WIDTH, i, 0),
        what: match cell(rows, ROW_WIDTH, i, 1) {
            0 => What::Neither,
            1 => What::Call(target),
            _ => What::Jump(target),
        },
    }
}

fn byte_at(image: &[u8], at: usize) -> u8 {
    image.get(at).copied().unwrap_or(0)
}

// The bytes of an instruction, each with a space behind it, and spaces for those of three that it does not have.
fn put_bytes(rt: &impl Print, image: &[u8], at: usize, len: usize) -> io::Result<()> {
    for i in 0..3 {
        if i < len {
            let byte = byte_at(image, at.wrapping_add(i));
            print!(rt; "{byte:02X} ")?;
        } else {
            print!(rt; "   ")?;
        }
    }
    Ok(())
}

fn put_line(rt: &impl Print, image: &[u8], row: Row) -> io::Result<()> {
    let address = row.address;
    let opcode = byte_at(image, address as usize);
    let form = FORMS[usize::from(opcode)];
    print!(rt; "0x{address:04X}    ")?;
    put_bytes(rt, image, address as usize, usize::from(length_of(opcode)))?;
    match row.what {
        What::Neither => println!(rt; "   {form}"),
        What::Call(target) => println!(rt; "   {form:<18}  call 0x{target:04X}"),
        What::Jump(target) => println!(rt; "   {form:<18}  jump 0x{target:04X}"),
    }
}

fn put_why(rt: &impl Print, why: Why) -> io::Result<()> {
    let words = match why {
        Why::Return => "return",
        Why::Limit => "limit of 256 instructions",
        Why::Reserved => "reserved opcode A5",
        Why::End => "the image's end",
        Why::Withheld => "withheld bytes",
    };
    println!(rt; "stops: {words}")
}

pub fn print(rt: &impl Print, image: &[u8], rows: &[u64], n: usize, why: Why) -> io::Result<()> {
    println!(rt; "Address | Bytes     | Instruction       | Target")?;
    for i in 0..n {
        put_line(rt, image, row_at(rows, i))?;
    }
    put_why(rt, why)
}
