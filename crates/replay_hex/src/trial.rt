// One case: what a function answers and leaves in its buffer, which is full of A5h before.
use intel_hex::HexRefusal;
use intel_hex::export::export_image;
use intel_hex::import::import_text;
use lent::names::{name, same};
use lent::part::Part;
use recorded::digest::of_numbers;

// No case has a longer input or buffer.
pub const ROOM: usize = 70000;

#[derive(Clone, Copy, Debug, PartialEq, Eq)]
pub struct Came {
    pub number: u64,
    pub size: u64,
    pub left: u64,
}

pub fn room() -> [u8; ROOM] {
    [0xa5u8; ROOM]
}

fn told(answer: Result<usize, HexRefusal>, out: &[u8]) -> Came {
    let (number, size) = match answer {
        Ok(size) => (0, size),
        Err(refusal) => (u8::from(refusal), 0),
    };
    Came {
        number: u64::from(number),
        size: size as u64,
        left: of_numbers(out),
    }
}

pub fn import(text: &[u8], out: &mut [u8]) -> Came {
    let answer = import_text(text, out);
    told(answer, out)
}

pub fn export(image: &[u8], out: &mut [u8]) -> Came {
    let answer = export_image(image, out);
    told(answer, out)
}

// Whether a text that was exported, the first bytes of a buffer, is the image once it is imported.
pub fn comes_back(image: &[u8], out: &[u8], size: usize) -> bool {
    let mut back = room();
    match import_text(name(out, Part { at: 0, len: size }), &mut back) {
        Ok(n) => same(image, name(&back, Part { at: 0, len: n })),
        Err(_) => false,
    }
}
