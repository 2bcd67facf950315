// A refusal with its number: one line on standard error.
use intel_hex::HexRefusal;
use system::standard_error::StandardError;

pub fn say_refused(rt: &impl StandardError, refusal: HexRefusal) {
    let _ = eprintln!(rt; "refused ({}): {refusal}", u8::from(refusal));
}

// A text that is longer than the program reads has the number of an image that is too long.
pub fn say_text_too_long(rt: &impl StandardError) {
    let number = u8::from(HexRefusal::ImageTooLong);
    let _ = eprintln!(rt; "refused ({number}): text too long (more than 1048576 bytes)");
}
