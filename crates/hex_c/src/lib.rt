// The exported functions for Intel HEX, of a static library of their own. callers/hex.h says for C callers what each
// parameter is.
#![tactic(auto)]

ghost use Rattle.std.specs.Prelude.{◌≡◌, set};
ghost use Rattle.intel_hex.specs.Outcome.{stored};
ghost use Rattle.intel_hex.specs.Import.{imported};
ghost use Rattle.intel_hex.specs.Export.{exported};
ghost use Rattle.hex_c.specs.Exported.{number_of, size_of, handed};

use intel_hex::HexRefusal;
use intel_hex::export::export_image;
use intel_hex::import::import_text;

// The number of an answer: 0, or that of the refusal.
fn number_of(answer: Result<usize, HexRefusal>) -> u8
    ensures { result ≡ number_of answer }
{
    match answer {
        Ok(_) => 0,
        Err(refusal) => u8::from(refusal),
    }
}

// Puts how many bytes were written at the front of `counts`, if there is room for it; 0 with a refusal.
fn put_size(answer: Result<usize, HexRefusal>, counts: &mut [u64])
    ensures { counts.new ≡ set counts.old 0 (size_of answer) }
{
    if !counts.is_empty() {
        counts[0] = answer.unwrap_or(0) as u64;
    }
}

// Makes an image of a HEX text. Gives 0 or the number of a refusal, and leaves the image's length in `counts`.
#[unsafe(no_mangle)]
pub extern "C" fn sillmarble_hex_import(text: &[u8], out: &mut [u8], counts: &mut [u64]) -> u8
    ensures { record { number = result; out = out.new; counts = counts.new } ≡ handed (stored (imported text.now) out.old) counts.old }
{
    let answer = import_text(text, out);
    put_size(answer, counts);
    number_of(answer)
}

// Makes HEX text of an image. Gives 0 or the number of a refusal, and leaves the text's length in `counts`.
#[unsafe(no_mangle)]
pub extern "C" fn sillmarble_hex_export(image: &[u8], out: &mut [u8], counts: &mut [u64]) -> u8
    ensures { record { number = result; out = out.new; counts = counts.new } ≡ handed (stored (exported image.now) out.old) counts.old }
{
    let answer = export_image(image, out);
    put_size(answer, counts);
    number_of(answer)
}
