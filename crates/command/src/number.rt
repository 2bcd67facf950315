// Numbers as they are written on the command line: decimal, or hexadecimal behind 0x.
ghost use Rattle.std.specs.Prelude.{◌≡◌, ◌≤◌, ◌<◌};
ghost use Rattle.command.specs.Numbers.{digit_of, digits_from, number_of};

// Why a text is no number that is taken.
#[derive(Clone, Copy, Debug, PartialEq, Eq)]
pub enum NumberError {
    TooLarge,
    NotANumber,
}

// What a digit stands for; 16 for a byte that is no digit.
#[tactic(auto, unfolding(crate::specs::Numbers::digit_of))]
fn digit(b: u8) -> u64
    ensures { result ≡ digit_of b }
{
    match b {
        b'0'..=b'9' => u64::from(b - b'0'),
        b'A'..=b'F' => u64::from(b - b'A' + 10),
        b'a'..=b'f' => u64::from(b - b'a' + 10),
        _ => 16,
    }
}

// The number that the digits of a base stand for.
fn digits(text: &[u8], base: u64) -> Result<u64, NumberError>
    requires { (0 < base) × (base ≤ 16) }
    ensures { result ≡ digits_from base 0 text.now }
{
    let mut n: u64 = 0;
    for b in text {
        let d = digit(*b);
        if base <= d {
            return Err(NumberError::NotANumber);
        }
        let Some(shifted) = n.checked_mul(base) else {
            return Err(NumberError::TooLarge);
        };
        let Some(next) = shifted.checked_add(d) else {
            return Err(NumberError::TooLarge);
        };
        n = next;
    }
    Ok(n)
}

// A text with no digit is no number.
#[tactic(auto, unfolding(crate::specs::Numbers::number_of))]
pub fn number_in(text: &[u8]) -> Result<u64, NumberError>
    ensures { result ≡ number_of text.now }
{
    match text {
        [] => Err(NumberError::NotANumber),
        [b'0', b'x', _, ..] => digits(&text[2..], 16),
        _ => digits(text, 10),
    }
}
