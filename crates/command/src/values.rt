// The values of the options that are numbers, or words for numbers. Each is word i, or a part of it.
ghost use Rattle.std.specs.Prelude.{◌≡◌};
ghost use Rattle.command.specs.Values.{number_read, number_value, rules_value};

use crate::mistake::{Fault, Mistake};
use crate::number::number_in;
use crate::words::is_too_long;
use lent::names::same;

// The number of a text that is word i, or a part of it.
#[tactic(auto, unfolding(crate::specs::Values::number_read))]
pub fn read_number(text: &[u8], i: usize) -> Result<u64, Mistake>
    ensures { result ≡ number_read text.now i }
{
    match number_in(text) {
        Ok(n) => Ok(n),
        Err(e) => Err(Fault::from(e).at(i)),
    }
}

#[tactic(auto, unfolding(crate::specs::Values::number_value))]
pub fn number_value(word: &[u8], i: usize) -> Result<u64, Mistake>
    ensures { result ≡ number_value word.now i }
{
    if is_too_long(word) {
        return Err(Fault::TooLong.at(i));
    }
    read_number(word, i)
}

// The rule set's number.
#[tactic(auto, unfolding(crate::specs::Values::rules_value))]
pub fn rules_value(word: &[u8], i: usize) -> Result<u64, Mistake>
    ensures { result ≡ rules_value word.now i }
{
    if is_too_long(word) {
        return Err(Fault::TooLong.at(i));
    }
    if same(word, b"found") {
        return Ok(0);
    }
    if same(word, b"documented") {
        return Ok(1);
    }
    Err(Fault::NoSuchRules.at(i))
}
