// What the rule set says of the symbols of absolute contents.
ghost use Rattle.std.specs.Prelude.{◌≡◌};
ghost use Rattle.collect.specs.stored.Segments.{own_by};

use image::fixup::Rules;

// Whether a symbol of an absolute content is placed at its own address: under rule set 1, as documented, its offset
// counts from the content's start.
pub fn is_own(rules: Rules) -> bool
    ensures { result ≡ own_by rules }
{
    matches!(rules, Rules::Documented)
}
