// The rules of the list: graded names by address.
#![tactic(auto)]

ghost use Rattle.std.specs.Prelude.{◌≡◌};
ghost use Rattle.listing_rules.specs.Listing.{crowded};

pub mod rows;

use lent::part::Part;

// A line of the list: an address, the grade of a name there, and the name.
#[derive(Clone, Copy)]
pub struct Line {
    pub address: u64,
    pub grade: u8,
    pub name: Part,
}

// Whether n names are more than the skip amount: a position with more names than this is left out of the list.
pub fn is_crowded(skip: Option<usize>, n: usize) -> bool
    ensures { result ≡ crowded skip n }
{
    skip.is_some_and(|amount| amount < n)
}
