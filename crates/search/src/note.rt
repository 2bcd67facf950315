// The references of a match: the first that fails, and the names that they note in lent memory.
pub mod name;
pub mod refer;

use search_rules::Failure;
use tables::fill::Fill;

// Which of the references that were gone over fails first, if one does, and how far the rows of noted names are filled after them.
#[derive(Clone, Copy)]
pub struct Referred {
    pub failed: Result<(), Failure>,
    pub fill: Fill,
}
