// The segments of one module: its kept segments, and then its absolute contents.
pub mod both;
pub mod part;

use library::Places;

// A module that is to be stored: where its parts stand, and whether the symbols of its absolute contents keep their own
// addresses (see `is_own`).
#[derive(Clone, Copy)]
pub struct ModuleTask {
    pub at: Places,
    pub own: bool,
}
