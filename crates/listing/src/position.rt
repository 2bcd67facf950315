// The lines of a position: its names of the best grade, in byte order.
pub mod best_lines;
pub mod lines;
pub mod noted;
pub mod placed;

// How many lines of the position have the best grade so far, and that grade.
#[derive(Clone, Copy)]
pub struct Best {
    pub count: usize,
    pub grade: u8,
}
