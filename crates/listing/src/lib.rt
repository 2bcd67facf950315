// The list of the names that a search placed and noted: those at positions of the image, and then those past its end.
#![tactic(auto)]

pub mod all_rows;
mod bare;
pub mod entry;
pub mod grade;
pub mod inside;
pub mod order;
pub mod past_end;
pub mod position;

// What a search left, and what it looked for: the library, the first n segments with their references, the rows of
// placed symbols and of noted names, and the heads of their buckets.
// The image stands beside it: as a field of this struct the run takes 1 % more instructions on zeros-referring.
#[derive(Clone, Copy)]
pub struct Found<'a> {
    pub library: &'a [u8],
    pub segments: &'a [u64],
    pub n: usize,
    pub references: &'a [u64],
    pub placed: &'a [u64],
    pub positions: &'a [u32],
    pub noted: &'a [u64],
    pub goals: &'a [u32],
}

// How many rows the search wrote, and how many lines the list.
#[derive(Clone, Copy)]
pub struct FindCounts {
    pub placed: usize,
    pub noted: usize,
    pub lines: usize,
}
