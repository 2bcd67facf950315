// The parts of a segment in lent memory: its pattern, its references and its symbols, made from the contents and the
// public definitions that are met along links.
#![tactic(auto)]

pub mod carried;
pub mod merge;
pub mod patterns;
pub mod references;
pub mod symbols;
pub mod symbols_by_offset;
