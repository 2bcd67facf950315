// The segments of all modules of a library are stored, one module after another, in tables that are lent.
pub mod all;
pub mod module;
