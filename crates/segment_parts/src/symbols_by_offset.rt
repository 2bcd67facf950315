// The public definitions of id 0 by their offsets: those inside an absolute content are found without looking at all of them.
pub mod flags;
pub mod names;
