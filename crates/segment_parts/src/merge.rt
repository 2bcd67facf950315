// Contents are merged into pattern memory: the masks of a content, and bytes or masks ORed into a segment's part of the memory.
pub mod masks;
pub mod stretch;
