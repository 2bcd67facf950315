// The places of each byte in an image, by links, and the byte of a masked pattern whose links are followed.
pub mod anchor;
pub mod index;
