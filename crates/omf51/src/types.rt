// What may stand at a place: a record of one type, a record among a module's definitions, a content, fixups of a
// content, or a record that is skipped among contents.
#[derive(Clone, Copy, Debug, PartialEq, Eq)]
pub enum Allowed {
    One(u8),
    Definitions,
    Contents,
    Fixups,
    Idle,
}
