// Which entries a body holds, and the name in a module's header or end.
use lent::part::Part;

// Which entries the records at hand hold. It is a value, and no closure that reads them, since definitions and laws speak
// of it too.
#[derive(Clone, Copy, Debug, PartialEq, Eq)]
pub enum Entries {
    Definitions,
    Fixups,
}

// A header or end that was read: its name, and the place after its record.
#[derive(Clone, Copy)]
pub struct Named {
    pub name: Part,
    pub next: usize,
}
