// Tables in lent memory: rows that are put until there is no room, tables of zeros, the places of one key by links, and
// rows that are found by key and name.
#![tactic(auto)]

pub mod by_name;
pub mod fill;
pub mod links;
pub mod zeros;
