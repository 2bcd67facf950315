// The ids of a module's contents and public definitions, and the places at which they are read again.
pub mod publics;
pub mod sections;
