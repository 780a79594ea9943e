// The lengths of areas to lend.
// Room for eight tables.
pub(crate) const TABLES_LENGTH: usize = 8256;

// Room for as many actions as a list of 65,535 bytes has.
pub(crate) const LIST_LENGTH: usize = 32768;

// Room for what is told at once, and for a word of the command.
pub(crate) const TEXT_LENGTH: usize = 4096;
