// The column table of document 01, which the C drawing program indexes. The definitions are specs/Columns.antt.
#![tactic(auto)]

pub mod entries; // entries.rt: what is read from the table
mod table; // table.rt: the numbers of the table
