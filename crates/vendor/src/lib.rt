// Reads a vendor's file: rows of plan outputs and prices, checked whole and then written into lent tables.
#![tactic(auto)]

mod faults;
mod numbers;
mod reader;
mod rows;
mod tables;

pub use faults::{FieldFault, FileFault, RowFault};
pub use numbers::parse;
pub use reader::Reader;
pub use rows::{Entry, Row, Shape};
pub use tables::{Cells, Counts, Tables, read};
