// What is wrong with a file: the fault of a field inside that of its row, inside that of the file.
ghost use Rattle.std.specs.Prelude.{◌≡◌, Some};
ghost use Rattle.vendor.specs.declared.faults.RowFault.TheVariants.{Field};
ghost use Rattle.vendor.specs.Faults.{number_of, row_of, field_of, number_of_row, text_of};

use std::error::Error;
use std::fmt;

// A field, counted from 1 in its row.
#[derive(Clone, Copy, PartialEq, Eq, Debug)]
pub enum FieldFault {
    Malformed { field: usize },
    OutOfRange { field: usize },
}

#[derive(Clone, Copy, PartialEq, Eq, Debug)]
pub enum RowFault {
    Unended,
    UnknownLetter,
    FieldCount,
    Field(FieldFault),
    OutOfOrder,
}

// `Whole`: the size told or a table's length is not right, so no row was looked at. A row is counted from 1.
#[derive(Clone, Copy, PartialEq, Eq, Debug)]
pub enum FileFault {
    Whole,
    Row { row: usize, fault: RowFault },
}

impl From<FieldFault> for RowFault {
    ghost from_gives = { λ fault row. row ≡ Field fault };

    fn from(fault: FieldFault) -> RowFault {
        RowFault::Field(fault)
    }
}

impl RowFault {
    fn number(&self) -> u8
        ensures { result ≡ number_of_row self.now }
    {
        match self {
            RowFault::UnknownLetter => 22,
            RowFault::FieldCount => 23,
            RowFault::Field(_) => 24,
            RowFault::OutOfOrder => 25,
            RowFault::Unended => 26,
        }
    }
}

// Numbers are told as solvers read them: 0 where there is none.
impl FileFault {
    // The number that the fault is printed with.
    pub fn number(&self) -> u8
        ensures { result ≡ number_of self.now }
    {
        match self {
            FileFault::Whole => 8,
            FileFault::Row { fault, .. } => fault.number(),
        }
    }

    // The row at fault, from 1; 0 where it is the whole file.
    pub fn row(&self) -> usize
        ensures { result ≡ row_of self.now }
    {
        match self {
            FileFault::Whole => 0,
            FileFault::Row { row, .. } => *row,
        }
    }

    // The field at fault, from 1; 0 where it is the row or the whole file.
    pub fn field(&self) -> usize
        ensures { result ≡ field_of self.now }
    {
        match self {
            FileFault::Row {
                fault: RowFault::Field(
                    FieldFault::Malformed { field } | FieldFault::OutOfRange { field },
                ),
                ..
            } => *field,
            _ => 0,
        }
    }
}

// As programs print it: number, row and field.
impl fmt::Display for FileFault {
    ghost output = { λ fault. Some (text_of fault) };

    fn fmt<W: fmt::Write>(&self, f: &mut fmt::Formatter<W>) -> fmt::Result {
        write!(f, "{};{};{}", self.number(), self.row(), self.field())
    }
}

impl Error for FileFault {}
