// What a table of rows is refused with.
ghost use Rattle.kinds.specs.Faults.{table_number, table_place, table_period};

use crate::curve_fault::CurveFault;
use market::Fault;

#[derive(Clone, Copy, PartialEq, Eq, Debug)]
pub enum TableFault {
    // It has not 1 to 96 periods.
    Periods,
    // It has more than 32 rows, or not a cell for each row and period.
    Sizes,
    // A row's curve is not one.
    Curve { row: usize, fault: CurveFault },
    // Another number of a row is out of its range.
    Row { row: usize },
    // A row's number in a period is out of its range; periods count from 1 here.
    Cell { row: usize, period: usize },
}

impl Fault for TableFault {
    ghost number = { table_number };

    ghost place = { table_place };

    ghost period = { table_period };

    fn number(&self) -> u8 {
        match self {
            TableFault::Periods => 1,
            TableFault::Sizes => 2,
            TableFault::Curve { fault, .. } => fault.number(),
            TableFault::Row { .. } | TableFault::Cell { .. } => 5,
        }
    }

    fn place(&self) -> usize {
        match *self {
            TableFault::Periods | TableFault::Sizes => 0,
            TableFault::Curve { row, .. }
            | TableFault::Row { row }
            | TableFault::Cell { row, .. } => row,
        }
    }

    fn period(&self) -> usize {
        match *self {
            TableFault::Cell { period, .. } => period,
            _ => 0,
        }
    }
}
