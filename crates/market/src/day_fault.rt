// What the numbers of a day are refused for.
ghost use Rattle.market.specs.Faults.{day_number, day_place, day_period};

use crate::fault::Fault;

#[derive(Clone, Copy, PartialEq, Eq, Debug)]
pub enum DayFault {
    // Periods, nodes or lines are out of range.
    Shape,
    // A list has not its length.
    Lengths,
    // A load is out of range; periods count from 1.
    Load { node: usize, period: usize },
    // A factor of the line is out of range.
    Factor { line: usize },
    // The line's lower limit, or its upper one, is out of range.
    Lower { line: usize },
    Upper { line: usize },
    // The line's lower limit is above its upper one.
    Crossed { line: usize },
}

impl Fault for DayFault {
    ghost number = { day_number };

    ghost place = { day_place };

    ghost period = { day_period };

    fn number(&self) -> u8 {
        match self {
            DayFault::Shape => 1,
            DayFault::Lengths => 2,
            _ => 3,
        }
    }

    fn place(&self) -> usize {
        match *self {
            DayFault::Shape | DayFault::Lengths => 0,
            DayFault::Load { node, .. } => node,
            DayFault::Factor { line }
            | DayFault::Lower { line }
            | DayFault::Upper { line }
            | DayFault::Crossed { line } => line,
        }
    }

    fn period(&self) -> usize {
        match *self {
            DayFault::Load { period, .. } => period,
            _ => 0,
        }
    }
}
