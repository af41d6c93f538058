// What numbers are refused with as those of a curve.
ghost use Rattle.kinds.specs.Faults.{curve_number};

use market::Fault;

#[derive(Clone, Copy, PartialEq, Eq, Debug)]
pub enum CurveFault {
    // It has not 1 to 10 segments.
    Count,
    // An end or a price is out of its range.
    Range,
    // An end is not above the one before it, or a price is below the one before it.
    Order,
}

impl Fault for CurveFault {
    ghost number = { curve_number };

    ghost place = { λ _. 0 };

    ghost period = { λ _. 0 };

    fn number(&self) -> u8 {
        match self {
            CurveFault::Count => 2,
            CurveFault::Range => 5,
            CurveFault::Order => 7,
        }
    }

    fn place(&self) -> usize {
        0
    }

    fn period(&self) -> usize {
        0
    }
}
