// What a plan or a price set is refused for.
ghost use Rattle.std.specs.Prelude.{Some};
ghost use Rattle.market.specs.Faults.{number_of, place_of, period_of, text_of};

use crate::broken::Broken;
use crate::fault::Fault;
use crate::label::label_of;
use std::fmt;

// Periods count from 1.
#[derive(Clone, Copy, PartialEq, Eq, Debug)]
pub enum Refusal {
    // The fleet has not the day's periods, or not 1 to 32 rows.
    Misfit,
    // The row stands at no node of the day.
    Node { row: usize },
    // A list has not its length.
    Lengths,
    // The row's schedule breaks a rule of its own.
    Row { row: usize, broken: Broken },
    // The outputs do not add to the loads.
    Balance { period: usize },
    // The flow over the line passes its upper limit, or falls below its lower one.
    Upper { line: usize, period: usize },
    Lower { line: usize, period: usize },
    // A price is outside its limits: one of a line or of a row, or a system price, which names no place.
    Price { place: usize, period: usize },
}

impl Fault for Refusal {
    ghost number = { number_of };

    ghost place = { place_of };

    ghost period = { period_of };

    fn number(&self) -> u8 {
        match self {
            Refusal::Misfit => 4,
            Refusal::Node { .. } => 6,
            Refusal::Lengths => 8,
            Refusal::Row { broken, .. } => broken.rule,
            Refusal::Balance { .. } => 16,
            Refusal::Upper { .. } => 17,
            Refusal::Lower { .. } => 18,
            Refusal::Price { .. } => 19,
        }
    }

    fn place(&self) -> usize {
        match *self {
            Refusal::Misfit | Refusal::Lengths | Refusal::Balance { .. } => 0,
            Refusal::Node { row } | Refusal::Row { row, .. } => row,
            Refusal::Upper { line, .. } | Refusal::Lower { line, .. } => line,
            Refusal::Price { place, .. } => place,
        }
    }

    fn period(&self) -> usize {
        match *self {
            Refusal::Misfit | Refusal::Node { .. } | Refusal::Lengths => 0,
            Refusal::Row { broken, .. } => broken.period,
            Refusal::Balance { period }
            | Refusal::Upper { period, .. }
            | Refusal::Lower { period, .. }
            | Refusal::Price { period, .. } => period,
        }
    }
}

// The number, the place, and the label of the period, or a dash where there is none.
impl fmt::Display for Refusal {
    ghost output = { λ refusal. Some (text_of refusal) };

    fn fmt<W: fmt::Write>(&self, f: &mut fmt::Formatter<W>) -> fmt::Result {
        match label_of(self.period()) {
            Some(label) => write!(f, "{};{};{}", self.number(), self.place(), label),
            None => write!(f, "{};{};-", self.number(), self.place()),
        }
    }
}
