// The label of a period: the time at its end, 00:15 for period 1 to 24:00 for period 96.
ghost use Rattle.std.specs.Prelude.{◌≡◌, ◌*◌, ◌/◌, ◌%◌, ◌≤◌, Some};
ghost use Rattle.market.specs.Labels.{label, label_text};

use crate::numbers::MOST_PERIODS;
use std::fmt;

#[derive(Clone, Copy, PartialEq, Eq, Debug)]
pub struct Label {
    pub hour: u8,
    pub minute: u8,
}

// Two digits each, with a colon between them.
impl fmt::Display for Label {
    ghost output = { λ label. Some (label_text label) };

    #[tactic(auto, using(crate::proofs::Labels::hole_of_two))]
    fn fmt<W: fmt::Write>(&self, f: &mut fmt::Formatter<W>) -> fmt::Result {
        let Label { hour, minute } = *self;
        write!(f, "{hour:02}:{minute:02}")
    }
}

// Two tables of numbers: one of 96 labels was tried, and the check takes it apart entry by entry, so that its rule is not computed.
const HOURS: [u8; MOST_PERIODS] = [
    0, 0, 0, 1, 1, 1, 1, 2, 2, 2, 2, 3, 3, 3, 3, 4, 4, 4, 4, 5, 5, 5, 5, 6, 6, 6, 6, 7, 7, 7, 7, 8,
    8, 8, 8, 9, 9, 9, 9, 10, 10, 10, 10, 11, 11, 11, 11, 12, 12, 12, 12, 13, 13, 13, 13, 14, 14,
    14, 14, 15, 15, 15, 15, 16, 16, 16, 16, 17, 17, 17, 17, 18, 18, 18, 18, 19, 19, 19, 19, 20, 20,
    20, 20, 21, 21, 21, 21, 22, 22, 22, 22, 23, 23, 23, 23, 24,
];

const MINUTES: [u8; MOST_PERIODS] = [
    15, 30, 45, 0, 15, 30, 45, 0, 15, 30, 45, 0, 15, 30, 45, 0, 15, 30, 45, 0, 15, 30, 45, 0, 15,
    30, 45, 0, 15, 30, 45, 0, 15, 30, 45, 0, 15, 30, 45, 0, 15, 30, 45, 0, 15, 30, 45, 0, 15, 30,
    45, 0, 15, 30, 45, 0, 15, 30, 45, 0, 15, 30, 45, 0, 15, 30, 45, 0, 15, 30, 45, 0, 15, 30, 45,
    0, 15, 30, 45, 0, 15, 30, 45, 0, 15, 30, 45, 0, 15, 30, 45, 0, 15, 30, 45, 0,
];

fn hour(period: usize) -> u8
    requires { (1 ≤ period) × (period ≤ 96) }
    ensures { result ≡ 15 * period / 60 }
{
    HOURS[period - 1]
}

fn minute(period: usize) -> u8
    requires { (1 ≤ period) × (period ≤ 96) }
    ensures { result ≡ 15 * period % 60 }
{
    MINUTES[period - 1]
}

// The label of a period of a day, or `None` for any other number: Option and no TryFrom, since there is one no, and it has no name.
pub fn label_of(period: usize) -> Option<Label>
    ensures { result ≡ label period }
{
    if period < 1 || period > MOST_PERIODS {
        return None;
    }
    Some(Label {
        hour: hour(period),
        minute: minute(period),
    })
}
