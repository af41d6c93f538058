// A day whose numbers are in range.
mod access;
mod making;

ghost use Rattle.std.specs.Prelude.{◌≡◌, true};
ghost use Rattle.market.specs.Days.{made_test, numbers_of};

use crate::numbers::DayNumbers;

#[derive(Clone, Copy)]
pub struct Day<'a> {
    pub numbers: DayNumbers<'a>,
    ghost made: { made_test (numbers_of numbers) ≡ true },
}
