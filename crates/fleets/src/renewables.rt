// Renewable stations: rows whose output is limited by the power that is available.
mod answering;
mod making;
mod row;

ghost use Rattle.std.specs.Prelude.{◌≡◌, true};
ghost use Rattle.kinds.specs.Renewables.{made_test, table};

use kinds::Station;

// A station for each row, and its available power for each row and period, row by row, in tenths of a megawatt.
#[derive(Clone, Copy)]
pub struct Renewables<'a> {
    pub periods: usize,
    pub stations: &'a [Station],
    pub available: &'a [i32],
    ghost made: { made_test (table periods stations.now available.now) ≡ true },
}
