// A table of thermal units.
ghost use Rattle.std.specs.Prelude.{◌≡◌, true};
ghost use Rattle.kinds.specs.ThermalTables.{made_test, table};

use kinds::ThermalUnit;

// A record for each unit, which the caller holds.
#[derive(Clone, Copy)]
pub struct Thermal<'a> {
    pub periods: usize,
    pub units: &'a [ThermalUnit],
    ghost made: { made_test (table periods units.now) ≡ true },
}
