// Fixed schedules: rows whose output is told beforehand.
mod answering;
mod making;
mod row;

ghost use Rattle.std.specs.Prelude.{◌≡◌, true};
ghost use Rattle.kinds.specs.Fixed.{made_test, table};

// A node for each row, and an output for each row and period, row by row, in tenths of a megawatt.
#[derive(Clone, Copy)]
pub struct Fixed<'a> {
    pub periods: usize,
    pub nodes: &'a [usize],
    pub outputs: &'a [i32],
    ghost made: { made_test (table periods nodes.now outputs.now) ≡ true },
}
