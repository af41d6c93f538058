// Making a table of fixed schedules: its questions in order.
ghost use Rattle.std.specs.Prelude.{◌≡◌, is_ok, if◌then◌else◌, MatchResult};
ghost use Rattle.kinds.specs.Fixed.{table, no_rows, Made, Fits, Refused};
ghost use Rattle.fleets.specs.Held.{rows_of};

use crate::fixed::Fixed;
use crate::tables::shape_fits;
use kinds::TableFault;
use market::outside;

const MOST_OUTPUT: i32 = 20_000;

// The first question that has the answer no.
fn first_no(periods: usize, nodes: &[usize], outputs: &[i32]) -> Result<(), TableFault>
    ensures { MatchResult result (λ _. Fits (table periods nodes.now outputs.now)) (λ e. Refused (table periods nodes.now outputs.now) e) }
{
    shape_fits(periods, nodes.len(), outputs.len())?;
    match outside(outputs, -MOST_OUTPUT, MOST_OUTPUT) {
        Some(cell) => Err(TableFault::Cell {
            row: cell / periods,
            period: cell % periods + 1,
        }),
        None => Ok(()),
    }
}

impl<'a> Fixed<'a> {
    // A table of one period and no row. A place for `make` to fill. Both stand for each kind: one for all would need one struct for all tables.
    pub fn none() -> Fixed<'a>
        ensures { rows_of result ≡ no_rows }
    {
        Fixed {
            periods: 1,
            nodes: &[],
            outputs: &[],
        }
    }

    // Fills the place with a table of these rows, or tells the first no and leaves it as it was.
    pub fn make(
        &mut self,
        periods: usize,
        nodes: &'a [usize],
        outputs: &'a [i32],
    ) -> Result<(), TableFault>
        ensures answer { MatchResult result (λ _. Made (table periods nodes.now outputs.now)) (λ e. Refused (table periods nodes.now outputs.now) e) }
        ensures held { rows_of self.new ≡ (if is_ok result then table periods nodes.now outputs.now else rows_of self.old) }
    {
        first_no(periods, nodes, outputs)?;
        *self = Fixed {
            periods,
            nodes,
            outputs,
        };
        Ok(())
    }
}
