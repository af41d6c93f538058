// The first two questions of a table of rows: its periods, and how many rows it has.
ghost use Rattle.std.specs.Prelude.{◌≡◌};
ghost use Rattle.kinds.specs.Tables.{rows_told};

use crate::table_fault::TableFault;

pub const MOST_PERIODS: usize = 96;

pub const MOST_ROWS: usize = 32;

// Whether it has 1 to 96 periods, and then at most 32 rows.
pub fn rows_fit(periods: usize, rows: usize) -> Result<(), TableFault>
    ensures { result ≡ rows_told periods rows }
{
    if !(1..=MOST_PERIODS).contains(&periods) {
        return Err(TableFault::Periods);
    }
    if rows > MOST_ROWS {
        return Err(TableFault::Sizes);
    }
    Ok(())
}
