// The first two questions of a table of rows: its periods, and its lengths; and a row's part of such a table.
ghost use Rattle.std.specs.Prelude.{◌≡◌, ◌+◌, ◌*◌, ◌≤◌, length};
ghost use Rattle.market.specs.Clearing.{part};
ghost use Rattle.kinds.specs.Tables.{shape_told};

use kinds::{TableFault, rows_fit};

// Whether it has 1 to 96 periods, and then at most 32 rows with a cell for each period.
pub(crate) fn shape_fits(periods: usize, rows: usize, cells: usize) -> Result<(), TableFault>
    ensures { result ≡ shape_told periods rows cells }
{
    rows_fit(periods, rows)?;
    if cells == rows * periods {
        Ok(())
    } else {
        Err(TableFault::Sizes)
    }
}

// A row's part of a table that has a cell for each row and period, row by row.
pub(crate) fn part<T>(table: &[T], row: usize, periods: usize) -> &[T]
    requires { row * periods + periods ≤ length table.now }
    ensures { result.now ≡ part periods row table.now }
{
    let start = row * periods;
    &table[start..start + periods]
}
