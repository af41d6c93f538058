// The first cell of a table that is out of its range.
ghost use Rattle.std.specs.Prelude.{◌≡◌, ◌||◌};
ghost use Rattle.std.specs.List.{position};
ghost use Rattle.std.specs.Ordering.{partial_lt, partial_gt};
ghost use Rattle.market.specs.Scans.{Outside};

// By the order of the cells' own type, so that one scan serves tables of both widths.
pub(crate) fn first_outside<T: Copy + PartialOrd>(table: &[T], low: T, high: T) -> Option<usize>
    ensures { result ≡ position (λ x. partial_lt T.partial_cmp x low || partial_gt T.partial_cmp x high) table.now }
{
    table.iter().position(|x| *x < low || *x > high)
}

// The same as the crates above read it; a second clause on one function for both would change the name by which their proofs read the first.
fn ranged(table: &[i32], low: i32, high: i32) -> Option<usize>
    ensures { Outside low high table.now result }
{
    first_outside(table, low, high)
}

pub fn outside(table: &[i32], low: i32, high: i32) -> Option<usize>
    ensures { Outside low high table.now result }
{
    ranged(table, low, high)
}
