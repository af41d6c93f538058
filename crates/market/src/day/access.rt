// A day's numbers by node, line and period; periods count from 1.
ghost use Rattle.std.specs.Prelude.{◌≡◌, length};
ghost use Rattle.market.specs.Access.{load_told, factor_told, limit_told};
ghost use Rattle.market.specs.Days.{numbers_of};

use crate::day::Day;
use measures::{Factor, Tenths};

// A line's limit, of a table with a cell for each line.
fn limit(table: &[i32], line: usize) -> Option<Tenths>
    ensures { result ≡ limit_told table.now (length table.now) line }
{
    table.get(line).copied().map(Tenths::from)
}

impl Day<'_> {
    pub fn load(&self, node: usize, period: usize) -> Option<Tenths>
        ensures { result ≡ load_told (numbers_of self.now.numbers) node period }
    {
        let day = self.numbers;
        let has = node < day.nodes && (1 <= period && period <= day.periods);
        has.then(|| Tenths(day.loads[node * day.periods + (period - 1)]))
    }

    // The share of what is fed in at the node that flows over the line.
    pub fn factor(&self, line: usize, node: usize) -> Option<Factor>
        ensures { result ≡ factor_told (numbers_of self.now.numbers) line node }
    {
        let day = self.numbers;
        let has = line < day.lines && node < day.nodes;
        has.then(|| Factor(day.factors[line * day.nodes + node]))
    }

    pub fn lower(&self, line: usize) -> Option<Tenths>
        ensures { result ≡ limit_told (numbers_of self.now.numbers).lower self.now.numbers.lines line }
    {
        limit(self.numbers.lower, line)
    }

    pub fn upper(&self, line: usize) -> Option<Tenths>
        ensures { result ≡ limit_told (numbers_of self.now.numbers).upper self.now.numbers.lines line }
    {
        limit(self.numbers.upper, line)
    }
}
