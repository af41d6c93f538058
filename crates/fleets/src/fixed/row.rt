// A row of a table of fixed schedules.
ghost use Rattle.std.specs.Prelude.{◌≡◌, ℕ, ◌<◌, ◌≤◌, length, pos, neg_ℤ, ◌*ℤ◌};
ghost use Rattle.market.specs.Scans.{InBefore, Within, at};
ghost use Rattle.market.specs.Totals.{total};
ghost use Rattle.kinds.specs.Fixed.{is_test};
ghost use Rattle.kinds.proofs.FixedRows.{nothing_small};

use crate::judging::AlwaysRuns;
use measures::{Grains, NetPrice, Tenths};

// The outputs that it has, a cell for each period.
#[derive(Clone, Copy)]
pub(crate) struct Row<'a> {
    pub outputs: &'a [i32],
    ghost few: { length outputs.now ≤ 96 },
    ghost fits: { InBefore (neg_ℤ (pos 20000)) (pos 20000) outputs.now (length outputs.now) },
}

impl Row<'_> {
    // What the outputs earn at the net prices.
    pub(crate) fn earned(&self, net: &[i64]) -> Grains
        requires long { length net.now ≡ length self.now.outputs.now }
        requires limits { (t : ℕ) → t < length self.now.outputs.now → Within 17000000000 (at net.now t) }
        ensures { result.0 ≡ total (length self.now.outputs.now) (λ t. at net.now t *ℤ at self.now.outputs.now t) }
    {
        let mut all = Grains(0);
        for (price, output) in net.iter().zip(self.outputs) {
            all = all + NetPrice(*price) * Tenths(*output);
        }
        all
    }
}

impl AlwaysRuns for Row<'_> {
    ghost periods = { λ row. length row.outputs.now };

    ghost allows = { λ row period output. is_test (at row.outputs.now period) output };

    ghost cost = { λ row output. pos 0 };

    fn allows(&self, period: usize, output: Tenths) -> bool {
        output == Tenths(self.outputs[period])
    }

    fn cost(&self, _output: Tenths) -> Grains {
        Grains(0)
    }

    ghost few = { λ row. row.few };

    ghost small = { λ row output. nothing_small };
}
