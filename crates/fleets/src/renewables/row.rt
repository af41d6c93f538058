// A row of a table of renewable stations.
ghost use Rattle.std.specs.Prelude.{◌≡◌, ℕ, ◌<◌, ◌≤◌, length, pos};
ghost use Rattle.std.specs.Int.{int_min};
ghost use Rattle.measures.specs.Amounts.{grains};
ghost use Rattle.market.specs.Scans.{Within, UpTo, at, in_test};
ghost use Rattle.market.specs.Totals.{total};
ghost use Rattle.kinds.specs.Curves.{highest, net_cost, running_cost};
ghost use Rattle.kinds.specs.Leasts.{least_over};
ghost use Rattle.kinds.specs.Renewables.{RowFits, most_of, least_of};
ghost use Rattle.kinds.proofs.CurveTests.{made_so};
ghost use Rattle.kinds.proofs.Segments.{running_cost_within};

use crate::judging::AlwaysRuns;
use kinds::Curve;
use measures::{Grains, NetPrice, Tenths};

// Its curve, and the power that is available to it, a cell for each period.
#[derive(Clone, Copy)]
pub(crate) struct Row<'a> {
    pub curve: Curve,
    pub available: &'a [i32],
    ghost few: { length available.now ≤ 96 },
    ghost fits: { RowFits curve.numbers available.now },
}

impl Row<'_> {
    // The most that the row may feed in where so much power is available.
    fn most(&self, power: Tenths) -> Tenths
        ensures { result.0 ≡ int_min power.0 (highest self.now.curve.numbers) }
    {
        power.min(self.curve.highest())
    }

    // The least of running cost less worth over the outputs that the row may have where so much power is available.
    fn least(&self, power: Tenths, value: NetPrice) -> Grains
        requires power { UpTo 20000 power.0 }
        requires limit { Within 17000000000 value.0 }
        ensures { result.0 ≡ least_over (pos 0) (int_min power.0 (highest self.now.curve.numbers)) (net_cost self.now.curve.numbers value.0) }
    {
        self.curve
            .least(value, Tenths(0), self.most(power))
            .unwrap()
    }

    // The leasts of the periods at the net prices.
    pub(crate) fn leasts(&self, net: &[i64]) -> Grains
        requires long { length net.now ≡ length self.now.available.now }
        requires limits { (t : ℕ) → t < length self.now.available.now → Within 17000000000 (at net.now t) }
        ensures { result ≡ grains (total (length self.now.available.now) (λ t. least_of self.now.curve.numbers self.now.available.now t (at net.now t))) }
    {
        let mut all = Grains(0);
        for (price, power) in net.iter().zip(self.available) {
            all = all + self.least(Tenths(*power), NetPrice(*price));
        }
        all
    }
}

impl AlwaysRuns for Row<'_> {
    ghost periods = { λ row. length row.available.now };

    ghost allows = { λ row period output. in_test (pos 0) (most_of row.curve.numbers row.available.now period) output };

    ghost cost = { λ row output. running_cost row.curve.numbers output };

    fn allows(&self, period: usize, output: Tenths) -> bool {
        Tenths(0) <= output && output <= self.most(Tenths(self.available[period]))
    }

    fn cost(&self, output: Tenths) -> Grains {
        self.curve.running_cost(output)
    }

    ghost few = { λ row. row.few };

    ghost small = { λ row output. running_cost_within row.curve.numbers (made_so row.curve.numbers row.curve.made) output };
}
