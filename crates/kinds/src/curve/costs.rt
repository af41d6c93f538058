// What running costs along a curve, and the least of it less what the output is worth.
ghost use Rattle.std.specs.Prelude.{◌≡◌, ◌<◌, true, pos, ◌*ℤ◌, IfSome};
ghost use Rattle.measures.specs.Amounts.{grains};
ghost use Rattle.kinds.specs.Curves.{price, below, running_cost, net_cost, lowest, highest, asked_test, fall, least_told};
ghost use Rattle.kinds.specs.Leasts.{Least, least_over};

use crate::curve::Curve;
use measures::{Fen, Grains, NetPrice, Tenths};

const MOST_VALUE: i64 = 20_000_000_000;

// A segment goes by its number, which names its two ends and its price: pairs of ends joined to prices would be no plainer.
#[derive(Clone, Copy)]
struct Segment<'a> {
    pub curve: &'a Curve,
    pub number: usize,
    ghost within: { number < curve.now.numbers.segments },
}

// The outputs from low to high, which lie on the curve, and what a tenth of a megawatt is worth there.
#[derive(Clone, Copy)]
struct Span<'a> {
    pub curve: &'a Curve,
    pub value: NetPrice,
    pub low: Tenths,
    pub high: Tenths,
    ghost asked: { asked_test curve.now.numbers value.0 low.0 high.0 ≡ true },
}

impl Segment<'_> {
    // What its price comes to on each tenth of a megawatt.
    fn net_price(&self) -> NetPrice
        ensures { result.0 ≡ pos 1000 *ℤ price self.now.curve.now.numbers self.now.number }
    {
        Fen(self.curve.numbers.prices[self.number]).net()
    }

    // The part of it that lies below an output.
    fn below(&self, output: Tenths) -> Tenths
        ensures { result.0 ≡ below self.now.curve.now.numbers self.now.number output.0 }
    {
        let from = self.curve.numbers.ends[self.number];
        let to = self.curve.numbers.ends[self.number + 1];
        Tenths(output.0.clamp(from, to) - from)
    }

    // What it takes off the cost less worth over the span, where each tenth in it takes off something.
    fn fall(&self, span: &Span) -> Grains
        ensures { result.0 ≡ fall self.now.curve.now.numbers span.now.value.0 span.now.low.0 span.now.high.0 self.now.number }
    {
        let slope = self.net_price() - span.value;
        let taken = slope * (self.below(span.high) - self.below(span.low));
        taken.min(Grains(0))
    }
}

impl Span<'_> {
    // The value at the low end, and what each segment takes off from there.
    fn lowered(&self) -> Grains
        ensures told { result ≡ grains (least_over self.now.low.0 self.now.high.0 (net_cost self.now.curve.now.numbers self.now.value.0)) }
        ensures least { Least self.now.low.0 self.now.high.0 (net_cost self.now.curve.now.numbers self.now.value.0) result.0 }
    {
        let curve = self.curve;
        let mut least = curve.running_cost(self.low) - self.value * self.low;
        for number in 0..curve.numbers.segments {
            least = least + Segment { curve, number }.fall(self);
        }
        least
    }
}

impl Curve {
    pub fn lowest(&self) -> Tenths
        ensures { result.0 ≡ lowest self.now.numbers }
    {
        Tenths(self.numbers.ends[0])
    }

    pub fn highest(&self) -> Tenths
        ensures { result.0 ≡ highest self.now.numbers }
    {
        Tenths(self.numbers.ends[self.numbers.segments])
    }

    // The first price up to the first end, and each segment's price on its part below the output.
    fn cost_below(&self, output: Tenths) -> Grains
        ensures { result.0 ≡ running_cost self.now.numbers output.0 }
    {
        let curve = self;
        let mut cost = Segment { curve, number: 0 }.net_price() * self.lowest();
        for number in 0..self.numbers.segments {
            let segment = Segment { curve, number };
            cost = cost + segment.net_price() * segment.below(output);
        }
        cost
    }

    // What running at an output costs in a period, for every output: what lies outside the curve counts for nothing.
    // Thin over a private function, so that an edit that must fail is refused for the fact and not for its answers' file.
    pub fn running_cost(&self, output: Tenths) -> Grains
        ensures { result.0 ≡ running_cost self.now.numbers output.0 }
    {
        self.cost_below(output)
    }

    // Whether the least can be asked for. In brackets as its contract has them: without, the search finds no proof.
    fn asked(&self, value: NetPrice, low: Tenths, high: Tenths) -> bool
        ensures { result ≡ asked_test self.now.numbers value.0 low.0 high.0 }
    {
        (-MOST_VALUE..=MOST_VALUE).contains(&value.0)
            && (self.lowest() <= low && (low <= high && high <= self.highest()))
    }

    // The least of running cost less worth over every output from low to high, where a tenth of a megawatt is worth the value.
    pub fn least(&self, value: NetPrice, low: Tenths, high: Tenths) -> Option<Grains>
        ensures told { result ≡ least_told self.now.numbers value.0 low.0 high.0 }
        ensures least { IfSome result (λ z. Least low.0 high.0 (net_cost self.now.numbers value.0) z.0) }
    {
        if self.asked(value, low, high) {
            let curve = self;
            let span = Span {
                curve,
                value,
                low,
                high,
            };
            Some(span.lowered())
        } else {
            None
        }
    }
}
