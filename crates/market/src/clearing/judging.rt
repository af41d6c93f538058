// A plan judged: row by row, and then period by period.
// A period stays a number below the day's: a struct for it would hold the day beside one number.
ghost use Rattle.std.specs.Prelude.{◌≡◌, ℕ, ◌<◌, ◌≤◌, length, ◌*ℤ◌, int_lt};
ghost use Rattle.std.specs.Prelude.{Err, MatchResult};
ghost use Rattle.market.specs.Clearing.{RowsKept, factor, part, row as row_of};
ghost use Rattle.market.specs.Days.{numbers_of};
ghost use Rattle.market.specs.Fleet.{schedule_of};
ghost use Rattle.market.specs.Injections.{Drawn, Fed, flow_of, LinesTold};
ghost use Rattle.market.specs.Judging.{plan_of, Ready, RowsJudged, PeriodTold, Answered, SmallTold, Told};
ghost use Rattle.market.specs.Meanings.{meaning};
ghost use Rattle.market.specs.Scans.{Within, at};
ghost use Rattle.market.specs.Totals.{total};

use crate::day::Day;
use crate::fleet::Fleet;
use crate::lengths::plan_lengths;
use crate::numbers::MOST_NODES;
use crate::placing::place;
use crate::plan::Plan;
use crate::refusal::Refusal;
use crate::schedule::Schedule;
use measures::{Factor, Flow, Grains, Tenths};

// A plan that has its lengths, for a fleet that fits the day. The same struct for bounding a price set stands beside it:
// one over both would hold its fact by a parameter, and is no plainer.
struct Offer<'a, F: Fleet> {
    day: &'a Day<'a>,
    fleet: &'a F,
    plan: &'a Plan<'a>,
    ghost ready: { Ready (numbers_of day.now.numbers) (meaning F.Fleet fleet.now) (plan_of plan.now) },
}

// Nothing is to be given back, whatever the fleet.
impl<F: Fleet> Drop for Offer<'_, F> {
    fn drop(self) {
        let Offer {
            day: _,
            fleet: _,
            plan: _,
        } = self;
    }
}

// What each node draws in a period, below zero, in an array, since judging may not run out of memory. The loads of one period lie a row of the
// table apart, so they are walked by number; `array::from_fn` was tried, and that its closure may be called at every node was not proved.
fn drawn(day: &Day, period: usize) -> [i32; MOST_NODES]
    requires { period < day.now.numbers.periods }
    ensures long { length result ≡ 16 }
    ensures drawn { Drawn (numbers_of day.now.numbers) period result day.now.numbers.nodes }
{
    let periods = day.numbers.periods;
    let mut fed = [0i32; MOST_NODES];
    for node in 0..day.numbers.nodes {
        fed[node] = -day.numbers.loads[node * periods + period];
    }
    fed
}

// What the day's nodes feed in, net, in a period.
#[derive(Clone, Copy)]
struct Injections<'a> {
    day: &'a Day<'a>,
    fed: &'a [i32],
    ghost long: { length fed.now ≡ day.now.numbers.nodes },
    ghost small: { (k : ℕ) → k < day.now.numbers.nodes → Within 680000 (at fed.now k) },
}

// A line's factors, node by node.
fn factors<'a>(day: &Day<'a>, line: usize) -> &'a [i32]
    requires { line < day.now.numbers.lines }
    ensures { result.now ≡ part day.now.numbers.nodes line day.now.numbers.factors.now }
{
    let start = line * day.numbers.nodes;
    &day.numbers.factors[start..start + day.numbers.nodes]
}

// What of the power fed in at a node flows over a line: the whole factor times the power.
fn share(factor: i32, power: i32) -> Flow
    ensures { result.0 ≡ factor *ℤ power }
{
    Factor(factor) * Tenths(power)
}

// Whether a flow is above another. A function of its own, so that an edit that must fail is refused for the fact.
fn exceeds(flow: Flow, other: Flow) -> bool
    ensures { result ≡ int_lt other.0 flow.0 }
{
    flow > other
}

impl Injections<'_> {
    // Of all nodes.
    fn sum(&self) -> Tenths
        ensures { result.0 ≡ total self.now.day.now.numbers.nodes (λ k. at self.now.fed.now k) }
    {
        Tenths(self.fed.iter().sum())
    }

    // What flows over a line: whole factors, summed before anything is compared.
    fn flow(&self, line: usize) -> Flow
        requires { line < self.now.day.now.numbers.lines }
        ensures { result.0 ≡ total self.now.day.now.numbers.nodes (λ k. factor (numbers_of self.now.day.now.numbers) line k *ℤ at self.now.fed.now k) }
    {
        let mut all = Flow(0);
        for (factor, power) in factors(self.day, line).iter().zip(self.fed) {
            all = all + share(*factor, *power);
        }
        all
    }

    // The first line whose limit is broken, the upper limit asked before the lower. The flow is that of a line by its number, so the lines are walked
    // by number too.
    fn lines_asked(&self, period: usize) -> Result<(), Refusal>
        requires { period < 96 }
        ensures { LinesTold (numbers_of self.now.day.now.numbers) (flow_of (numbers_of self.now.day.now.numbers) self.now.fed.now) period result }
    {
        let day = self.day.numbers;
        let period = period + 1;
        for line in 0..day.lines {
            let carried = self.flow(line);
            let upper = Tenths(day.upper[line]).flow();
            let lower = Tenths(day.lower[line]).flow();
            if exceeds(carried, upper) {
                return Err(Refusal::Upper { line, period });
            }
            if exceeds(lower, carried) {
                return Err(Refusal::Lower { line, period });
            }
        }
        Ok(())
    }
}

impl<F: Fleet> Offer<'_, F> {
    // A row's part of the plan, in place.
    fn schedule(&self, row: usize) -> Schedule<'_>
        requires { row < F.size self.now.fleet.now }
        ensures { schedule_of result ≡ row_of (numbers_of self.now.day.now.numbers) (plan_of self.now.plan.now) row }
    {
        let start = row * self.day.numbers.periods;
        let end = start + self.day.numbers.periods;
        Schedule {
            marks: &self.plan.marks[start..end],
            outputs: &self.plan.outputs[start..end],
        }
    }

    // The rows' costs, or the first rule that a row breaks. A fleet is asked by a row's number, and the first no ends the loop.
    fn rows_cost(&self) -> Result<Grains, Refusal>
        ensures judged { RowsJudged (numbers_of self.now.day.now.numbers) (meaning F.Fleet self.now.fleet.now) (plan_of self.now.plan.now) result }
        ensures small { SmallTold result }
    {
        let mut cost = Grains(0);
        for row in 0..self.fleet.size() {
            match self.fleet.verdict(row, &self.schedule(row)) {
                Ok(more) => cost = cost + more,
                Err(broken) => return Err(Refusal::Row { row, broken }),
            }
        }
        Ok(cost)
    }

    // What each node feeds in, net, in a period: its rows' outputs less its load. A fleet is asked by a row's number, and the outputs of one period
    // lie a row of the table apart.
    fn gathered(&self, period: usize) -> [i32; MOST_NODES]
        requires kept { RowsKept (numbers_of self.now.day.now.numbers) (meaning F.Fleet self.now.fleet.now) (plan_of self.now.plan.now) (F.size self.now.fleet.now) }
        requires on { period < self.now.day.now.numbers.periods }
        ensures long { length result ≡ 16 }
        ensures fed { Fed (numbers_of self.now.day.now.numbers) (meaning F.Fleet self.now.fleet.now) (plan_of self.now.plan.now) period (F.size self.now.fleet.now) result }
    {
        let periods = self.day.numbers.periods;
        let size = self.fleet.size();
        let mut fed = drawn(self.day, period);
        for row in 0..size {
            let Ok(node) = self.fleet.node(row) else {
                unreachable!()
            };
            fed[node] += self.plan.outputs[row * periods + period];
        }
        fed
    }

    // The first market rule that is broken in a period: the balance, and then line by line.
    fn period_asked(&self, period: usize) -> Result<(), Refusal>
        requires kept { RowsKept (numbers_of self.now.day.now.numbers) (meaning F.Fleet self.now.fleet.now) (plan_of self.now.plan.now) (F.size self.now.fleet.now) }
        requires on { period < self.now.day.now.numbers.periods }
        ensures { PeriodTold (numbers_of self.now.day.now.numbers) (meaning F.Fleet self.now.fleet.now) (plan_of self.now.plan.now) period result }
    {
        let all = self.gathered(period);
        let fed = Injections {
            day: self.day,
            fed: &all[..self.day.numbers.nodes],
        };
        if fed.sum() != Tenths(0) {
            return Err(Refusal::Balance { period: period + 1 });
        }
        fed.lines_asked(period)
    }

    // What a lawful plan costs, or the first rule that is broken: the rows', and then the market's period by period, asked by number in several tables.
    fn judged(&self) -> Result<Grains, Refusal>
        ensures answered { Answered (numbers_of self.now.day.now.numbers) (meaning F.Fleet self.now.fleet.now) (plan_of self.now.plan.now) result }
        ensures small { SmallTold result }
    {
        let cost = self.rows_cost()?;
        for period in 0..self.day.numbers.periods {
            self.period_asked(period)?;
        }
        Ok(cost)
    }

    // The same, told as the only answer.
    fn answer(&self) -> Result<Grains, Refusal>
        ensures { Told (numbers_of self.now.day.now.numbers) (meaning F.Fleet self.now.fleet.now) (plan_of self.now.plan.now) result }
    {
        self.judged()
    }
}

// The plan as one that can be judged, or the first no before the rules: the fleet does not fit the day, or the plan has not its lengths. What is
// handed in goes along as it comes: together, and asked, they are the offer.
fn offered<'a, F: Fleet>(
    day: &'a Day<'a>,
    fleet: &'a F,
    plan: &'a Plan<'a>,
) -> Result<Offer<'a, F>, Refusal>
    ensures { MatchResult result (λ offer. (offer.day.now ≡ day.now) × (offer.fleet.now ≡ fleet.now) × (offer.plan.now ≡ plan.now)) (λ e. Told (numbers_of day.now.numbers) (meaning F.Fleet fleet.now) (plan_of plan.now) (Err e)) }
{
    place(day, fleet)?;
    plan_lengths(day, fleet, plan)?;
    Ok(Offer { day, fleet, plan })
}

// What a plan costs, if it is lawful; else the first no.
pub fn judge<F: Fleet>(day: &Day, fleet: &F, plan: &Plan) -> Result<Grains, Refusal>
    ensures answered { Answered (numbers_of day.now.numbers) (meaning F.Fleet fleet.now) (plan_of plan.now) result }
    ensures told { Told (numbers_of day.now.numbers) (meaning F.Fleet fleet.now) (plan_of plan.now) result }
{
    offered(day, fleet, plan)?.answer()
}
