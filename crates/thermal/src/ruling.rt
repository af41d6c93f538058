// A thermal unit's rules, period by period, and its verdict.
mod making;
mod walking;

ghost use Rattle.std.specs.Prelude.{◌≡◌, ◌+◌, ◌-◌, ◌^◌, ◌<◌, ◌≤◌, length, pos, ◌+ℤ◌, None, if◌then◌else◌, nat_eq};
ghost use Rattle.market.specs.Scans.{Within, in_test};
ghost use Rattle.market.specs.Fleet.{schedule_of};
ghost use Rattle.kinds.specs.Curves.{lowest, highest, running_cost};
ghost use Rattle.kinds.specs.Rules.{broken_by};
ghost use Rattle.kinds.specs.Thermal.{rise_allowance, fall_allowance, rule_10, rule_11, rule_12, rule_13, rule_14, rule_15, UnitMade, yuan, running, starts, period_cost, rule, cost_in};
ghost use Rattle.kinds.specs.Verdicts.{Judged};
ghost use Rattle.thermal.specs.Marks.{code_of};

use crate::mark::Mark;
use kinds::{Curve, Rule, ThermalUnit};
use market::{Broken, Schedule};
use measures::{Grains, Tenths, Yuan};

// Whether an output lies on the curve. Past the last end stands 0, in a record that is not known to be one.
fn on_curve(unit: &ThermalUnit, output: Tenths) -> bool
    ensures { result ≡ in_test (lowest unit.now.curve) (highest unit.now.curve) output.0 }
{
    let curve = &unit.curve;
    let highest = curve.ends.get(curve.segments).copied().unwrap_or(0);
    (curve.ends[0]..=highest).contains(&output.0)
}

// Whether the output is 0 when stopped, and on the curve when running.
fn output_fits(unit: &ThermalUnit, mark: Mark, output: Tenths) -> bool
    ensures { result ≡ rule_11 unit.now (code_of mark) output.0 }
{
    match mark {
        Mark::Running => on_curve(unit, output),
        Mark::Stopped => output.0 == 0,
    }
}

// A unit's record that is known to be one.
#[derive(Clone, Copy)]
struct Unit<'a> {
    pub record: &'a ThermalUnit,
    ghost made: { UnitMade record.now },
}

// The mark of the period before, how many unbroken periods it has lasted, and the output.
#[derive(Clone, Copy)]
struct State {
    pub mark: Mark,
    pub lasted: usize,
    pub output: Tenths,
    ghost small: { Within 20000 output.0 },
}

impl State {
    // How long the mark goes on yet, where it must last so long.
    fn owed(self, time: usize) -> usize
        ensures { result ≡ time - self.lasted }
    {
        time.saturating_sub(self.lasted)
    }
}

// A period whose mark and output fit each other, with what went before it.
#[derive(Clone, Copy)]
struct Step {
    pub before: State,
    pub mark: Mark,
    pub output: Tenths,
    ghost small: { Within 20000 output.0 },
}

impl Step {
    // What it leaves to the next.
    fn after(self) -> State
        requires { self.before.lasted + 1 < 2 ^ 64 }
        ensures mark { result.mark ≡ self.mark }
        ensures lasted { result.lasted ≡ (if nat_eq (code_of self.mark) (code_of self.before.mark) then self.before.lasted + 1 else 1) }
        ensures output { result.output.0 ≡ self.output.0 }
    {
        let Step {
            before,
            mark,
            output,
        } = self;
        let lasted = if mark == before.mark {
            before.lasted + 1
        } else {
            1
        };
        State {
            mark,
            lasted,
            output,
        }
    }
}

// What the unit brings into the day; a record tells its mark as a number.
impl From<&Unit<'_>> for State {
    ghost from_gives = { λ unit state. (code_of state.mark ≡ unit.now.record.now.mark) × ((state.lasted ≡ unit.now.record.now.lasted) × (state.output.0 ≡ unit.now.record.now.output)) };

    fn from(unit: &Unit<'_>) -> State {
        let record = unit.record;
        State {
            mark: Mark::try_from(record.mark).unwrap_or(Mark::Stopped),
            lasted: record.lasted,
            output: Tenths(record.output),
        }
    }
}

impl Unit<'_> {
    ghost use Rattle.thermal.specs.Steps.{later_broken, StepTold, PeriodTold};

    fn curve(&self) -> Curve
        ensures { result.numbers ≡ self.now.record.now.curve }
    {
        Curve {
            numbers: self.record.curve,
        }
    }

    // Whether the unit goes on, or stops after at least its least running time. Stops and starts apart: one function for both would take the two
    // marks and the least time as arguments, and each says no more than those.
    fn stop_fits(&self, step: Step) -> bool
        ensures { result ≡ rule_12 self.now.record.now (code_of step.before.mark) step.before.lasted (code_of step.mark) }
    {
        match (step.before.mark, step.mark) {
            (Mark::Running, Mark::Stopped) => self.record.least_running <= step.before.lasted,
            _ => true,
        }
    }

    // Whether the unit goes on, or starts after at least its least stopped time.
    fn start_fits(&self, step: Step) -> bool
        ensures { result ≡ rule_13 self.now.record.now (code_of step.before.mark) step.before.lasted (code_of step.mark) }
    {
        match (step.before.mark, step.mark) {
            (Mark::Stopped, Mark::Running) => self.record.least_stopped <= step.before.lasted,
            _ => true,
        }
    }

    // The most that the output may rise from a period of one mark to a period of the other. Rises and falls apart: a start
    // bounds the rise and a stop the fall, so the two have no arm in common.
    fn rise_allowance(&self, before: Mark, mark: Mark) -> Tenths
        ensures { result.0 ≡ rise_allowance self.now.record.now (code_of before) (code_of mark) }
    {
        match (before, mark) {
            (Mark::Running, Mark::Running) => Tenths(self.record.ramp_up),
            (Mark::Stopped, Mark::Running) => Tenths(self.record.start_limit),
            (_, Mark::Stopped) => Tenths(0),
        }
    }

    // The most that it may fall.
    fn fall_allowance(&self, before: Mark, mark: Mark) -> Tenths
        ensures { result.0 ≡ fall_allowance self.now.record.now (code_of before) (code_of mark) }
    {
        match (before, mark) {
            (Mark::Running, Mark::Running) => Tenths(self.record.ramp_down),
            (Mark::Running, Mark::Stopped) => Tenths(self.record.stop_limit),
            (Mark::Stopped, _) => Tenths(0),
        }
    }

    // Whether the output rises by at most the rise allowance.
    fn rise_fits(&self, step: Step) -> bool
        ensures { result ≡ rule_14 self.now.record.now (code_of step.before.mark) (code_of step.mark) step.before.output.0 step.output.0 }
    {
        step.output - step.before.output <= self.rise_allowance(step.before.mark, step.mark)
    }

    // Whether the output falls by at most the fall allowance.
    fn fall_fits(&self, step: Step) -> bool
        ensures { result ≡ rule_15 self.now.record.now (code_of step.before.mark) (code_of step.mark) step.before.output.0 step.output.0 }
    {
        step.before.output - step.output <= self.fall_allowance(step.before.mark, step.mark)
    }

    // A period after this state, or the first of the rules on its mark and output that it breaks. These two come first, so that the others can
    // take a period whose output is known to be small.
    #[tactic(auto, using(crate::proofs::Steps::told, crate::proofs::Steps::told_output))]
    fn step(&self, before: State, mark: u8, output: Tenths) -> Result<Step, Rule>
        ensures { StepTold self.now.record.now before mark output result }
    {
        let mark = Mark::try_from(mark)?;
        if !output_fits(self.record, mark, output) {
            return Err(Rule::Output);
        }
        Ok(Step {
            before,
            mark,
            output,
        })
    }

    // The first of the other rules that it breaks, if any.
    fn kept(&self, step: Step) -> Result<(), Rule>
        ensures { broken_by result ≡ later_broken self.now.record.now step }
    {
        if !self.stop_fits(step) {
            return Err(Rule::RunningTime);
        }
        if !self.start_fits(step) {
            return Err(Rule::StoppedTime);
        }
        if !self.rise_fits(step) {
            return Err(Rule::Rise);
        }
        if !self.fall_fits(step) {
            return Err(Rule::Fall);
        }
        Ok(())
    }

    // A period that breaks no rule, or the first rule that it breaks.
    fn asked(&self, before: State, mark: u8, output: Tenths) -> Result<Step, Rule>
        ensures { PeriodTold self.now.record.now before mark output result }
    {
        let step = self.step(before, mark, output)?;
        self.kept(step)?;
        Ok(step)
    }

    // The running cost and the no_load cost of a running period.
    fn running_part(&self, mark: Mark, output: Tenths) -> Grains
        ensures { result.0 ≡ (if running (code_of mark) then running_cost self.now.record.now.curve output.0 +ℤ yuan self.now.record.now.no_load else pos 0) }
    {
        match mark {
            Mark::Running => {
                self.curve().running_cost(output) + Yuan(self.record.no_load).grains()
            }
            Mark::Stopped => Grains(0),
        }
    }

    // The start cost of a start.
    fn start_part(&self, before: Mark, mark: Mark) -> Grains
        ensures { result.0 ≡ (if starts (code_of before) (code_of mark) then yuan self.now.record.now.start_cost else pos 0) }
    {
        match (before, mark) {
            (Mark::Stopped, Mark::Running) => Yuan(self.record.start_cost).grains(),
            _ => Grains(0),
        }
    }

    // What a period costs.
    fn period_cost(&self, step: Step) -> Grains
        ensures { result.0 ≡ period_cost self.now.record.now (code_of step.before.mark) (code_of step.mark) step.output.0 }
    {
        self.running_part(step.mark, step.output) + self.start_part(step.before.mark, step.mark)
    }

    // What the unit brings into the day. A function of its own for the verdict, so that an edit that must fail reaches the verdict alone.
    fn before_day(&self) -> State
        ensures mark { code_of result.mark ≡ self.now.record.now.mark }
        ensures lasted { result.lasted ≡ self.now.record.now.lasted }
        ensures output { result.output.0 ≡ self.now.record.now.output }
    {
        State::from(self)
    }

    // The verdict, in one pass over the periods with the state before each. A pass of its own: what a period may be hangs on the state that the
    // one before leaves, where a row that always runs has none.
    fn judged(&self, schedule: &Schedule) -> Result<Grains, Broken>
        requires { (length schedule.now.marks.now ≡ length schedule.now.outputs.now) × (length schedule.now.marks.now ≤ 96) }
        ensures { Judged (rule self.now.record.now (schedule_of schedule.now)) (cost_in self.now.record.now (schedule_of schedule.now)) (length schedule.now.marks.now) result }
    {
        let mut before = self.before_day();
        let mut cost = Grains(0);
        for (period, (mark, output)) in schedule.marks.iter().zip(schedule.outputs).enumerate() {
            let step = self
                .asked(before, *mark, Tenths(*output))
                .map_err(|rule| rule.in_period(period + 1))?;
            cost = cost + self.period_cost(step);
            before = step.after();
        }
        Ok(cost)
    }
}
