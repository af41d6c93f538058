// A step of the walk back: what the periods from one on weigh, from what those after it weigh.
mod pricing;

ghost use Rattle.std.specs.Prelude.{◌≡◌, ◌+ℤ◌};
ghost use Rattle.std.specs.Int.{int_min};
ghost use Rattle.market.specs.Scans.{Within};
ghost use Rattle.kinds.specs.Walks.{AheadWithin, running_to};

use measures::Grains;

// For a unit that runs in the period and in the one before, one that starts in it, and one that stops in it. A unit that stays stopped weighs nothing.
#[derive(Clone, Copy)]
struct PeriodWeights {
    pub run: Grains,
    pub start: Grains,
    pub stop: Grains,
    ghost small: { (Within 452400000000000 run.0) × ((Within 452400000000000 start.0) × (Within 452400000000000 stop.0)) },
}

// What the periods from one on weigh: `run` for a unit that runs in all of them and in the one before, and the least for one that runs and may
// stop (`on`) and for one that is stopped and may start (`off`).
#[derive(Clone, Copy)]
struct Ahead {
    pub run: Grains,
    pub on: Grains,
    pub off: Grains,
    ghost small: { AheadWithin (record { run = run.0; on = on.0; off = off.0 }) },
}

impl Ahead {
    ghost use Rattle.thermal.specs.Ahead.{amounts, step};

    // After the last period.
    const NOTHING: Ahead = Ahead {
        run: Grains(0),
        on: Grains(0),
        off: Grains(0),
    };

    // What it weighs to run up to another period, and to be free to stop from there.
    fn running_to(self, to: Ahead) -> Grains
        ensures told { result.0 ≡ running_to (amounts self) (amounts to) }
        ensures small { Within 130291200000000000 result.0 }
    {
        self.run - to.run + to.on
    }

    // A period earlier, a unit that runs and may stop runs on, or stops.
    fn on_before(self, weights: PeriodWeights, may_start: Ahead) -> Grains
        ensures { result.0 ≡ int_min (weights.run.0 +ℤ self.on.0) (weights.stop.0 +ℤ may_start.off.0) }
    {
        (weights.run + self.on).min(weights.stop + may_start.off)
    }

    // A unit that is stopped and may start stays stopped, or starts and runs for its least running time.
    fn off_before(self, weights: PeriodWeights, may_stop: Ahead) -> Grains
        ensures { result.0 ≡ int_min self.off.0 (weights.start.0 +ℤ running_to (amounts self) (amounts may_stop)) }
    {
        self.off.min(weights.start + self.running_to(may_stop))
    }

    // A period earlier: a unit that starts in it may stop at `may_stop`, and one that stops in it may start at `may_start`.
    fn before(self, weights: PeriodWeights, may_stop: Ahead, may_start: Ahead) -> Ahead
        requires { AheadWithin (step weights self may_stop may_start) }
        ensures { amounts result ≡ step weights self may_stop may_start }
    {
        Ahead {
            run: weights.run + self.run,
            on: self.on_before(weights, may_start),
            off: self.off_before(weights, may_stop),
        }
    }
}
