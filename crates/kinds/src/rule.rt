// The rules of rows: what a row's schedule can break in a period.
ghost use Rattle.std.specs.Prelude.{◌≡◌};
ghost use Rattle.market.specs.Fleet.{broken};
ghost use Rattle.kinds.specs.Rules.{number_of};

use market::Broken;

// The mark of a period in which a row runs: a number, since marks are lent as bytes.
pub const RUNNING: u8 = 1;

#[derive(Clone, Copy, PartialEq, Eq, Debug)]
pub enum Rule {
    // The mark is one that the row may have.
    Mark,
    // The output is one that the row may have.
    Output,
    // It stops only after its least unbroken running time.
    RunningTime,
    // It starts only after its least unbroken stopped time.
    StoppedTime,
    // The output rises by at most what is allowed.
    Rise,
    // The output falls by at most what is allowed.
    Fall,
}

impl Rule {
    pub fn number(self) -> u8
        ensures { result ≡ number_of self }
    {
        match self {
            Rule::Mark => 10,
            Rule::Output => 11,
            Rule::RunningTime => 12,
            Rule::StoppedTime => 13,
            Rule::Rise => 14,
            Rule::Fall => 15,
        }
    }

    // The rule as it is told where it is broken in a period; periods count from 1 here.
    pub fn in_period(self, period: usize) -> Broken
        ensures { result ≡ broken (number_of self) period }
    {
        Broken {
            rule: self.number(),
            period,
        }
    }
}
