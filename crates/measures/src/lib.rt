// Power, price and money, each in a measure of its own: a struct around one number. What goes from one measure to another has a name or is
// a product of two measures, and its factor is exact.
#![tactic(auto)]

ghost use Rattle.std.specs.Prelude.{◌≡◌, pos, ◌+ℤ◌, ◌-ℤ◌, ◌*ℤ◌, FitsSigned, Some};
ghost use Rattle.std.specs.Fmt.{signed_decimal};
ghost use Rattle.std.specs.Int.{w32, w64};

use std::fmt;
use std::ops::{Add, Mul, Sub};

// Power in tenths of a megawatt, positive when fed in.
#[derive(Clone, Copy, Debug, PartialEq, Eq, PartialOrd, Ord)]
pub struct Tenths(pub i32);

// A price in fen (hundredths of a yuan) per megawatt-hour.
#[derive(Clone, Copy, Debug, PartialEq, Eq, PartialOrd, Ord)]
pub struct Fen(pub i32);

// Money in whole yuan.
#[derive(Clone, Copy, Debug, PartialEq, Eq, PartialOrd, Ord)]
pub struct Yuan(pub u32);

// Money in grains, 4,000,000 to the yuan.
#[derive(Clone, Copy, Debug, PartialEq, Eq, PartialOrd, Ord)]
pub struct Grains(pub i64);

// A price in grains per tenth of a megawatt and period.
#[derive(Clone, Copy, Debug, PartialEq, Eq, PartialOrd, Ord)]
pub struct NetPrice(pub i64);

// The share of the power fed in at a node that flows over a line, in thousandths.
#[derive(Clone, Copy, Debug, PartialEq, Eq, PartialOrd, Ord)]
pub struct Factor(pub i32);

// Flow over a line, in thousandths of a tenth of a megawatt.
#[derive(Clone, Copy, Debug, PartialEq, Eq, PartialOrd, Ord)]
pub struct Flow(pub i64);

const GRAINS_OF_YUAN: i64 = 4_000_000;

// A fen per megawatt-hour on a tenth of a megawatt over a quarter hour: 0.01 yuan on a fortieth of a megawatt-hour.
const GRAINS_OF_FEN: i64 = 1_000;

const THOUSANDTHS: i64 = 1_000;

// A number that is told in a measure. By a rule of the project each measure is a struct around one number of its own, so each has its own From,
// Add, Sub and Mul; one impl would take one struct for all.
impl From<i32> for Tenths {
    ghost from_gives = { λ number measured. measured.0 ≡ number };

    fn from(value: i32) -> Tenths {
        Tenths(value)
    }
}

impl From<i32> for Fen {
    ghost from_gives = { λ number measured. measured.0 ≡ number };

    fn from(value: i32) -> Fen {
        Fen(value)
    }
}

impl From<i32> for Factor {
    ghost from_gives = { λ number measured. measured.0 ≡ number };

    fn from(value: i32) -> Factor {
        Factor(value)
    }
}

impl From<i64> for NetPrice {
    ghost from_gives = { λ number measured. measured.0 ≡ number };

    fn from(value: i64) -> NetPrice {
        NetPrice(value)
    }
}

impl Yuan {
    // By an exact factor: a named conversion and no From, by a rule of the project.
    pub fn grains(self) -> Grains
        ensures { result.0 ≡ pos 4000000 *ℤ pos self.0 }
    {
        Grains(GRAINS_OF_YUAN * i64::from(self.0))
    }
}

impl Fen {
    // What the price comes to on each tenth of a megawatt in a period: named and no From, since it takes the amount to another meaning.
    pub fn net(self) -> NetPrice
        ensures { result.0 ≡ pos 1000 *ℤ self.0 }
    {
        NetPrice(GRAINS_OF_FEN * i64::from(self.0))
    }
}

impl Tenths {
    // The flow of this power where all of it goes over the line: named and no From, since it takes the amount to another meaning.
    pub fn flow(self) -> Flow
        ensures { result.0 ≡ pos 1000 *ℤ self.0 }
    {
        Flow(THOUSANDTHS * i64::from(self.0))
    }
}

impl Add<Tenths> for Tenths {
    type Output = Tenths;

    ghost can_add = { λ a b. FitsSigned w32 (a.0 +ℤ b.0) };

    ghost add_gives = { λ a b r. r.0 ≡ a.0 +ℤ b.0 };

    fn add(self, rhs: Tenths) -> Tenths {
        Tenths(self.0 + rhs.0)
    }
}

impl Sub<Tenths> for Tenths {
    type Output = Tenths;

    ghost can_sub = { λ a b. FitsSigned w32 (a.0 -ℤ b.0) };

    ghost sub_gives = { λ a b r. r.0 ≡ a.0 -ℤ b.0 };

    fn sub(self, rhs: Tenths) -> Tenths {
        Tenths(self.0 - rhs.0)
    }
}

impl Sub<Fen> for Fen {
    type Output = Fen;

    ghost can_sub = { λ a b. FitsSigned w32 (a.0 -ℤ b.0) };

    ghost sub_gives = { λ a b r. r.0 ≡ a.0 -ℤ b.0 };

    fn sub(self, rhs: Fen) -> Fen {
        Fen(self.0 - rhs.0)
    }
}

// A price on a line, as it weighs on a tenth fed in at a node: the thousand of the factor is the thousand of the fen.
impl Mul<Factor> for Fen {
    type Output = NetPrice;

    ghost can_mul = { λ a b. FitsSigned w64 (a.0 *ℤ b.0) };

    ghost mul_gives = { λ a b r. r.0 ≡ a.0 *ℤ b.0 };

    fn mul(self, rhs: Factor) -> NetPrice {
        NetPrice(i64::from(self.0) * i64::from(rhs.0))
    }
}

impl Add<NetPrice> for NetPrice {
    type Output = NetPrice;

    ghost can_add = { λ a b. FitsSigned w64 (a.0 +ℤ b.0) };

    ghost add_gives = { λ a b r. r.0 ≡ a.0 +ℤ b.0 };

    fn add(self, rhs: NetPrice) -> NetPrice {
        NetPrice(self.0 + rhs.0)
    }
}

impl Sub<NetPrice> for NetPrice {
    type Output = NetPrice;

    ghost can_sub = { λ a b. FitsSigned w64 (a.0 -ℤ b.0) };

    ghost sub_gives = { λ a b r. r.0 ≡ a.0 -ℤ b.0 };

    fn sub(self, rhs: NetPrice) -> NetPrice {
        NetPrice(self.0 - rhs.0)
    }
}

impl Mul<Tenths> for NetPrice {
    type Output = Grains;

    ghost can_mul = { λ a b. FitsSigned w64 (a.0 *ℤ b.0) };

    ghost mul_gives = { λ a b r. r.0 ≡ a.0 *ℤ b.0 };

    fn mul(self, rhs: Tenths) -> Grains {
        Grains(self.0 * i64::from(rhs.0))
    }
}

impl Mul<Tenths> for Factor {
    type Output = Flow;

    ghost can_mul = { λ a b. FitsSigned w64 (a.0 *ℤ b.0) };

    ghost mul_gives = { λ a b r. r.0 ≡ a.0 *ℤ b.0 };

    fn mul(self, rhs: Tenths) -> Flow {
        Flow(i64::from(self.0) * i64::from(rhs.0))
    }
}

impl Add<Flow> for Flow {
    type Output = Flow;

    ghost can_add = { λ a b. FitsSigned w64 (a.0 +ℤ b.0) };

    ghost add_gives = { λ a b r. r.0 ≡ a.0 +ℤ b.0 };

    fn add(self, rhs: Flow) -> Flow {
        Flow(self.0 + rhs.0)
    }
}

impl Sub<Flow> for Flow {
    type Output = Flow;

    ghost can_sub = { λ a b. FitsSigned w64 (a.0 -ℤ b.0) };

    ghost sub_gives = { λ a b r. r.0 ≡ a.0 -ℤ b.0 };

    fn sub(self, rhs: Flow) -> Flow {
        Flow(self.0 - rhs.0)
    }
}

impl Add<Grains> for Grains {
    type Output = Grains;

    ghost can_add = { λ a b. FitsSigned w64 (a.0 +ℤ b.0) };

    ghost add_gives = { λ a b r. r.0 ≡ a.0 +ℤ b.0 };

    fn add(self, rhs: Grains) -> Grains {
        Grains(self.0 + rhs.0)
    }
}

impl Sub<Grains> for Grains {
    type Output = Grains;

    ghost can_sub = { λ a b. FitsSigned w64 (a.0 -ℤ b.0) };

    ghost sub_gives = { λ a b r. r.0 ≡ a.0 -ℤ b.0 };

    fn sub(self, rhs: Grains) -> Grains {
        Grains(self.0 - rhs.0)
    }
}

// As a decimal number.
impl fmt::Display for Grains {
    ghost output = { λ amount. Some (signed_decimal amount.0) };

    fn fmt<W: fmt::Write>(&self, f: &mut fmt::Formatter<W>) -> fmt::Result {
        write!(f, "{}", self.0)
    }
}
