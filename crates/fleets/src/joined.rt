// Two fleets as one: the first's rows, and then the second's.
ghost use Rattle.std.specs.Prelude.{◌≡◌};
ghost use Rattle.market.specs.Meanings.{meaning};
ghost use Rattle.kinds.specs.Joined.{joined};
ghost use Rattle.kinds.proofs.Joining.{joined_shows};
ghost use Rattle.fleets.specs.Sides.{side_of};

use kinds::MOST_ROWS;
use market::{Broken, Fleet, RowPrices, Schedule, row_asked};
use measures::Grains;

#[derive(Clone, Copy)]
pub struct Joined<A, B> {
    pub first: A,
    pub second: B,
}

// The fleet that a row is of, and the row as that fleet counts it. Neither side is a refusal, so this is no Result.
enum Side {
    First(usize),
    Second(usize),
}

impl<A: Fleet, B: Fleet> Joined<A, B> {
    fn side(&self, row: usize) -> Result<Side, Broken>
        ensures { result ≡ side_of (A.size self.now.first) (joined (meaning A.Fleet self.now.first) (meaning B.Fleet self.now.second)).size row }
    {
        row_asked(row, self.size())?;
        let first = self.first.size();
        if row < first {
            Ok(Side::First(row))
        } else {
            Ok(Side::Second(row - first))
        }
    }
}

impl<A: Fleet, B: Fleet> Fleet for Joined<A, B> {
    ghost periods = { λ f. (joined (meaning A.Fleet f.first) (meaning B.Fleet f.second)).periods };

    ghost size = { λ f. (joined (meaning A.Fleet f.first) (meaning B.Fleet f.second)).size };

    ghost node = { λ f. (joined (meaning A.Fleet f.first) (meaning B.Fleet f.second)).node };

    ghost verdict = { λ f. (joined (meaning A.Fleet f.first) (meaning B.Fleet f.second)).verdict };

    ghost floor = { λ f. (joined (meaning A.Fleet f.first) (meaning B.Fleet f.second)).floor };

    ghost facts = { λ f. joined_shows (meaning A.Fleet.own f.first) (meaning B.Fleet.own f.second) (A.Fleet.facts f.first) (B.Fleet.facts f.second) };

    fn periods(&self) -> usize {
        self.first.periods()
    }

    // No row where the two do not join.
    fn size(&self) -> usize {
        let size = self.first.size() + self.second.size();
        if self.periods() == self.second.periods() && size <= MOST_ROWS {
            size
        } else {
            0
        }
    }

    fn node(&self, row: usize) -> Result<usize, Broken> {
        match self.side(row)? {
            Side::First(own) => self.first.node(own),
            Side::Second(own) => self.second.node(own),
        }
    }

    fn verdict(&self, row: usize, schedule: &Schedule) -> Result<Grains, Broken> {
        match self.side(row)? {
            Side::First(own) => self.first.verdict(own, schedule),
            Side::Second(own) => self.second.verdict(own, schedule),
        }
    }

    fn floor(&self, row: usize, prices: &RowPrices) -> Result<Grains, Broken> {
        match self.side(row)? {
            Side::First(own) => self.first.floor(own, prices),
            Side::Second(own) => self.second.floor(own, prices),
        }
    }
}
