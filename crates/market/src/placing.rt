// Whether a fleet fits a day.
ghost use Rattle.std.specs.Prelude.{◌≡◌, MatchResult};
ghost use Rattle.market.specs.Clearing.{Placed, PlacedAt};
ghost use Rattle.market.specs.Days.{numbers_of};
ghost use Rattle.market.specs.Meanings.{meaning};
ghost use Rattle.market.specs.Placing.{Unplaced, UnplacedAt, Misplaced};

use crate::day::Day;
use crate::fleet::Fleet;
use crate::refusal::Refusal;

const MOST_ROWS: usize = 32;

// The first row that does not stand at a node of the day. A fleet is asked by a row's number.
fn misplaced<F: Fleet>(fleet: &F, nodes: usize) -> Option<usize>
    ensures { Misplaced (meaning F.Fleet fleet.now) nodes result }
{
    for row in 0..fleet.size() {
        let Ok(node) = fleet.node(row) else {
            return Some(row);
        };
        if node >= nodes {
            return Some(row);
        }
    }
    None
}

// Whether the fleet has so many periods and 1 to 32 rows, each at one of the nodes.
fn fit<F: Fleet>(fleet: &F, count: usize, nodes: usize) -> Result<(), Refusal>
    ensures { MatchResult result (λ _. PlacedAt (meaning F.Fleet fleet.now) count nodes) (λ e. UnplacedAt (meaning F.Fleet fleet.now) count nodes e) }
{
    let size = fleet.size();
    if fleet.periods() != count || size < 1 || size > MOST_ROWS {
        return Err(Refusal::Misfit);
    }
    match misplaced(fleet, nodes) {
        Some(row) => Err(Refusal::Node { row }),
        None => Ok(()),
    }
}

// Whether the fleet fits the day.
pub fn place<F: Fleet>(day: &Day, fleet: &F) -> Result<(), Refusal>
    ensures { MatchResult result (λ _. Placed (numbers_of day.now.numbers) (meaning F.Fleet fleet.now)) (λ e. Unplaced (numbers_of day.now.numbers) (meaning F.Fleet fleet.now) e) }
{
    fit(fleet, day.numbers.periods, day.numbers.nodes)
}
