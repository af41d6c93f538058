#![tactic(auto)]

// Days, plans and price sets worked out by hand: three nodes, two lines, loads below zero, limits that bind below and above.
#[cfg(test)]
mod tests {
    use fleets::{Fixed, Joined, Renewables};
    use kinds::{Curve, CurveNumbers, Station};
    use market::{Day, DayNumbers, Fault, Plan, PriceSet, bound, judge};
    use measures::{NetPrice, Tenths};

    // Number, place and period of a refusal.
    type No = (u8, usize, usize);

    type Answer = Result<i64, No>;

    fn refused(fault: impl Fault + Drop) -> No {
        (fault.number(), fault.place(), fault.period())
    }

    const LOADS: [i32; 6] = [-100, -50, 300, 200, 400, 500];

    const FACTORS: [i32; 6] = [500, -250, 0, 0, 300, -700];

    const LOWER: [i32; 2] = [175, 165];

    const UPPER: [i32; 2] = [263, 245];

    // Rows 0 and 1 are fixed, at nodes 0 and 1; row 2 is a station at node 2: to 100 at 10,000 fen, to 300 at 20,000.
    const NODES: [usize; 2] = [0, 1];

    const FIXED: [i32; 4] = [350, 300, 150, 200];

    const STATIONS: [Station; 1] = [Station {
        node: 2,
        curve: CurveNumbers {
            segments: 2,
            ends: [0, 100, 300, 0, 0, 0, 0, 0, 0, 0, 0],
            prices: [10_000, 20_000, 0, 0, 0, 0, 0, 0, 0, 0],
        },
    }];

    const AVAILABLE: [i32; 2] = [200, 250];

    // The day of two periods, three nodes and two lines, with these limits.
    fn made<'a>(lower: &'a [i32], upper: &'a [i32]) -> Result<Day<'a>, No> {
        let mut day = Day::smallest();
        day.make(DayNumbers {
            periods: 2,
            nodes: 3,
            lines: 2,
            loads: &LOADS,
            factors: &FACTORS,
            lower,
            upper,
        })
        .map_err(refused)?;
        Ok(day)
    }

    // The three rows.
    fn rows<'a>() -> Result<Joined<Fixed<'a>, Renewables<'a>>, No> {
        let mut first = Fixed::none();
        first.make(2, &NODES, &FIXED).map_err(refused)?;
        let mut second = Renewables::none();
        second.make(2, &STATIONS, &AVAILABLE).map_err(refused)?;
        Ok(Joined { first, second })
    }

    fn judged(lower: &[i32], upper: &[i32], marks: &[u8], outputs: &[i32]) -> Answer {
        let plan = Plan { marks, outputs };
        let cost = judge(&made(lower, upper)?, &rows()?, &plan).map_err(refused)?;
        Ok(cost.0)
    }

    #[test]
    fn plans(rt: HostRuntime) {
        let run = [1u8; 6];
        let lawful = [350, 300, 150, 200, 100, 150];
        assert_eq!(rt;
            judged(&LOWER, &UPPER, &run, &lawful),
            Ok(3_000_000_000),
            "every limit but one binds"
        );
        assert_eq!(rt;
            judged(&LOWER, &[262, 245], &run, &lawful),
            Err((17, 0, 1)),
            "262.5 over line 0"
        );
        assert_eq!(rt;
            judged(&[176, 165], &UPPER, &run, &lawful),
            Err((18, 0, 2)),
            "175 over line 0"
        );
        assert_eq!(rt;
            judged(&LOWER, &[263, 244], &run, &lawful),
            Err((17, 1, 2)),
            "245 over line 1"
        );
        assert_eq!(rt;
            judged(&[175, 166], &UPPER, &run, &lawful),
            Err((18, 1, 1)),
            "165 over line 1"
        );
        assert_eq!(rt;
            judged(&LOWER, &[262, 244], &run, &[350, 300, 150, 200, 100, 151]),
            Err((17, 0, 1)),
            "an earlier period first"
        );
        assert_eq!(rt;
            judged(&LOWER, &UPPER, &run, &[350, 300, 150, 200, 101, 150]),
            Err((16, 0, 1)),
            "one tenth too much"
        );
        assert_eq!(rt;
            judged(&LOWER, &UPPER, &run, &[351, 300, 150, 200, 100, 150]),
            Err((11, 0, 1)),
            "not the fixed output"
        );
        assert_eq!(rt;
            judged(&LOWER, &UPPER, &run, &[350, 300, 150, 200, 201, 150]),
            Err((11, 2, 1)),
            "more than is available"
        );
        assert_eq!(rt;
            judged(&LOWER, &UPPER, &[1, 1, 1, 0, 1, 1], &lawful),
            Err((10, 1, 2)),
            "a mark of 0"
        );
        assert_eq!(rt;
            judged(
                &LOWER,
                &UPPER,
                &[1, 1, 1, 0, 1, 1],
                &[350, 301, 150, 200, 100, 150]
            ),
            Err((11, 0, 2)),
            "an earlier row first"
        );
        assert_eq!(rt;
            judged(&LOWER, &UPPER, &[1u8; 5], &lawful),
            Err((8, 0, 0)),
            "a mark missing"
        );
        assert_eq!(rt;
            judged(&[176, 165], &[175, 245], &run, &lawful),
            Err((3, 0, 0)),
            "lower above upper"
        );
    }

    fn bounded(system: &[i32], upper: &[i32], fall: &[i32]) -> Answer {
        let prices = PriceSet {
            system,
            upper,
            lower: &[0, 1_000, 500, 0],
            rise: &[0; 6],
            fall,
        };
        let floor = bound(&made(&LOWER, &UPPER)?, &rows()?, &prices).map_err(refused)?;
        Ok(floor.0)
    }

    #[test]
    fn prices(rt: HostRuntime) {
        let upper = [2_000, 0, 0, 3_000];
        let none = [0; 6];
        assert_eq!(rt;
            bounded(&[15_000, 25_000], &upper, &none),
            Ok(2_289_000_000)
        );
        assert_eq!(rt;
            bounded(&[15_000, 1_000_001], &upper, &none),
            Err((19, 0, 2))
        );
        assert_eq!(rt;
            bounded(
                &[15_000, 25_000],
                &[2_000, 0, -1, 3_000],
                &[0, 0, 0, 0, 0, 1_000_001]
            ),
            Err((19, 1, 1)),
            "limits before falls"
        );
        assert_eq!(rt;
            bounded(&[15_000, 25_000], &upper, &[0, 0, 0, 0, 0, 1_000_001]),
            Err((19, 2, 2))
        );
        assert_eq!(rt; bounded(&[15_000], &upper, &none), Err((8, 0, 0)));
    }

    // A day of two periods, which feeds in 20,000 in the first, with loads for one node; its fleet has two fixed rows.
    fn fitted(periods: usize, outputs: &[i32], nodes: usize) -> Answer {
        let mut day = Day::smallest();
        day.make(DayNumbers {
            periods: 2,
            nodes,
            lines: 0,
            loads: &[-20_000, 15],
            factors: &[],
            lower: &[],
            upper: &[],
        })
        .map_err(refused)?;
        let mut fleet = Fixed::none();
        fleet.make(periods, &[0, 1], outputs).map_err(refused)?;
        let plan = Plan {
            marks: &[1, 1, 1, 1],
            outputs,
        };
        let cost = judge(&day, &fleet, &plan).map_err(refused)?;
        Ok(cost.0)
    }

    #[test]
    fn tables(rt: HostRuntime) {
        assert_eq!(rt;
            fitted(2, &[-20_000, 7, 0, 8], 2),
            Err((2, 0, 0)),
            "loads for one node only"
        );
        assert_eq!(rt;
            fitted(2, &[-20_000, 7, 0, 8], 1),
            Err((6, 1, 0)),
            "row 1 stands at node 1"
        );
        assert_eq!(rt; fitted(2, &[-20_000, 7, 0, 20_001], 1), Err((5, 1, 2)));
        assert_eq!(rt; fitted(2, &[-20_001, 7, 0, 20_001], 1), Err((5, 0, 1)));
        assert_eq!(rt;
            fitted(1, &[-20_000, 7], 1),
            Err((4, 0, 0)),
            "another day's periods"
        );
        assert_eq!(rt; fitted(97, &[-20_000, 7], 1), Err((1, 0, 0)));
        assert_eq!(rt; fitted(2, &[-20_000, 7], 1), Err((2, 0, 0)));
    }

    // The least of running cost less 15,000,000 a tenth from low to high, or None past the curve's end; or the first no of a curve of these numbers.
    fn least(numbers: CurveNumbers, low: i32, high: i32) -> Result<Option<i64>, No> {
        let curve = Curve::try_from(&numbers).map_err(refused)?;
        let least = curve.least(NetPrice(15_000_000), Tenths(low), Tenths(high));
        Ok(least.map(|amount| amount.0))
    }

    fn running(numbers: CurveNumbers, output: i32) -> Answer {
        let curve = Curve::try_from(&numbers).map_err(refused)?;
        Ok(curve.running_cost(Tenths(output)).0)
    }

    #[test]
    fn curves(rt: HostRuntime) {
        let mut numbers = CurveNumbers {
            segments: 3,
            ends: [50, 100, 200, 300, 0, 0, 0, 0, 0, 0, 0],
            prices: [-10_000, 14_000, 16_000, 0, 0, 0, 0, 0, 0, 0],
        };
        // At 50: -500,000,000 less 750,000,000. From there each tenth takes off 25,000,000 up to 100, and 1,000,000 up to 200.
        assert_eq!(rt; least(numbers, 50, 300), Ok(Some(-2_600_000_000)));
        assert_eq!(rt; least(numbers, 50, 150), Ok(Some(-2_550_000_000)));
        assert_eq!(rt; least(numbers, 250, 300), Ok(Some(-2_550_000_000)));
        assert_eq!(rt; least(numbers, 50, 301), Ok(None), "past the last end");
        assert_eq!(rt; running(numbers, 301), Ok(2_000_000_000));
        numbers.prices[2] = 13_999;
        assert_eq!(rt; least(numbers, 50, 300), Err((7, 0, 0)));
        numbers.ends[3] = 200;
        numbers.ends[0] = -1;
        assert_eq!(rt;
            least(numbers, 50, 300),
            Err((5, 0, 0)),
            "ranges before order"
        );
        numbers.segments = 11;
        assert_eq!(rt; least(numbers, 50, 300), Err((2, 0, 0)));
    }
}
