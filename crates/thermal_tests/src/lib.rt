#![tactic(auto)]

// Tables, verdicts and floors of thermal units worked out by hand.
#[cfg(test)]
mod tests {
    use kinds::{CurveNumbers, RUNNING, TableFault, ThermalUnit};
    use market::{Broken, Fault, Fleet, RowPrices, Schedule};
    use measures::Grains;
    use thermal::Thermal;

    // Faults by number and place: the numbers are what is tested.
    #[derive(Clone, Copy, PartialEq, Eq, Debug)]
    enum Answer {
        Made,
        // Number and row.
        Refused(u8, usize),
        // Rule and period.
        Breaks(u8, usize),
        // Grains.
        Amount(i64),
    }

    use Answer::{Amount, Breaks, Made, Refused};

    impl From<TableFault> for Answer {
        fn from(fault: TableFault) -> Answer {
            Refused(fault.number(), fault.place())
        }
    }

    impl From<Result<Grains, Broken>> for Answer {
        fn from(told: Result<Grains, Broken>) -> Answer {
            match told {
                Ok(Grains(amount)) => Amount(amount),
                Err(Broken { rule, period }) => Breaks(rule, period),
            }
        }
    }

    // From 100 to 300 at 20,000 fen and to 500 at 30,000: in millions of grains running costs 2,000 at 100, 6,000 at 300 and 12,000 at 500.
    const CURVE: CurveNumbers = CurveNumbers {
        segments: 2,
        ends: [100, 300, 500, 0, 0, 0, 0, 0, 0, 0, 0],
        prices: [20_000, 30_000, 0, 0, 0, 0, 0, 0, 0, 0],
    };

    // In millions of grains a running period has a no_load cost of 200, and a start costs 4,000. It has run for one period at 300, so it
    // owes one more.
    const RUNS: ThermalUnit = ThermalUnit {
        node: 0,
        curve: CURVE,
        no_load: 50,
        start_cost: 1_000,
        least_running: 2,
        least_stopped: 3,
        ramp_up: 100,
        ramp_down: 150,
        start_limit: 200,
        stop_limit: 250,
        mark: RUNNING,
        lasted: 1,
        output: 300,
    };

    // The same unit, but stopped for one period, so it owes two more.
    const STANDS: ThermalUnit = ThermalUnit {
        mark: 0,
        output: 0,
        ..RUNS
    };

    const NO_CURVE: CurveNumbers = CurveNumbers {
        segments: 0,
        ..CURVE
    };

    const WIDE: CurveNumbers = CurveNumbers {
        ends: [100, 300, 20_001, 0, 0, 0, 0, 0, 0, 0, 0],
        ..CURVE
    };

    const FALLING: CurveNumbers = CurveNumbers {
        prices: [20_000, 19_999, 0, 0, 0, 0, 0, 0, 0, 0],
        ..CURVE
    };

    const AT_LEAST: ThermalUnit = ThermalUnit {
        no_load: 0,
        start_cost: 0,
        least_running: 1,
        least_stopped: 1,
        ramp_up: 0,
        ramp_down: 0,
        start_limit: 100,
        stop_limit: 100,
        output: 100,
        ..RUNS
    };

    const AT_MOST: ThermalUnit = ThermalUnit {
        no_load: 100_000,
        start_cost: 2_000_000,
        least_running: 96,
        least_stopped: 96,
        ramp_up: 20_000,
        ramp_down: 20_000,
        start_limit: 500,
        stop_limit: 500,
        lasted: 10_000,
        output: 500,
        ..RUNS
    };

    // Each with one number just out of its range.
    const OUTSIDE: [ThermalUnit; 20] = [
        ThermalUnit {
            no_load: 100_001,
            ..RUNS
        },
        ThermalUnit {
            start_cost: 2_000_001,
            ..RUNS
        },
        ThermalUnit {
            least_running: 0,
            ..RUNS
        },
        ThermalUnit {
            least_running: 97,
            ..RUNS
        },
        ThermalUnit {
            least_stopped: 0,
            ..RUNS
        },
        ThermalUnit {
            least_stopped: 97,
            ..RUNS
        },
        ThermalUnit {
            ramp_up: -1,
            ..RUNS
        },
        ThermalUnit {
            ramp_up: 20_001,
            ..RUNS
        },
        ThermalUnit {
            ramp_down: -1,
            ..RUNS
        },
        ThermalUnit {
            ramp_down: 20_001,
            ..RUNS
        },
        ThermalUnit {
            start_limit: 99,
            ..RUNS
        },
        ThermalUnit {
            start_limit: 501,
            ..RUNS
        },
        ThermalUnit {
            stop_limit: 99,
            ..RUNS
        },
        ThermalUnit {
            stop_limit: 501,
            ..RUNS
        },
        ThermalUnit { mark: 2, ..RUNS },
        ThermalUnit { lasted: 0, ..RUNS },
        ThermalUnit {
            lasted: 10_001,
            ..RUNS
        },
        ThermalUnit { output: 99, ..RUNS },
        ThermalUnit {
            output: 501,
            ..RUNS
        },
        ThermalUnit {
            output: 1,
            ..STANDS
        },
    ];

    fn made(periods: usize, units: &[ThermalUnit]) -> Answer {
        match Thermal::none().make(periods, units) {
            Ok(()) => Made,
            Err(fault) => fault.into(),
        }
    }

    // What a table of this unit alone is asked, if it is one.
    fn asked<Q: FnOnce(&Thermal) -> Result<Grains, Broken>>(
        unit: ThermalUnit,
        periods: usize,
        question: Q,
    ) -> Answer
        requires { Q.IsAlwaysCallable question }
    {
        let units = [unit];
        let mut table = Thermal::none();
        match table.make(periods, &units) {
            Ok(()) => question(&table).into(),
            Err(fault) => fault.into(),
        }
    }

    fn ruled(unit: ThermalUnit, marks: &[u8], outputs: &[i32]) -> Answer {
        asked(unit, marks.len(), |table| {
            table.verdict(0, &Schedule { marks, outputs })
        })
    }

    fn priced(unit: ThermalUnit, net: &[i64], rise: &[i32], fall: &[i32]) -> Answer {
        asked(unit, net.len(), |table| {
            table.floor(0, &RowPrices { net, rise, fall })
        })
    }

    // The first of these units that is not refused with 5.
    fn first_taken(units: &[ThermalUnit]) -> Option<usize> {
        units
            .iter()
            .position(|unit| made(1, &[RUNS, *unit]) != Refused(5, 1))
    }

    #[test]
    fn tables(rt: HostRuntime) {
        let curved = ThermalUnit {
            curve: FALLING,
            ..RUNS
        };
        assert_eq!(rt; made(0, &[curved; 33]), Refused(1, 0));
        assert_eq!(rt; made(97, &[curved; 33]), Refused(1, 0));
        assert_eq!(rt;
            made(96, &[curved; 33]),
            Refused(2, 0),
            "the rows' count before a curve"
        );
        assert_eq!(rt; made(96, &[RUNS; 32]), Made);
        assert_eq!(rt;
            made(
                1,
                &[
                    RUNS,
                    curved,
                    ThermalUnit {
                        curve: NO_CURVE,
                        ..RUNS
                    }
                ]
            ),
            Refused(7, 1),
            "an earlier row's curve first"
        );
        assert_eq!(rt;
            made(
                1,
                &[
                    RUNS,
                    ThermalUnit {
                        curve: NO_CURVE,
                        ..RUNS
                    },
                    curved
                ]
            ),
            Refused(2, 1)
        );
        assert_eq!(rt;
            made(
                1,
                &[
                    OUTSIDE[0],
                    ThermalUnit {
                        curve: WIDE,
                        ..RUNS
                    }
                ]
            ),
            Refused(5, 1),
            "a later row's curve before a number"
        );
        assert_eq!(rt; made(1, &[OUTSIDE[0], curved]), Refused(7, 1));
        assert_eq!(rt;
            made(1, &[RUNS, OUTSIDE[19], OUTSIDE[0]]),
            Refused(5, 1),
            "an earlier row first"
        );
        assert_eq!(rt; made(1, &[AT_LEAST, AT_MOST]), Made);
        assert_eq!(rt; first_taken(&OUTSIDE), None);
    }

    #[test]
    fn schedules(rt: HostRuntime) {
        let free = ThermalUnit {
            lasted: 3,
            ..STANDS
        };
        // Every time and limit is met exactly. In millions: 5,000 at 250 twice, 4,000 at 200, no load three times, one start.
        assert_eq!(rt;
            ruled(RUNS, &[1, 0, 0, 0, 1, 1, 0], &[250, 0, 0, 0, 200, 250, 0]),
            Amount(18_600_000_000)
        );
        assert_eq!(rt;
            ruled(RUNS, &[1, 2], &[300, -1]),
            Breaks(10, 2),
            "before the output"
        );
        assert_eq!(rt;
            ruled(RUNS, &[1, 1], &[200, 100]),
            Amount(6_400_000_000),
            "2,000 and 4,000 and no load twice"
        );
        assert_eq!(rt;
            ruled(RUNS, &[1, 1], &[250, 99]),
            Breaks(11, 2),
            "before the fall"
        );
        assert_eq!(rt;
            ruled(RUNS, &[1, 1], &[400, 500]),
            Amount(21_400_000_000),
            "9,000 and 12,000 and no load twice"
        );
        assert_eq!(rt;
            ruled(RUNS, &[1, 1], &[400, 501]),
            Breaks(11, 2),
            "before the rise"
        );
        assert_eq!(rt;
            ruled(RUNS, &[1, 0], &[250, 1]),
            Breaks(11, 2),
            "stopped with an output"
        );
        assert_eq!(rt; ruled(RUNS, &[0], &[0]), Breaks(12, 1), "before the fall");
        assert_eq!(rt;
            ruled(free, &[1, 0], &[200, 0]),
            Breaks(12, 2),
            "one period after a start"
        );
        assert_eq!(rt;
            ruled(
                ThermalUnit {
                    lasted: 2,
                    output: 250,
                    ..RUNS
                },
                &[0],
                &[0]
            ),
            Amount(0),
            "stops at once"
        );
    }

    #[test]
    fn ramps(rt: HostRuntime) {
        assert_eq!(rt;
            ruled(STANDS, &[0, 0, 1], &[0, 0, 200]),
            Amount(8_200_000_000),
            "4,000, no load and a start"
        );
        assert_eq!(rt;
            ruled(STANDS, &[0, 1, 1], &[0, 201, 200]),
            Breaks(13, 2),
            "before the rise"
        );
        assert_eq!(rt;
            ruled(RUNS, &[1, 0, 0, 1], &[250, 0, 0, 200]),
            Breaks(13, 4),
            "two periods after a stop"
        );
        assert_eq!(rt;
            ruled(STANDS, &[0, 0, 1], &[0, 0, 201]),
            Breaks(14, 3),
            "past the start limit"
        );
        assert_eq!(rt; ruled(RUNS, &[1], &[400]), Amount(9_200_000_000));
        assert_eq!(rt;
            ruled(RUNS, &[1, 2], &[401, 0]),
            Breaks(14, 1),
            "an earlier period first"
        );
        assert_eq!(rt; ruled(RUNS, &[1], &[150]), Amount(3_200_000_000));
        assert_eq!(rt; ruled(RUNS, &[1], &[149]), Breaks(15, 1));
        assert_eq!(rt;
            ruled(RUNS, &[1, 0], &[251, 0]),
            Breaks(15, 2),
            "past the stop limit"
        );
        assert_eq!(rt; ruled(RUNS, &[1, 1], &[300]), Breaks(8, 0));
    }

    // In millions a running period weighs, with no load: 700 where a tenth is worth 15 (at 100), -1,300 at 25 (at 300), -7,800 at 40 and
    // -12,800 at 50 (at 500).
    #[test]
    fn floors(rt: HostRuntime) {
        let none = [0; 3];
        let free = ThermalUnit { lasted: 2, ..RUNS };
        let owes_one = ThermalUnit {
            lasted: 2,
            ..STANDS
        };
        assert_eq!(rt;
            priced(RUNS, &[15_000_000, 15_000_000], &none[0..2], &none[0..2]),
            Amount(700_000_000),
            "marks 10; 00 is not lawful"
        );
        assert_eq!(rt;
            priced(free, &[15_000_000, 15_000_000], &none[0..2], &none[0..2]),
            Amount(0),
            "marks 00"
        );
        assert_eq!(rt;
            priced(RUNS, &[15_000_000, 25_000_000], &none[0..2], &none[0..2]),
            Amount(-600_000_000),
            "marks 11"
        );
        assert_eq!(rt;
            priced(STANDS, &[50_000_000; 3], &none, &none),
            Amount(-8_800_000_000),
            "marks 001"
        );
        assert_eq!(rt;
            priced(STANDS, &[50_000_000, 50_000_000, 25_000_000], &none, &none),
            Amount(0),
            "a start is dearer"
        );
        assert_eq!(rt;
            priced(owes_one, &[50_000_000; 3], &none, &none),
            Amount(-21_600_000_000),
            "marks 011"
        );
        let marks_011 = [50_000_000, 50_000_000, 15_000_000];
        assert_eq!(rt;
            priced(owes_one, &marks_011, &none, &none),
            Amount(-8_100_000_000),
            "010 is not lawful"
        );
        assert_eq!(rt;
            priced(
                ThermalUnit {
                    least_running: 1,
                    ..owes_one
                },
                &marks_011,
                &none,
                &none
            ),
            Amount(-8_800_000_000),
            "marks 010"
        );
    }

    // Two periods. Rises and falls are priced in fen; a price of 10,000 on a rise or fall of 100 is 1,000 million.
    #[test]
    fn ramp_prices(rt: HostRuntime) {
        let free = ThermalUnit { lasted: 2, ..RUNS };
        let starts = ThermalUnit {
            lasted: 3,
            ..STANDS
        };
        // Worth 28 and 21. Marks 11: -2,200 - 350, then -100 - 1,150; 10: -2,550 - 750; 00: -250. The output before the day adds -300.
        assert_eq!(rt;
            priced(free, &[25_000_000; 2], &[2_000, 7_000], &[1_000, 3_000]),
            Amount(-4_100_000_000)
        );
        // Worth 15 and 25. Marks 11: 700 - 1,300 - 1,500; 10: 700 - 2,500; 00: 0. With no ramp down 11 weighs 1,500 more.
        let last_fall = [0, 10_000];
        assert_eq!(rt;
            priced(free, &[25_000_000, 15_000_000], &[0, 0], &last_fall),
            Amount(-2_100_000_000)
        );
        assert_eq!(rt;
            priced(
                ThermalUnit {
                    ramp_down: 0,
                    ..free
                },
                &[25_000_000, 15_000_000],
                &[0, 0],
                &last_fall
            ),
            Amount(-1_800_000_000)
        );
        // Worth 25 and 15. Marks 11: -1,300 - 1,500 + 700; 10: -2,800; 00: -2,500. The output before the day adds 3,000.
        assert_eq!(rt;
            priced(free, &[15_000_000; 2], &[0, 0], &[10_000, 0]),
            Amount(200_000_000)
        );
        // Worth 40 and 15. Marks 11: -7,800 + 4,000 - 2,000 + 700; 01: 4,700; 00: 0. Marks 10 need a least running time of 1.
        let first_rise = [10_000, 0];
        assert_eq!(rt;
            priced(starts, &[50_000_000, 15_000_000], &first_rise, &[0, 0]),
            Amount(-5_100_000_000)
        );
        assert_eq!(rt;
            priced(
                ThermalUnit {
                    least_running: 1,
                    ..starts
                },
                &[50_000_000, 15_000_000],
                &first_rise,
                &[0, 0]
            ),
            Amount(-5_800_000_000)
        );
        // Worth 25 and 40. Marks 11: -1,300 + 4,000 - 7,800 - 1,000; 01: -7,800 + 4,000 - 2,000; 00: 0.
        assert_eq!(rt;
            priced(starts, &[15_000_000, 50_000_000], &[0, 10_000], &[0, 0]),
            Amount(-6_100_000_000)
        );
    }

    #[test]
    fn prices_in_range(rt: HostRuntime) {
        assert_eq!(rt;
            priced(RUNS, &[0, 17_000_000_001], &[-1, 0], &[0, 0]),
            Breaks(19, 2),
            "net prices first"
        );
        assert_eq!(rt;
            priced(RUNS, &[0, 0], &[0, 1_000_001], &[-1, 0]),
            Breaks(19, 2),
            "rises before falls"
        );
        assert_eq!(rt; priced(RUNS, &[0, 0], &[0, 0], &[-1, 0]), Breaks(19, 1));
        assert_eq!(rt;
            priced(RUNS, &[0, 17_000_000_001], &[0], &[0, 0]),
            Breaks(8, 0),
            "lengths first"
        );
    }
}
