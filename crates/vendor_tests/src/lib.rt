#![tactic(auto)]

// The reader on files worked out by hand, for the specimen's shape: 2 periods, 1 line, 3 rows.
#[cfg(test)]
mod tests {
    use std::test::Fail;
    use vendor::{Cells, Counts, FieldFault, FileFault, RowFault, Shape, Tables, read};

    // How many R and how many G rows a file has, or its fault's number, row and field.
    type Answer = Result<(usize, usize), (u8, usize, usize)>;

    fn told(answer: Result<Counts, FileFault>) -> Answer {
        answer
            .map(|counts| (counts.outputs, counts.ramps))
            .map_err(|fault| (fault.number(), fault.row(), fault.field()))
    }

    fn try_file(file: &[u8]) -> Answer {
        let mut cells = Cells {
            marks: [9; 6],
            outputs: [9; 6],
            system: [9; 2],
            upper: [9; 2],
            lower: [9; 2],
            rise: [9; 6],
            fall: [9; 6],
        };
        told(cells.read(
            file,
            &Shape {
                periods: 2,
                lines: 1,
                size: 3,
            },
        ))
    }

    #[test]
    fn faults(rt: HostRuntime) {
        let cases: [(&[u8], Answer); 34] = [
            (b"", Ok((0, 0))),
            (b"R;0;1;1;270\nR;2;2;0;-5\nG;0;1;0;0\n", Ok((2, 1))),
            (b"R;0;1;1;270", Err((26, 1, 0))),
            (b"S;1;5\nR", Err((26, 2, 0))),
            (b"x\nR;0;1;1;270", Err((22, 1, 0))),
            (b"\n", Err((22, 1, 0))),
            (b"r;0;1;1;270\n", Err((22, 1, 0))),
            (b"RR;0;1;1;270\n", Err((22, 1, 0))),
            (b";0;1;1;270\n", Err((22, 1, 0))),
            (b"R\n", Err((23, 1, 0))),
            (b"R;;;\n", Err((23, 1, 0))),
            (b"S;1;2;3\n", Err((23, 1, 0))),
            (b"L;0;1;x;y;z\n", Err((23, 1, 0))),
            (b"R;;1;1;270\n", Err((24, 1, 2))),
            (b"R;0;01;1;270\n", Err((24, 1, 3))),
            (b"R;0;1;256;270\n", Err((24, 1, 4))),
            (b"R;0;1;255;-0\n", Err((24, 1, 5))),
            (b"R;3;1;1;270\n", Err((24, 1, 2))),
            (b"R;-1;1;1;270\n", Err((24, 1, 2))),
            (b"R;0;0;1;270\n", Err((24, 1, 3))),
            (b"R;0;3;1;270\n", Err((24, 1, 3))),
            (b"S;3;5\n", Err((24, 1, 2))),
            (b"S;1;+5\n", Err((24, 1, 3))),
            (b"S;1;123456789\n", Err((24, 1, 3))),
            (b"S;1;-12345678\n", Ok((0, 0))),
            (b"S;1;5\r\n", Err((24, 1, 3))),
            (b"L;1;1;0;0\n", Err((24, 1, 2))),
            (b"G;0;1;0;\n", Err((24, 1, 5))),
            (b"S;1;5\nS;1;5\n", Err((25, 2, 0))),
            (b"S;1;5\nR;0;1;1;270\n", Err((25, 2, 0))),
            (b"R;1;1;1;1\nR;0;2;1;1\n", Err((25, 2, 0))),
            (b"R;0;2;1;1\nR;1;1;1;1\n", Ok((2, 0))),
            (b"G;0;2;0;0\nG;0;1;0;0\n", Err((25, 2, 0))),
            (b"R;0;2;1;1\nR;0;1;x;1\n", Err((24, 2, 4))),
        ];
        for (file, expected) in cases {
            assert_eq!(rt; try_file(file), expected);
        }
    }

    // One row of a fleet of one, into tables of two cells and no line: the answer, and the row's mark and output afterwards.
    // The tables are lent one by one, since `fall` has a wrong length in some cases.
    fn one_row(lines: usize, size: usize, fall: &mut [i32]) -> (Answer, u8, i32) {
        let mut marks = [9u8; 2];
        let mut outputs = [9i32; 2];
        let mut system = [9i32; 2];
        let mut upper = [9i32; 0];
        let mut lower = [9i32; 0];
        let mut rise = [9i32; 2];
        let mut tables = Tables {
            marks: &mut marks,
            outputs: &mut outputs,
            system: &mut system,
            upper: &mut upper,
            lower: &mut lower,
            rise: &mut rise,
            fall,
        };
        let answer = told(read(
            b"R;0;2;1;7\n",
            &Shape {
                periods: 2,
                lines,
                size,
            },
            &mut tables,
        ));
        (answer, marks[1], outputs[1])
    }

    #[test]
    fn sizes(rt: HostRuntime) {
        assert_eq!(rt; one_row(0, 1, &mut [9i32; 1]), (Err((8, 0, 0)), 9, 9));
        assert_eq!(rt; one_row(0, 33, &mut [9i32; 2]), (Err((8, 0, 0)), 9, 9));
        assert_eq!(rt;
            one_row(usize::MAX, 1, &mut [9i32; 2]),
            (Err((8, 0, 0)), 9, 9)
        );
        assert_eq!(rt; one_row(0, 1, &mut [9i32; 2]), (Ok((1, 0)), 1, 7));
    }

    #[test]
    fn cells(rt: HostRuntime) {
        let shape = Shape {
            periods: 2,
            lines: 1,
            size: 1,
        };
        let mut cells: Cells<2, 2, 2> = Cells::empty();
        assert_eq!(rt;
            told(cells.read(b"R;0;2;1;7\nL;0;1;5;6\n", &shape)),
            Ok((1, 0))
        );
        assert_eq!(rt; cells.marks, [0, 1]);
        assert_eq!(rt; cells.outputs, [0, 7]);
        assert_eq!(rt; cells.upper, [5, 0]);
        assert_eq!(rt; cells.lower, [6, 0]);
        assert_eq!(rt; told(cells.read(b"R;0;2;1;8\n?", &shape)), Err((26, 2, 0)));
        assert_eq!(rt; cells.outputs, [0, 7]);
    }

    #[test]
    fn printed(rt: HostRuntime) -> Result<(), Fail> {
        let fault = FileFault::Row {
            row: 12,
            fault: RowFault::from(FieldFault::Malformed { field: 5 }),
        };
        assert_eq!(rt; fault.to_string(rt.alloc())?.as_str(), "24;12;5");
        assert_eq!(rt; FileFault::Whole.to_string(rt.alloc())?.as_str(), "8;0;0");
        Ok(())
    }
}
