// A plan, as it is handed in: a mark and an output for each row and period, row by row. The fields of a schedule, and a type of its
// own: a fleet cannot be handed a whole plan for a row.
#[derive(Clone, Copy)]
pub struct Plan<'a> {
    pub marks: &'a [u8],
    pub outputs: &'a [i32],
}
