// One row's part of a plan, as a fleet is asked about it: a mark and an output for each period. The fields of a plan, and a type of its own: a fleet
// cannot be handed a whole plan for a row.
#[derive(Clone, Copy)]
pub struct Schedule<'a> {
    pub marks: &'a [u8],
    pub outputs: &'a [i32],
}
