//! The lists of the variables, as they are lent.

// Kept: a slice for each list, as the sheet lends them; an array of structs could not be lent on without a copy.
/// What the lines say of each variable; whether it is integer, of the structural ones alone.
#[derive(Drop)]
pub struct VariableLists<'a> {
    pub integer: &'a mut [u8],
    pub mins: &'a mut [f64],
    pub maxs: &'a mut [f64],
    pub low_tolerances: &'a mut [f64],
    pub high_tolerances: &'a mut [f64],
    pub basic: &'a mut [u8],
    pub places: &'a mut [usize],
    pub values: &'a mut [f64],
}
