//! The lists behind the variables, as they are lent.

// Kept: a slice for each list, as the sheet lends them; an array of structs could not be lent on without a copy.
/// What goes by rows, and the entries of all rows; a row's entries start where those of the row before end.
#[derive(Drop)]
pub struct RowLists<'a> {
    pub right_sides: &'a mut [f64],
    pub scales: &'a mut [f64],
    pub starts: &'a mut [usize],
    pub columns: &'a mut [usize],
    pub entries: &'a mut [f64],
}

/// The multipliers, one for each row.
#[derive(Drop)]
pub struct RhoLists<'a> {
    pub rho_hi: &'a mut [f64],
    pub rho_lo: &'a mut [f64],
    pub second: &'a mut [f64],
}
