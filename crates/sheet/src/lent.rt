//! The sheet as it is lent.

// Kept: a slice for each list, and flags that are bytes, set unless 0, since the C interface lends them so; a `bool` or structs in slices would ask more of callers.
/// The sheet but its widened list: one field for each number and each lent slice. What each means stands at the fields of the same names
/// in specs/Sheet.antt.
#[derive(Clone, Copy)]
pub struct Sheet<'a> {
    pub rows: usize,
    pub structurals: usize,
    pub entry_count: usize,
    pub feasibility: f64,
    pub checked: u8,
    pub leaving_row: usize,
    pub leaving_up: u8,
    pub starts: &'a [usize],
    pub columns: &'a [usize],
    pub entries: &'a [f64],
    pub right_sides: &'a [f64],
    pub scales: &'a [f64],
    pub integer: &'a [u8],
    pub mins: &'a [f64],
    pub maxs: &'a [f64],
    pub low_tolerances: &'a [f64],
    pub high_tolerances: &'a [f64],
    pub basic: &'a [u8],
    pub places: &'a [usize],
    pub values: &'a [f64],
    pub rho_hi: &'a [f64],
    pub rho_lo: &'a [f64],
    pub second: &'a [f64],
}
