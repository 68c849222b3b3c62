//! The lists that the outward gap is reckoned from, as they are lent.

/// The rows: where each one's entries start, and where the last one's end; the columns and the entries, row after row; the
/// right sides.
#[derive(Clone, Copy)]
pub struct Rows<'a> {
    pub starts: &'a [usize],
    pub columns: &'a [usize],
    pub entries: &'a [f64],
    pub right_sides: &'a [f64],
}

/// The low and the high end of each variable's range.
#[derive(Clone, Copy)]
pub struct Ends<'a> {
    pub low: &'a [f64],
    pub high: &'a [f64],
}
