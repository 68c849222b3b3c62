//! The outputs: the lists that the certificate writes, and the errors, as they are lent.
ghost use Rattle.std.specs.Prelude.{◌≡◌};
ghost use Rattle.sheet.specs.Outputs.{lent_lists, outputs};

/// How many places each lent output has.
#[derive(Clone, Copy)]
pub struct Outputs {
    pub high: usize,
    pub low: usize,
    pub magnitudes: usize,
    pub terms: usize,
    pub errors: usize,
}

// Kept: a list for each number, since the C interface lends each apart; `errors` is no field: the rows' functions write these alone, and `spread_row` writes errors alone.
// Kept: that the slices stay the same stands in each contract: a `&mut` of a struct of slices lets a function put others in, so no invariant can say it.
/// Of each variable: its coefficient's two parts, the magnitude that was summed, and how many terms.
#[derive(Drop)]
pub struct Lists<'a> {
    pub high: &'a mut [f64],
    pub low: &'a mut [f64],
    pub magnitudes: &'a mut [f64],
    pub terms: &'a mut [u32],
}

/// How many places are lent for each output.
pub fn outputs_of(l: &Lists, errors: &[f64]) -> Outputs
    ensures { result ≡ outputs (lent_lists l.now) errors.now }
{
    Outputs {
        high: l.high.len(),
        low: l.low.len(),
        magnitudes: l.magnitudes.len(),
        terms: l.terms.len(),
        errors: errors.len(),
    }
}
