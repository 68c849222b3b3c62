//! The refusals, each with document 01's number.
ghost use Rattle.std.specs.Prelude.{◌≡◌};
ghost use Rattle.sheet.specs.Numbers.{number_of};

/// Which question refuses the sheet. The first one is put to texts only.
#[derive(Clone, Copy, PartialEq, Eq, Debug)]
pub enum Refusal {
    Form,
    Sizes,
    Lengths,
    RowStarts,
    Columns,
    Entries,
    Bounds,
    Tolerances,
    Basis,
    Values,
    Widened,
    LeavingRow,
}

impl From<Refusal> for u32 {
    ghost from_gives = { λ refusal number. number ≡ number_of refusal };

    /// Document 01's number of a refusal.
    fn from(refusal: Refusal) -> u32 {
        match refusal {
            Refusal::Form => 1,
            Refusal::Sizes => 2,
            Refusal::Lengths => 3,
            Refusal::RowStarts => 4,
            Refusal::Columns => 5,
            Refusal::Entries => 6,
            Refusal::Bounds => 7,
            Refusal::Tolerances => 8,
            Refusal::Basis => 9,
            Refusal::Values => 10,
            Refusal::Widened => 11,
            Refusal::LeavingRow => 12,
        }
    }
}
