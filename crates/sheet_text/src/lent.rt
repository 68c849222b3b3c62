//! The lists of a sheet, as they are lent.

use text_lists::{RhoLists, RowLists, VariableLists};

/// What a text says of its variables, its rows and its multipliers.
#[derive(Drop)]
pub struct SheetLists<'a> {
    pub variables: VariableLists<'a>,
    pub rows: RowLists<'a>,
    pub rhos: RhoLists<'a>,
}
