//! Whether a variable is integer, or kept on its bounds, and which one is leaving.
ghost use Rattle.std.specs.Prelude.{◌≡◌, ◌≤◌, length};
ghost use Rattle.edges.specs.Variables.{holder_from, holds_on_bounds, is_integer};

/// Whether `v` is an integer structural variable.
pub fn is_integer(structurals: usize, integer: &[u8], v: usize) -> bool
    requires { structurals ≤ length integer.now }
    ensures { result ≡ is_integer structurals integer.now v }
{
    v < structurals && integer[v] != 0
}

/// Whether `v` is kept on its bounds: an integer variable, or a structural one that its bounds fix.
#[tactic(auto, unfolding(crate::specs::Variables::holds_on_bounds))]
pub fn holds_on_bounds(
    structurals: usize,
    integer: &[u8],
    mins: &[f64],
    maxs: &[f64],
    v: usize,
) -> bool
    requires { (structurals ≤ length integer.now) × (structurals ≤ length mins.now) × (structurals ≤ length maxs.now) }
    ensures { result ≡ holds_on_bounds structurals integer.now mins.now maxs.now v }
{
    is_integer(structurals, integer, v) || (v < structurals && mins[v] == maxs[v])
}

/// The variable whose basis place has the leaving row's number; the variable count where there is none.
// Kept: no `Option`: each place of an accepted sheet has a holder (question 9), so every caller would take one apart that is always `Some`.
pub fn leaving_variable(basic: &[u8], places: &[usize], leaving_row: usize) -> usize
    requires { length places.now ≡ length basic.now }
    ensures { result ≡ holder_from basic.now places.now leaving_row 0 (length basic.now) }
{
    basic
        .iter()
        .zip(places)
        .position(|(flag, place)| *flag != 0 && *place == leaving_row)
        .unwrap_or(basic.len())
}
