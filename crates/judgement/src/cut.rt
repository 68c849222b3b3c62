//! The round-off withheld from the room of the leaving slack.
ghost use Rattle.std.specs.Prelude.{◌≡◌, ◌≤◌, ◌<◌, length};
ghost use Rattle.questions.specs.declared.widened.Marks.{Marks};
ghost use Rattle.edges.specs.Model.{lent_model};
ghost use Rattle.edges.specs.Row.{lent_row};
ghost use Rattle.edges.specs.RoomReads.{LentReads};
ghost use Rattle.judgement.specs.Cut.{cut_at, cut_of, leaving_slack_cut};

use double_bits::{abs, is_finite, min};
use edges::{Row, row_activity, row_of, row_terms};
use sheet::Sheet;
use tolerances::{BoundTols, implied_slack_error, slack_margin};

/// The round-off withheld from the room of a leaving slack of this value.
fn cut_of(
    tol: f64,
    magnitude: f64,
    terms: usize,
    slack_value: f64,
    end: f64,
    sums: f64,
    gap: f64,
) -> f64
    ensures { result ≡ cut_of tol magnitude terms slack_value end sums gap }
{
    let slack = min(abs(slack_value), abs(end));
    let cut = implied_slack_error(slack, magnitude, terms)
        + 2.0 * sums
        + BoundTols::UNIT_ROUNDOFF * abs(gap);
    min(cut, slack_margin(tol, magnitude, terms))
}

/// The round-off withheld from the room of the leaving slack of this row and value, whose room ends at `end`.
#[tactic(auto, unfolding(crate::specs::Cut::leaving_slack_cut))]
fn leaving_slack_cut(
    structurals: usize,
    feasibility: f64,
    row: &Row,
    values: &[f64],
    slack_value: f64,
    end: f64,
    sums: f64,
    gap: f64,
) -> f64
    requires entries_len { length row.now.entries.now ≡ length row.now.columns.now }
    requires structurals_in_bounds { structurals ≤ length values.now }
    ensures { result ≡ leaving_slack_cut structurals feasibility (lent_row row.now) values.now slack_value end sums gap }
{
    let tol = feasibility * row.scale;
    let a = row_activity(
        structurals,
        row.right_side,
        row.columns,
        row.entries,
        values,
    );
    let terms = row_terms(row.columns);
    cut_of(tol, a.magnitude, terms, slack_value, end, sums, gap)
}

/// The same, picked out of the sheet, where the leaving variable is a slack and the gap finite; else 0.
#[tactic(auto, unfolding(crate::specs::Cut::cut_at))]
pub fn cut_at(s: &Sheet, leaving: usize, end: f64, sums: f64, gap: f64) -> f64
    requires { LentReads s.now leaving × (leaving < length s.now.values.now) }
    ensures { (marks : Marks) → result ≡ cut_at (lent_model s.now marks) leaving end sums gap }
{
    if s.structurals <= leaving && is_finite(gap) {
        let row = row_of(s, leaving - s.structurals);
        leaving_slack_cut(
            s.structurals,
            s.feasibility,
            &row,
            s.values,
            s.values[leaving],
            end,
            sums,
            gap,
        )
    } else {
        0.0
    }
}
