//! The ninth question: the basis places are counted, each once for every variable that holds it.
ghost use Rattle.std.specs.Prelude.{◌≡◌, ◌≤◌, length};
ghost use Rattle.questions.specs.Limits.{most_rows};
ghost use Rattle.loops.specs.Places.{all_below};
ghost use Rattle.questions.specs.Tallies.{Countable, counted, counted_place, one_at, Tally, tallied};
ghost use Rattle.questions.specs.PlaceQuestions.{basis_fine, held_once_at, place_fine_at};

use crate::MOST_ROWS;

/// Whether no variable holds a place beyond the last row's. All are asked: a branch on a flag would seldom be foreseen.
fn places_fine(rows: usize, basic: &[u8], places: &[usize]) -> bool
    requires { length places.now ≡ length basic.now }
    ensures { result ≡ all_below (length basic.now) (place_fine_at rows basic.now places.now) }
{
    let mut fine = true;
    for (flag, place) in basic.iter().zip(places) {
        fine = fine & ((*flag == 0) | (*place < rows));
    }
    fine
}

/// Where a variable is counted: at the place `p` where the flag is set and `p` is a row's, else beyond the places of all rows.
/// By now no place that is held lies beyond the rows; chosen by the flag alone, it would be read behind a branch.
fn counted_place(rows: usize, flag: u8, p: usize) -> usize
    ensures { result ≡ counted_place rows flag p }
{
    if (flag != 0) & (p < rows) {
        p
    } else {
        MOST_ROWS
    }
}

/// Counts one more there.
fn count(rows: usize, flag: u8, p: usize, counts: &mut [usize])
    requires { Countable rows flag p counts.old }
    ensures { counts.new ≡ counted rows flag p counts.old }
{
    counts[counted_place(rows, flag, p)] += 1;
}

/// Counts the variables at each place, and those that hold none beyond all places, where nobody reads.
fn tally(rows: usize, basic: &[u8], places: &[usize], counts: &mut [usize])
    requires { Tally rows basic.now places.now counts.old }
    ensures { counts.new ≡ tallied rows basic.now places.now (length basic.now) counts.old }
{
    for (flag, place) in basic.iter().zip(places) {
        count(rows, *flag, *place, counts);
    }
}

/// Whether each of the first `rows` counts is 1.
fn all_one(rows: usize, counts: &[usize]) -> bool
    requires { rows ≤ length counts.now }
    ensures { result ≡ all_below rows (one_at counts.now) }
{
    counts[..rows].iter().all(|holders| *holders == 1)
}

/// Whether each place is held by one variable, counted in `counts`.
fn held_once(rows: usize, basic: &[u8], places: &[usize], counts: &mut [usize]) -> bool
    requires { Tally rows basic.now places.now counts.old }
    ensures { result ≡ all_below rows (held_once_at basic.now places.now) }
{
    tally(rows, basic, places, counts);
    all_one(rows, counts)
}

/// The ninth question.
pub fn basis_fine(rows: usize, basic: &[u8], places: &[usize]) -> bool
    requires { (rows ≤ most_rows) × (length places.now ≡ length basic.now) }
    ensures { result ≡ basis_fine rows basic.now places.now }
{
    if !places_fine(rows, basic, places) {
        return false;
    }
    // Kept: an array of the largest size and a place beyond, since there is no heap and the limits of a sheet are fixed.
    let mut counts = [0; MOST_ROWS + 1];
    held_once(rows, basic, places, &mut counts)
}
