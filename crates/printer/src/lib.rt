//! The printer of document 01's sheet: digits and lines put into a slice, and the nine lines of a verdict or the one line of a
//! refusal.

#![tactic(auto)]

ghost use Rattle.std.specs.Prelude.{◌≡◌, length};
ghost use Rattle.sheet.specs.Numbers.{numbered};
ghost use Rattle.printer.specs.Stored.{Stored};
ghost use Rattle.printer.specs.Answer.{answer_text, nine_lines, refusal_line, written_if_fits};

use line::put_line;
use sheet::Refusal;
use verdict::Verdict;

mod line;
mod numerals;
mod stored;

pub use stored::{put_count, put_double, put_text};

/// No answer is longer.
const LONGEST: usize = 256;

/// Puts the nine lines at the front of `x`, and returns the place after them.
fn put_lines(x: &mut [u8], v: Verdict) -> usize
    ensures { Stored x.old x.new 0 result (nine_lines v) }
{
    let gap = put_line(x, 0, b"(holds ", v.proof.holds);
    let allowance = put_line(x, gap, b"(gap ", v.proof.gap);
    let cut = put_line(x, allowance, b"(allowance ", v.proof.allowance);
    let zero_within_error = put_line(x, cut, b"(cut ", v.proof.cut);
    let multipliers_zeroed = put_line(
        x,
        zero_within_error,
        b"(zero-within-error ",
        v.proof.zero_within_error,
    );
    let rows = put_line(
        x,
        multipliers_zeroed,
        b"(multipliers-zeroed ",
        v.proof.multipliers_zeroed,
    );
    let outward = put_line(x, rows, b"(rows ", v.proof.rows);
    let declined = put_line(x, outward, b"(outward ", v.outward);
    put_line(x, declined, b"(declined ", v.declined)
}

/// Puts the text of an answer at the front of `x`, and returns the place after it.
#[tactic(auto, unfolding(crate::specs::Answer::refusal_line))]
fn put_whole(x: &mut [u8], answer: Result<Verdict, Refusal>) -> usize
    ensures { Stored x.old x.new 0 result (answer_text (numbered answer)) }
{
    match answer {
        Ok(v) => put_lines(x, v),
        Err(refusal) => put_line(x, 0, b"(refused ", u32::from(refusal) as usize),
    }
}

/// The text of an answer, at the front of `out` where it fits; where it does not, nothing is written. Returns its length.
#[tactic(auto, using(crate::proofs::Parts::answer_short))]
pub fn put_answer(answer: Result<Verdict, Refusal>, out: &mut [u8]) -> usize
    ensures value { result ≡ length (answer_text (numbered answer)) }
    ensures out_after { out.new ≡ written_if_fits (answer_text (numbered answer)) out.old }
{
    // Kept: an array, since the device has no heap for a Vec; a text that does not fit must leave `out` as it was.
    let mut text = [0; LONGEST];
    let end = put_whole(&mut text, answer);
    if end <= out.len() {
        put_text(out, 0, &text[0..end]);
    }
    end
}
