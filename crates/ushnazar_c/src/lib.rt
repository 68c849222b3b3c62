//! The library for callers in C: each function is the library's of the same name, over slices that are lent one by one.
#![tactic(auto)]

ghost use Rattle.std.specs.Prelude.{◌≡◌, Err};
ghost use Rattle.cdouble.specs.Compensated.{plus, plus_scaled};
ghost use Rattle.sheet.specs.Sheet.{sheet, sizes};
ghost use Rattle.sheet.specs.Numbers.{numbered};
ghost use Rattle.sheet.specs.Outputs.{lists, lent, outputs};
ghost use Rattle.weigh_text.specs.TextPromised.{TextPromised};
ghost use Rattle.ushnazar_c.specs.Promised.{Promised};
ghost use Rattle.ushnazar_c.specs.Answer.{told};

use cdouble::CDouble;
use judgement::Proof;
use questions::Widened;
use sheet::{Lists, Refusal, Sheet};
use verdict::Verdict;

/// The number of the first question whose answer is no, or 0 and the verdict.
// Kept: C has no Result: a number beside fields that are 0 where it is not.
#[repr(C)]
#[derive(Clone, Copy)]
pub struct Answer {
    pub refusal: u32,
    pub verdict: Verdict,
}

/// The answer to a sheet that a question refuses.
fn refused(number: u32) -> Answer
    ensures { result ≡ told (Err number) }
{
    Answer {
        refusal: number,
        verdict: Verdict {
            proof: Proof {
                holds: false,
                gap: 0.0,
                allowance: 0.0,
                cut: 0.0,
                zero_within_error: 0,
                multipliers_zeroed: 0,
                rows: 0,
            },
            outward: 0.0,
            declined: false,
        },
    }
}

impl From<Result<Verdict, Refusal>> for Answer {
    ghost from_gives = { λ found answer. answer ≡ told (numbered found) };

    fn from(found: Result<Verdict, Refusal>) -> Answer {
        match found {
            Ok(verdict) => Answer {
                refusal: 0,
                verdict,
            },
            Err(refusal) => refused(u32::from(refusal)),
        }
    }
}

/// `p + v`, in place.
#[unsafe(no_mangle)]
pub extern "C" fn cdouble_add(p: &mut CDouble, v: f64)
    ensures { p.new ≡ plus p.old v }
{
    cdouble::cdouble_add(p, v);
}

/// `p + c · b`, in place.
#[unsafe(no_mangle)]
pub extern "C" fn cdouble_add_scaled(p: &mut CDouble, c: CDouble, b: f64)
    ensures { p.new ≡ plus_scaled p.old c b }
{
    cdouble::cdouble_add_scaled(p, c, b);
}

/// The entry point: the verdict on a sheet whose widened list is lent as records.
// Kept: a parameter for each slice, since the C interface lends each by itself.
#[unsafe(no_mangle)]
pub extern "C" fn sheet_verdict<'a>(
    widened: &'a [Widened],
    rows: usize,
    structurals: usize,
    entry_count: usize,
    feasibility: f64,
    checked: u8,
    leaving_row: usize,
    leaving_up: u8,
    high: &'a mut [f64],
    low: &'a mut [f64],
    magnitudes: &'a mut [f64],
    terms: &'a mut [u32],
    errors: &'a mut [f64],
    starts: &'a [usize],
    columns: &'a [usize],
    entries: &'a [f64],
    right_sides: &'a [f64],
    scales: &'a [f64],
    integer: &'a [u8],
    mins: &'a [f64],
    maxs: &'a [f64],
    low_tolerances: &'a [f64],
    high_tolerances: &'a [f64],
    basic: &'a [u8],
    places: &'a [usize],
    values: &'a [f64],
    rho_hi: &'a [f64],
    rho_lo: &'a [f64],
    second: &'a [f64],
) -> Answer
    ensures promised { (let certificate = lists high.old low.old magnitudes.old terms.old in
        let whole = sheet (sizes rows structurals entry_count) feasibility checked leaving_row leaving_up (outputs certificate errors.old)
        starts.now columns.now entries.now right_sides.now scales.now integer.now mins.now maxs.now low_tolerances.now high_tolerances.now
        basic.now places.now values.now widened.now rho_hi.now rho_lo.now second.now in
        Promised whole (lent certificate errors.old) (lent (lists high.new low.new magnitudes.new terms.new) errors.new) result) }
{
    let s = Sheet {
        rows,
        structurals,
        entry_count,
        feasibility,
        checked,
        leaving_row,
        leaving_up,
        starts,
        columns,
        entries,
        right_sides,
        scales,
        integer,
        mins,
        maxs,
        low_tolerances,
        high_tolerances,
        basic,
        places,
        values,
        rho_hi,
        rho_lo,
        second,
    };
    let mut l = Lists {
        high,
        low,
        magnitudes,
        terms,
    };
    Answer::from(verdict::sheet_verdict(widened, &s, &mut l, errors))
}

/// Puts the answer to a text at the front of `out`, where it fits, and answers its length; where it does not fit nothing is
/// written.
#[unsafe(no_mangle)]
pub extern "C" fn weigh_text(text: &[u8], out: &mut [u8]) -> usize
    ensures { TextPromised text.now out.old out.new result }
{
    weigh_text::weigh_text(text, out)
}
