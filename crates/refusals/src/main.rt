// Puts the sheets of standard input, which tests/refusals/generate.py writes, to `sheet_verdict`, and says for each refusal
// number how many cases were run and how many of them got another number.
//
// A case is a line that makes a sound sheet, lines that change it, and a line with the number that it is to get. A line
// is a letter and four numbers of 16 digits, each after a space. Numbers that a letter does not have are 0.
//
//     S rows structurals dense widened    a sound sheet of that many rows, structural variables, structural entries in
//                                         each row, and widened items
//     P slice place value                 puts a value at a place of a slice: a number, a flag, or a double's pattern
//     E refusal case                      the refusal's number, 0 for none; and the case's, for whoever looks it up
//
// A slice goes by its place among those of `case_slices`. After them comes one that is not handed over: the lengths of the
// others, and the numbers of the sheet. The widened list is two slices of one length, and the second is told only the
// length that the first has. A line of any other form counts as a case that differs.
#![tactic(auto)]

use case_slices::{Numbers, ROWS, SLICES, Slice, Slices, VARIABLES, byte};
use questions::Widened;
use sheet::{Lists, Outputs};
use std::io;
use tables::{Tallies, each_line, numbers};
use verdict::sheet_verdict;

// Bytes in a line, its end included.
const LINE: usize = 70;

// The tallies have a place for each refusal's number.
const KINDS: usize = 13;

// No slice is longer, so no sound sheet has more of anything.
const MOST: usize = 4100;

const TOLERANCE: f64 = 1e-6;

// The most places that an output has; one that a table makes longer has as many. No accepted sheet has more variables.
const OUTPUT: usize = 400;

/// What a line says.
#[derive(Clone, Copy)]
enum Line {
    Sound(Shape),
    Put {
        slice: usize,
        place: usize,
        value: usize,
    },
    // Kept: the table's number, 0 for none: a case's answer is compared with it, and it is the tally's place.
    Expect(usize),
}

/// How many of each thing a sound sheet has; `dense` of the structural variables in each row.
#[derive(Clone, Copy)]
struct Shape {
    rows: usize,
    structurals: usize,
    dense: usize,
    widened: usize,
}

/// The sheet of a case: its numbers, the lengths of its slices and outputs, and the slices.
#[derive(Drop)]
struct Case {
    numbers: Numbers,
    // Kept: arrays of a fixed size, since no program allocates and the limits are fixed.
    lengths: [usize; SLICES],
    outputs: Outputs,
    slices: Slices,
}

/// What a line says. One of another form says nothing.
fn read_line(line: &[u8]) -> Option<Line> {
    let found = numbers::<4>(line)?;
    let a = found[0] as usize;
    let b = found[1] as usize;
    let c = found[2] as usize;
    // Kept: the letters of the table become what a line says here; `TryFrom<u8>` would be no plainer, with an error that nobody reads.
    match line.first()? {
        b'S' => Some(Line::Sound(Shape {
            rows: a.min(MOST),
            structurals: b.min(MOST),
            dense: c.min(MOST),
            widened: found[3] as usize,
        })),
        b'P' => Some(Line::Put {
            slice: a,
            place: b,
            value: c,
        }),
        b'E' => Some(Line::Expect(a)),
        _ => None,
    }
}

/// A sound sheet, as far as there is room. Each row has its dense entries and its slack's.
fn sound_case(shape: Shape) -> Case {
    let rows = shape.rows;
    let structurals = shape.structurals;
    let numbers = Numbers {
        rows,
        structurals,
        entries: rows.saturating_mul(shape.dense.saturating_add(1)),
        feasibility: 1e-7,
        ..Numbers::ZERO
    };
    Case {
        numbers,
        lengths: numbers.lengths(shape.widened),
        outputs: outputs_alike(structurals.saturating_add(rows)),
        slices: sound_slices(shape),
    }
}

/// Outputs of one length.
fn outputs_alike(length: usize) -> Outputs {
    Outputs {
        high: length,
        low: length,
        magnitudes: length,
        terms: length,
        errors: length,
    }
}

/// Puts at each place what a function answers for it.
fn fill<T: Copy, F: Fn(usize) -> T>(xs: &mut [T], value_at: F)
    requires { F.IsAlwaysCallable value_at }
{
    for (k, x) in xs.iter_mut().enumerate() {
        *x = value_at(k);
    }
}

/// The slices of a sound sheet, as far as there is room. A row's slack is its last entry, and basic at the row's place.
/// The widened items are each variable down, then up.
fn sound_slices(shape: Shape) -> Slices {
    let structurals = shape.structurals;
    let dense = shape.dense;
    let width = dense.saturating_add(1);
    let mut s = Slices::ZERO;
    fill(&mut s.starts, |k| k.saturating_mul(width));
    fill(&mut s.columns, |k| column(k, structurals, dense));
    fill(&mut s.entries, |k| entry(k, dense));
    s.right_sides = [3.0; ROWS];
    s.scales = [1.0; ROWS];
    fill(
        &mut s.maxs,
        |k| if k < structurals { 1.0 } else { f64::INFINITY },
    );
    s.low_tolerances = [TOLERANCE; VARIABLES];
    s.high_tolerances = [TOLERANCE; VARIABLES];
    fill(&mut s.basic, |k| u8::from(structurals <= k));
    fill(&mut s.places, |k| k.saturating_sub(structurals));
    s.values = [0.5; VARIABLES];
    fill(
        &mut s.widened,
        |k| Widened {
            variable: k / 2,
            up: byte(k % 2),
        },
    );
    s
}

/// The column of an entry: that of a dense one, or of its row's slack.
fn column(k: usize, structurals: usize, dense: usize) -> usize {
    let width = dense.saturating_add(1);
    if k % width < dense {
        k % width
    } else {
        structurals.saturating_add(k / width)
    }
}

/// An entry: a dense one, or its row's slack.
fn entry(k: usize, dense: usize) -> f64 {
    if k % dense.saturating_add(1) < dense {
        3.0
    } else {
        1.0
    }
}

impl Case {
    /// Puts one of the lengths and numbers, and answers whether there is one at the place.
    fn put_number(&mut self, place: usize, value: usize) -> bool {
        // Kept: the outputs' lengths and the numbers are fields, so no table of them can be looked up.
        match place {
            14 => return self.lengths[Slice::WidenedVars as usize] == value,
            0..SLICES => self.lengths[place] = value,
            18 => self.outputs.high = value,
            19 => self.outputs.low = value,
            20 => self.outputs.magnitudes = value,
            21 => self.outputs.terms = value,
            22 => self.outputs.errors = value,
            _ => return self.numbers.put(place.saturating_sub(23), value),
        }
        true
    }

    /// Puts a value at a place of a slice, or of the lengths and numbers, and answers whether there is such a place.
    fn put(&mut self, slice: usize, place: usize, value: usize) -> bool {
        match Slice::from_number(slice) {
            Some(slice) => self.slices.put(slice, place, value),
            None => slice == SLICES && self.put_number(place, value),
        }
    }

    /// The number of the refusal that the sheet gets, 0 for none.
    fn answer(&self) -> usize {
        // Kept: arrays of a fixed size, since no program allocates and the limits are fixed.
        let mut high = [0.0; OUTPUT];
        let mut low = [0.0; OUTPUT];
        let mut magnitudes = [0.0; OUTPUT];
        let mut terms = [0u32; OUTPUT];
        let mut errors = [0.0; OUTPUT];
        let mut l = Lists {
            high: &mut high[..self.outputs.high.min(OUTPUT)],
            low: &mut low[..self.outputs.low.min(OUTPUT)],
            magnitudes: &mut magnitudes[..self.outputs.magnitudes.min(OUTPUT)],
            terms: &mut terms[..self.outputs.terms.min(OUTPUT)],
        };
        let sheet = self.slices.lent(&self.numbers, &self.lengths);
        let widened = self.slices.records(&self.lengths);
        match sheet_verdict(
            widened,
            &sheet,
            &mut l,
            &mut errors[..self.outputs.errors.min(OUTPUT)],
        ) {
            Ok(_) => 0,
            Err(refusal) => u32::from(refusal) as usize,
        }
    }
}

/// Runs a line: the last of a case asks for the sheet's refusal, any other changes the sheet. One that says nothing, or
/// nothing that can be done, counts among all alone.
fn run_line(
    rt: &impl Print,
    line: &[u8],
    case: &mut Case,
    tallies: &mut Tallies<KINDS>,
) -> io::Result<()> {
    let done = match read_line(line) {
        Some(Line::Sound(shape)) => {
            *case = sound_case(shape);
            true
        }
        Some(
            Line::Put {
                slice,
                place,
                value,
            },
        ) => case.put(slice, place, value),
        Some(Line::Expect(refusal)) => {
            return tallies.case(rt, refusal, case.answer() == refusal, line);
        }
        None => false,
    };
    if done {
        Ok(())
    } else {
        tallies.case(rt, KINDS, false, line)
    }
}

/// Writes a tally of each refusal and of all. The first question is asked of a file, so there is no refusal 1 here.
fn report(rt: &impl Print, tallies: &Tallies<KINDS>) -> io::Result<()> {
    for (refusal, tally) in tallies.kinds.iter().enumerate() {
        if refusal != 1 {
            println!(rt; "refusal {refusal}: {tally}")?;
        }
    }
    println!(rt; "{}", tallies.all)
}

fn main(rt: HostRuntime) -> io::Result<()> {
    let mut tallies = Tallies::<KINDS>::NONE;
    let mut case = Case {
        numbers: Numbers::ZERO,
        lengths: [0; SLICES],
        outputs: outputs_alike(0),
        slices: Slices::ZERO,
    };
    each_line::<LINE, _, _>(
        &mut rt.stdin(),
        &mut |line| { run_line(&rt, line, &mut case, &mut tallies) },
    )?;
    report(&rt, &tallies)
}
