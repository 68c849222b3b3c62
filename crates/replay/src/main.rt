// Runs the sheets of standard input, which tests/differential writes with the answers of the Rust and tests/outward with
// gaps worked out in exact fractions, and says for each class of sheets how many were run and how many of them differ.
//
// A sheet is a line that makes it, lines that fill it, a line with its answer, one with its gaps, and lines with what its
// outputs are to be. A line is a letter and eight numbers of 16 digits, each after a space. Numbers that a letter does not
// have are 0.
//
//     S rows structurals entries widened extra class noted    a new sheet: each slice has the length that these need,
//                                  each output as many places as there are variables, and the extra; noted is 1 where a
//                                  product differs from the Rust's, else 0
//     D slice place n x x x x x    puts n values, 1 to 5, into a slice from a place on: numbers, flags, doubles' patterns
//     G refusal holds gap allowance cut zero_within_error multipliers_zeroed rows    runs the sheet: the kept numbers
//     O refusal outward exact      the other reckoning: the refusal, the outward gap, and the exact gap rounded down, which is
//                                  NaN where there is none; both 0 where the sheet is refused
//     L list place n x x x x x     n places of an output, 1 to 5: high, low, magnitudes, terms, errors, place after place
//
// A sheet that is noted is one on which a product that the promise of `mul_up` gives has other bits than the Rust's:
// such a sheet's answer is the Rust's but for its products, which are the promised ones.
//
// A sheet is put to `sheet_verdict` once. A slice goes by its place among those of `case_slices`. After them comes one that is
// not handed over: the numbers of the sheet. A new sheet has 0 everywhere, but for the sizes among its numbers; its outputs
// have FILL. A sheet agrees if its kept numbers do, its outward gap does and is not above the exact one, it is declined just
// where both reckonings say so, and every place of every output agrees. A line of any other form counts as a sheet that differs.
#![tactic(auto)]

ghost use Rattle.std.specs.Prelude.{◌≤◌, length};

use case_slices::{NUMBERS, Numbers, SLICES, Slice, Slices};
use sheet::{Lists, Refusal};
use std::io;
use tables::{Tally, bits_of, count, double_of, each_line, numbers};
use verdict::{Verdict, sheet_verdict};

// Bytes in a line, its end included.
const LINE: usize = 138;

// The classes of sheets.
const CLASSES: usize = 13;

// How many lines that differ are printed.
const SHOWN: u64 = 20;

// The places of an output, and what they have before a sheet is run.
const OUTPUT: usize = 400;

const FILL: u64 = 0x5A5A_5A5A_5A5A_5A5A;

const FILL_TERMS: u32 = 0x5A5A_5A5A;

/// What a line says, as the numbers on it.
#[derive(Clone, Copy)]
enum Line {
    New([usize; 8]),
    Fill([usize; 8]),
    Run([usize; 8]),
    Gaps([usize; 8]),
    List([usize; 8]),
}

/// How many of each thing a sheet has, and its class.
#[derive(Clone, Copy)]
struct Shape {
    rows: usize,
    structurals: usize,
    entries: usize,
    widened: usize,
    extra: usize,
    class: usize,
}

/// An output.
#[derive(Clone, Copy, PartialEq)]
enum Output {
    High,
    Low,
    Magnitudes,
    Terms,
    Errors,
}

/// What the outputs have after a sheet is run.
#[derive(Clone, Copy)]
struct Written {
    // Kept: arrays of a fixed size, since no program allocates and the limits are fixed.
    high: [f64; OUTPUT],
    low: [f64; OUTPUT],
    magnitudes: [f64; OUTPUT],
    terms: [u32; OUTPUT],
    errors: [f64; OUTPUT],
}

/// What is to be compared next of a sheet that was run.
#[derive(Clone, Copy, PartialEq)]
enum Next {
    Gaps,
    Place(Output, usize),
    Nothing,
}

/// A sheet, and how far it was compared. It is sound as long as all that was compared agrees.
#[derive(Drop)]
struct Case {
    shape: Shape,
    numbers: Numbers,
    lengths: [usize; SLICES],
    slices: Slices,
    written: Written,
    // What was answered, once the sheet was run.
    found: Option<Result<Verdict, Refusal>>,
    next: Next,
    sound: bool,
}

/// The tallies of the classes and of all sheets, and how many lines differ. A sheet differs until all of it agrees.
#[derive(Clone, Copy)]
struct Counts {
    classes: [Tally; CLASSES],
    all: Tally,
    lines: u64,
}

/// A case, and what was counted so far.
#[derive(Drop)]
struct Run {
    case: Case,
    counts: Counts,
}

/// The kept numbers of a sheet as they stand on a line, doubles as their patterns. All but the refusal is 0 where there is one.
fn numbers_of(found: Result<Verdict, Refusal>) -> [usize; 8] {
    match found {
        Ok(v) => [
            0,
            usize::from(v.proof.holds),
            bits_of(v.proof.gap) as usize,
            bits_of(v.proof.allowance) as usize,
            bits_of(v.proof.cut) as usize,
            v.proof.zero_within_error,
            v.proof.multipliers_zeroed,
            v.proof.rows,
        ],
        Err(refusal) => [u32::from(refusal) as usize, 0, 0, 0, 0, 0, 0, 0],
    }
}

impl Output {
    /// The output that a line has at a number.
    fn from_number(n: usize) -> Option<Output> {
        // Kept: a line's numbers become outputs here; `TryFrom` would be no plainer, with an error that nobody reads.
        match n {
            0 => Some(Output::High),
            1 => Some(Output::Low),
            2 => Some(Output::Magnitudes),
            3 => Some(Output::Terms),
            4 => Some(Output::Errors),
            _ => None,
        }
    }

    /// What comes after its last place.
    fn after(self) -> Next {
        match self {
            Output::High => Next::Place(Output::Low, 0),
            Output::Low => Next::Place(Output::Magnitudes, 0),
            Output::Magnitudes => Next::Place(Output::Terms, 0),
            Output::Terms => Next::Place(Output::Errors, 0),
            Output::Errors => Next::Nothing,
        }
    }
}

impl Shape {
    /// That of a sheet with nothing in it.
    const EMPTY: Shape = Shape {
        rows: 0,
        structurals: 0,
        entries: 0,
        widened: 0,
        extra: 0,
        class: 0,
    };

    /// The one on a line, if there is room for it and the line has no more.
    fn on_line(a: [usize; 8]) -> Option<Shape> {
        let [
            rows,
            structurals,
            entries,
            widened,
            extra,
            class,
            noted,
            no_more,
        ] = a;
        let small = rows < 132 && structurals <= 257 && entries <= 4100 && widened <= 776;
        if small && extra <= 12 && class < CLASSES && noted <= 1 && no_more == 0 {
            Some(Shape {
                rows,
                structurals,
                entries,
                widened,
                extra,
                class,
            })
        } else {
            None
        }
    }

    /// The variables, slacks and all.
    fn variables(self) -> usize {
        self.rows.saturating_add(self.structurals)
    }

    /// The length of each output.
    fn outputs(self) -> usize
        ensures { result ≤ 400 }
    {
        self.variables().saturating_add(self.extra).min(OUTPUT)
    }
}

impl Written {
    /// What the outputs have before a sheet is run.
    fn new() -> Written {
        let v = double_of(FILL);
        Written {
            high: [v; OUTPUT],
            low: [v; OUTPUT],
            magnitudes: [v; OUTPUT],
            terms: [FILL_TERMS; OUTPUT],
            errors: [v; OUTPUT],
        }
    }

    /// What an output has at a place, a double as its pattern.
    fn at(&self, output: Output, place: usize) -> Option<usize> {
        // Kept: each output is a field, and one has another type, so no table of them can be looked up.
        match output {
            Output::High => pattern_at(&self.high, place),
            Output::Low => pattern_at(&self.low, place),
            Output::Magnitudes => pattern_at(&self.magnitudes, place),
            Output::Terms => self.terms.get(place).map(|n| *n as usize),
            Output::Errors => pattern_at(&self.errors, place),
        }
    }

    /// Whether an output has from a place on what a line says.
    fn has(&self, output: Output, place: usize, values: &[usize]) -> bool {
        for (k, value) in values.iter().enumerate() {
            if self.at(output, place.saturating_add(k)) != Some(*value) {
                return false;
            }
        }
        true
    }
}

/// A double's pattern at a place.
fn pattern_at(output: &[f64], place: usize) -> Option<usize> {
    output.get(place).map(|v| bits_of(*v) as usize)
}

impl Case {
    /// A new sheet: 0 everywhere, but for its sizes.
    fn new(shape: Shape) -> Case {
        let numbers = Numbers {
            rows: shape.rows,
            structurals: shape.structurals,
            entries: shape.entries,
            ..Numbers::ZERO
        };
        Case {
            shape,
            numbers,
            lengths: numbers.lengths(shape.widened),
            slices: Slices::ZERO,
            written: Written::new(),
            found: None,
            next: Next::Nothing,
            sound: false,
        }
    }

    /// Puts a value at a place of a slice, or of the numbers, and answers whether there is such a place.
    fn put(&mut self, slice: usize, place: usize, value: usize) -> bool {
        match Slice::from_number(slice) {
            Some(slice) => place < self.lengths[slice as usize]
                && self.slices.put(slice, place, value),
            // A line has the sizes after the other numbers.
            None => slice == SLICES
                && place < NUMBERS
                && self.numbers.put((place + 3) % NUMBERS, value),
        }
    }

    /// Puts the values of a line into a slice from a place on, and answers whether it has such places.
    fn put_values(&mut self, slice: usize, place: usize, values: &[usize]) -> bool {
        for (k, value) in values.iter().enumerate() {
            if !self.put(slice, place.saturating_add(k), *value) {
                return false;
            }
        }
        true
    }

    /// The verdict on the sheet. Keeps it, and what the outputs have then.
    fn answer(&mut self) -> Result<Verdict, Refusal> {
        let n = self.shape.outputs();
        let mut w = Written::new();
        let mut l = Lists {
            high: &mut w.high[..n],
            low: &mut w.low[..n],
            magnitudes: &mut w.magnitudes[..n],
            terms: &mut w.terms[..n],
        };
        let sheet = self.slices.lent(&self.numbers, &self.lengths);
        let widened = self.slices.records(&self.lengths);
        let found = sheet_verdict(widened, &sheet, &mut l, &mut w.errors[..n]);
        self.written = w;
        self.found = Some(found);
        found
    }
}

/// The values of a line that has a number for a place's, and from 1 to 5 values.
fn values_of(a: &[usize; 8]) -> Option<&[usize]> {
    let n = a[2];
    if 1 <= n && n <= 5 {
        Some(&a[3..3 + n])
    } else {
        None
    }
}

/// Whether a verdict declines just where both reckonings say so.
fn declines_rightly(v: Verdict) -> bool {
    v.declined == (v.proof.holds & (0.0 < v.outward))
}

/// Whether an outward gap is the one on a line, and not above the exact one there, or −infinity, and the order is declined
/// just where it and the kept numbers say so.
fn gap_agrees(found: Result<Verdict, Refusal>, a: [usize; 8]) -> bool {
    let (refusal, gap, sound) = match found {
        Ok(v) => (0, v.outward, declines_rightly(v)),
        Err(refusal) => (u32::from(refusal) as usize, 0.0, true),
    };
    let within = gap == f64::NEG_INFINITY || gap <= double_of(a[2] as u64);
    refusal == a[0] && bits_of(gap) as usize == a[1] && within && sound && a[3..] == [0; 5]
}

impl Counts {
    const NONE: Counts = Counts {
        classes: [Tally::NONE; CLASSES],
        all: Tally::NONE,
        lines: 0,
    };

    /// Counts a sheet that is run.
    fn open(&mut self, class: usize) {
        count(&mut self.classes, class, false);
        self.all = self.all.one_more(false);
    }

    /// Counts a sheet all of which agrees.
    fn agree(&mut self, class: usize) {
        if class < CLASSES {
            self.classes[class] = agreeing(self.classes[class]);
        }
        self.all = agreeing(self.all);
    }

    /// Counts a line that differs, and prints it if it's among the first.
    fn show(&mut self, rt: &impl Print, line: &[u8]) -> io::Result<()> {
        self.lines = self.lines.saturating_add(1);
        if self.lines <= SHOWN {
            rt.write_all(line)?;
        }
        Ok(())
    }

    /// Counts a line that has not the form of one, as a sheet of no class that differs.
    fn refuse(&mut self, rt: &impl Print, line: &[u8]) -> io::Result<()> {
        self.all = self.all.one_more(false);
        self.show(rt, line)
    }
}

/// One sheet less that differs.
fn agreeing(tally: Tally) -> Tally {
    Tally {
        ran: tally.ran,
        differ: tally.differ.saturating_sub(1),
    }
}

/// What a line says. One of another form says nothing.
fn read_line(line: &[u8]) -> Option<Line> {
    let a = numbers::<8>(line)?.map(|n| n as usize);
    // Kept: the letters of the table become what a line says here; `TryFrom<u8>` would be no plainer, with an error that nobody reads.
    match line.first()? {
        b'S' => Some(Line::New(a)),
        b'D' => Some(Line::Fill(a)),
        b'G' => Some(Line::Run(a)),
        b'O' => Some(Line::Gaps(a)),
        b'L' => Some(Line::List(a)),
        _ => None,
    }
}

impl Run {
    /// Takes in whether what a line says of a sheet agrees. After the last place a sheet that agrees is counted.
    fn settle(&mut self, rt: &impl Print, line: &[u8], ok: bool) -> io::Result<()> {
        if !ok {
            self.case.sound = false;
            self.counts.show(rt, line)?;
        }
        if self.case.next == Next::Nothing && self.case.sound {
            self.counts.agree(self.case.shape.class);
        }
        Ok(())
    }

    /// Runs a sheet whose answer is on a line.
    fn run_sheet(&mut self, rt: &impl Print, line: &[u8], a: [usize; 8]) -> io::Result<()> {
        self.counts.open(self.case.shape.class);
        self.case.next = Next::Gaps;
        self.case.sound = true;
        let ok = numbers_of(self.case.answer()) == a;
        self.settle(rt, line, ok)
    }

    /// Compares the outward gap of a sheet whose gaps are on a line, if it was run just before.
    fn compare_gaps(&mut self, rt: &impl Print, line: &[u8], a: [usize; 8]) -> io::Result<()> {
        let Some(found) = self.case.found else {
            return self.counts.refuse(rt, line);
        };
        if self.case.next != Next::Gaps {
            return self.counts.refuse(rt, line);
        }
        self.case.next = if self.case.shape.outputs() == 0 {
            Next::Nothing
        } else {
            Next::Place(Output::High, 0)
        };
        let ok = gap_agrees(found, a);
        self.settle(rt, line, ok)
    }

    /// Compares places of an output, if they are those to be compared next.
    fn compare(&mut self, rt: &impl Print, line: &[u8], a: [usize; 8]) -> io::Result<()> {
        let place = a[1];
        let Some(output) = Output::from_number(a[0]) else {
            return self.counts.refuse(rt, line);
        };
        let Some(values) = values_of(&a) else {
            return self.counts.refuse(rt, line);
        };
        let end = place.saturating_add(values.len());
        let length = self.case.shape.outputs();
        if self.case.next != Next::Place(output, place) || length < end {
            return self.counts.refuse(rt, line);
        }
        self.case.next = if end < length {
            Next::Place(output, end)
        } else {
            output.after()
        };
        let ok = self.case.written.has(output, place, values);
        self.settle(rt, line, ok)
    }

    /// Makes a new sheet, and answers whether there is room for it.
    fn make(&mut self, a: [usize; 8]) -> bool {
        match Shape::on_line(a) {
            Some(shape) => {
                self.case = Case::new(shape);
                true
            }
            None => false,
        }
    }

    /// Puts the values of a line into a slice, and answers whether it has such places.
    fn fill(&mut self, a: [usize; 8]) -> bool {
        match values_of(&a) {
            Some(values) => self.case.put_values(a[0], a[1], values),
            None => false,
        }
    }

    /// Runs a line.
    fn run_line(&mut self, rt: &impl Print, line: &[u8]) -> io::Result<()> {
        let done = match read_line(line) {
            Some(Line::New(a)) => self.make(a),
            Some(Line::Fill(a)) => self.fill(a),
            Some(Line::Run(a)) => return self.run_sheet(rt, line, a),
            Some(Line::Gaps(a)) => return self.compare_gaps(rt, line, a),
            Some(Line::List(a)) => return self.compare(rt, line, a),
            None => false,
        };
        if done {
            Ok(())
        } else {
            self.counts.refuse(rt, line)
        }
    }
}

/// Writes how many sheets of each class and of all were run and how many differ.
fn report(rt: &impl Print, counts: &Counts) -> io::Result<()> {
    for (class, tally) in counts.classes.iter().enumerate() {
        println!(rt;
            "class {class}: {} sheets, {} differ",
            tally.ran, tally.differ
        )?;
    }
    println!(rt; "{} sheets, {} differ", counts.all.ran, counts.all.differ)
}

fn main(rt: HostRuntime) -> io::Result<()> {
    let mut run = Run {
        case: Case::new(Shape::EMPTY),
        counts: Counts::NONE,
    };
    each_line::<LINE, _, _>(&mut rt.stdin(), &mut |line| run.run_line(&rt, line))?;
    report(&rt, &run.counts)
}
