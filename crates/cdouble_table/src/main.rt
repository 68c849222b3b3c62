// Runs the crate `cdouble`, and `mul_up` of `outward_by_errors`, on the table of standard input, which
// tests/cdouble_table/generate.py writes, and says for each operation how many cases were run and how many differ from
// the table.
//
// A line of the table is an operation's letter, five arguments and the two numbers of the right answer, with a space
// between them. A number is the 16 digits of a double's bit pattern, or of a count for `compensated_error`. Arguments
// and answers that an operation does not have are 0. A line of any other form counts as one that differs.
#![tactic(auto)]

use cdouble::{CDouble, add_up, compensated_error, distance_up};
use outward_by_errors::mul_up;
use std::{fmt, io};
use tables::{Report, Tabled, Tallies, bits_of, double_of, each_line, numbers};

// Bytes in a line, its end included.
const LINE: usize = 121;

// An operation that is run.
#[derive(Clone, Copy)]
enum Operation {
    TwoSum,
    Split,
    TwoProduct,
    Add,
    AddProduct,
    AddScaled,
    Neg,
    Normalized,
    AbsUp,
    Value,
    RoundedUp,
    RoundedDown,
    AddUp,
    MulUp,
    DistanceUp,
    CompensatedError,
}

const KINDS: usize = 16;

// The operations in the order in which they are declared and reported.
// Kept: arrays of a fixed size, since no program allocates and the limits are fixed.
const OPERATIONS: [Operation; KINDS] = [
    Operation::TwoSum,
    Operation::Split,
    Operation::TwoProduct,
    Operation::Add,
    Operation::AddProduct,
    Operation::AddScaled,
    Operation::Neg,
    Operation::Normalized,
    Operation::AbsUp,
    Operation::Value,
    Operation::RoundedUp,
    Operation::RoundedDown,
    Operation::AddUp,
    Operation::MulUp,
    Operation::DistanceUp,
    Operation::CompensatedError,
];

// The two numbers of an answer.
#[derive(Clone, Copy, PartialEq)]
struct Bits(u64, u64);

impl From<f64> for Bits {
    fn from(v: f64) -> Bits {
        Bits(bits_of(v), 0)
    }
}

impl From<CDouble> for Bits {
    fn from(c: CDouble) -> Bits {
        Bits(bits_of(c.hi), bits_of(c.lo))
    }
}

fn pair(hi: u64, lo: u64) -> CDouble {
    CDouble {
        hi: double_of(hi),
        lo: double_of(lo),
    }
}

impl Operation {
    // What it answers to five doubles, two of which `compensated_error` takes as counts.
    fn answer(self, first: u64, second: u64, d: CDouble, b: f64) -> Bits {
        let c = pair(first, second);
        match self {
            Operation::TwoSum => Bits::from(CDouble::two_sum(c.hi, c.lo)),
            Operation::Split => Bits::from(CDouble::split(c.hi)),
            Operation::TwoProduct => Bits::from(CDouble::two_product(c.hi, c.lo)),
            Operation::Add => Bits::from(c.add(d.hi)),
            Operation::AddProduct => Bits::from(c.add_product(d.hi, d.lo)),
            Operation::AddScaled => Bits::from(c.add_scaled(d, b)),
            Operation::Neg => Bits::from(c.neg()),
            Operation::Normalized => Bits::from(c.normalized()),
            Operation::AbsUp => Bits::from(c.abs_up()),
            Operation::Value => Bits::from(c.value()),
            Operation::RoundedUp => Bits::from(c.rounded(true)),
            Operation::RoundedDown => Bits::from(c.rounded(false)),
            Operation::AddUp => Bits::from(add_up(c.hi, c.lo)),
            Operation::MulUp => Bits::from(mul_up(c.hi, c.lo)),
            Operation::DistanceUp => Bits::from(distance_up(c.hi, c.lo)),
            Operation::CompensatedError => Bits::from(compensated_error(
                first as usize,
                second as usize,
                d.hi,
            )),
        }
    }
}

impl Tabled for Operation {
    fn from_letter(letter: u8) -> Option<Operation> {
        // Kept: the letters of the table become operations here; `TryFrom<u8>` would be no plainer, with an error that nobody reads.
        match letter {
            b'S' => Some(Operation::TwoSum),
            b'H' => Some(Operation::Split),
            b'P' => Some(Operation::TwoProduct),
            b'a' => Some(Operation::Add),
            b'p' => Some(Operation::AddProduct),
            b's' => Some(Operation::AddScaled),
            b'n' => Some(Operation::Neg),
            b'N' => Some(Operation::Normalized),
            b'm' => Some(Operation::AbsUp),
            b'v' => Some(Operation::Value),
            b'u' => Some(Operation::RoundedUp),
            b'd' => Some(Operation::RoundedDown),
            b'A' => Some(Operation::AddUp),
            b'M' => Some(Operation::MulUp),
            b'D' => Some(Operation::DistanceUp),
            b'e' => Some(Operation::CompensatedError),
            _ => None,
        }
    }

    fn place(self) -> usize {
        self as usize
    }

    fn holds(self, line: &[u8]) -> bool {
        let Some(found) = numbers::<7>(line) else {
            return false;
        };
        let [a, b, c, d, e, first, second] = found;
        self.answer(a, b, pair(c, d), double_of(e)) == Bits(first, second)
    }
}

impl fmt::Display for Operation {
    fn fmt<W: fmt::Write>(&self, f: &mut fmt::Formatter<W>) -> fmt::Result {
        f.write_str(match self {
            Operation::TwoSum => "two_sum",
            Operation::Split => "split",
            Operation::TwoProduct => "two_product",
            Operation::Add => "add",
            Operation::AddProduct => "add_product",
            Operation::AddScaled => "add_scaled",
            Operation::Neg => "neg",
            Operation::Normalized => "normalized",
            Operation::AbsUp => "abs_up",
            Operation::Value => "value",
            Operation::RoundedUp => "rounded up",
            Operation::RoundedDown => "rounded down",
            Operation::AddUp => "add_up",
            Operation::MulUp => "mul_up",
            Operation::DistanceUp => "distance_up",
            Operation::CompensatedError => "compensated_error",
        })
    }
}

// Kept: both mains share `each_line`, `run_line` and `Report`; one function of the rest takes the runtime, the operations, a type and two sizes, and with its two calls is no shorter.
fn main(rt: HostRuntime) -> io::Result<()> {
    let mut tallies = Tallies::<KINDS>::NONE;
    each_line::<LINE, _, _>(
        &mut rt.stdin(),
        &mut |line| tallies.run_line::<Operation>(&rt, line),
    )?;
    let report = Report {
        operations: &OPERATIONS,
        kinds: &tallies.kinds,
        all: tallies.all,
    };
    println!(rt; "{report}")
}
