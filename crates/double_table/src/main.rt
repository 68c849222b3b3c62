// Runs the crates `double_bits`, `adjacent` and `outward_by_ranks` on the table of standard input, which
// tests/double_table/generate.py writes, and says for each operation how many cases were run and how many differ from the
// table.
//
// A line of the table is an operation's letter, its two arguments and the right answer, with a space between them:
// `U 3FF0000000000000 3CA0000000000000 3FF0000000000001`. A number is the 16 digits of a double's bit pattern. An
// operation on one number has it twice. A line of any other form counts as one that differs.
#![tactic(auto)]

use std::{fmt, io};
use tables::{Report, Tabled, Tallies, bits_of, double_of, each_line, numbers};

// Bytes in a line, its end included.
const LINE: usize = 53;

// An operation that is run.
#[derive(Clone, Copy)]
enum Operation {
    Abs,
    IsFinite,
    Max,
    Min,
    NextUp,
    NextDown,
    SumUp,
    SumDown,
    ProductDown,
    ProductUp,
}

const KINDS: usize = 10;

// The operations in the order in which they are declared and reported.
// Kept: arrays of a fixed size, since no program allocates and the limits are fixed.
const OPERATIONS: [Operation; KINDS] = [
    Operation::Abs,
    Operation::IsFinite,
    Operation::Max,
    Operation::Min,
    Operation::NextUp,
    Operation::NextDown,
    Operation::SumUp,
    Operation::SumDown,
    Operation::ProductDown,
    Operation::ProductUp,
];

impl Operation {
    // What it answers, as bits.
    fn answer(self, a: f64, b: f64) -> u64 {
        match self {
            Operation::Abs => bits_of(double_bits::abs(a)),
            Operation::IsFinite => u64::from(double_bits::is_finite(a)),
            Operation::Max => bits_of(double_bits::max(a, b)),
            Operation::Min => bits_of(double_bits::min(a, b)),
            Operation::NextUp => bits_of(adjacent::next_up(a)),
            Operation::NextDown => bits_of(adjacent::next_down(a)),
            Operation::SumUp => bits_of(outward_by_ranks::rounded_sum::<true>(a, b)),
            Operation::SumDown => bits_of(outward_by_ranks::rounded_sum::<false>(a, b)),
            Operation::ProductDown => bits_of(outward_by_ranks::product_bounds(a, b).down),
            Operation::ProductUp => bits_of(outward_by_ranks::product_bounds(a, b).up),
        }
    }
}

impl Tabled for Operation {
    fn from_letter(letter: u8) -> Option<Operation> {
        // Kept: the letters of the table become operations here; `TryFrom<u8>` would be no plainer, with an error that nobody reads.
        match letter {
            b'a' => Some(Operation::Abs),
            b'f' => Some(Operation::IsFinite),
            b'M' => Some(Operation::Max),
            b'm' => Some(Operation::Min),
            b'u' => Some(Operation::NextUp),
            b'd' => Some(Operation::NextDown),
            b'U' => Some(Operation::SumUp),
            b'D' => Some(Operation::SumDown),
            b'p' => Some(Operation::ProductDown),
            b'P' => Some(Operation::ProductUp),
            _ => None,
        }
    }

    fn place(self) -> usize {
        self as usize
    }

    fn holds(self, line: &[u8]) -> bool {
        let Some(found) = numbers::<3>(line) else {
            return false;
        };
        let [a, b, right] = found;
        self.answer(double_of(a), double_of(b)) == right
    }
}

impl fmt::Display for Operation {
    fn fmt<W: fmt::Write>(&self, f: &mut fmt::Formatter<W>) -> fmt::Result {
        f.write_str(match self {
            Operation::Abs => "abs",
            Operation::IsFinite => "is_finite",
            Operation::Max => "max",
            Operation::Min => "min",
            Operation::NextUp => "next_up",
            Operation::NextDown => "next_down",
            Operation::SumUp => "sum_up",
            Operation::SumDown => "sum_down",
            Operation::ProductDown => "product_bounds down",
            Operation::ProductUp => "product_bounds up",
        })
    }
}

// Kept: both mains share `each_line`, `run_line` and `Report`; one function of the rest takes the runtime, the operations, a type and two sizes, and with its two calls is no shorter.
fn main(rt: HostRuntime) -> io::Result<()> {
    let mut tallies = Tallies::<KINDS>::NONE;
    each_line::<LINE, _, _>(
        &mut rt.stdin(),
        &mut |line| tallies.run_line::<Operation>(&rt, line),
    )?;
    let report = Report {
        operations: &OPERATIONS,
        kinds: &tallies.kinds,
        all: tallies.all,
    };
    println!(rt; "{report}")
}
