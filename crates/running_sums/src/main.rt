// Keeps two running sums of the pairs of doubles on standard input, the sum of all `a` and the sum of all `a · b`, each as a
// double-double that is lent to `cdouble_add` or `cdouble_add_scaled`, and writes both at the end.
//
// A line is two numbers with a space between them, each the 16 digits of a double's bit pattern. A line of any other form is
// written as it is, and adds nothing.
#![tactic(auto)]

ghost use Rattle.std.specs.Prelude.{◌≡◌};
ghost use Rattle.cdouble.specs.Compensated.{pair, plus, plus_scaled, plus_zero};

use cdouble::{CDouble, cdouble_add, cdouble_add_scaled};
use std::io;
use tables::{bits_of, double_of, each_line, number};

// Bytes in a line, its end included.
const LINE: usize = 34;

// The running sums.
#[derive(Clone, Copy)]
struct Sums {
    sum: CDouble,
    dot: CDouble,
}

// `sum + v`, by the function that adds in place.
fn added(sum: CDouble, v: f64) -> CDouble
    ensures { result ≡ plus sum v }
{
    let mut s = sum;
    cdouble_add(&mut s, v);
    s
}

// `sum + c · b`, by the function that adds in place.
fn added_scaled(sum: CDouble, c: CDouble, b: f64) -> CDouble
    ensures { result ≡ plus_scaled sum c b }
{
    let mut s = sum;
    cdouble_add_scaled(&mut s, c, b);
    s
}

// The sums with one more pair.
fn with_pair(s: Sums, a: f64, b: f64) -> Sums
    ensures { (result.sum ≡ plus s.sum a) × (result.dot ≡ plus_scaled s.dot (pair a plus_zero) b) }
{
    let sum = s.sum;
    let dot = s.dot;
    let c = CDouble { hi: a, lo: 0.0 };
    let next_sum = added(sum, a);
    let next_dot = added_scaled(dot, c, b);
    Sums {
        sum: next_sum,
        dot: next_dot,
    }
}

// The two doubles of a line.
fn read_terms(line: &[u8]) -> Option<(f64, f64)> {
    if line.get(16) != Some(&b' ') || line.get(33) != Some(&b'\n') {
        return None;
    }
    let a = number(line, 0)?;
    let b = number(line, 17)?;
    Some((double_of(a), double_of(b)))
}

// Adds to the sums what a line says.
fn add_line(rt: &impl Print, sums: &mut Sums, line: &[u8]) -> io::Result<()> {
    let Some((a, b)) = read_terms(line) else {
        rt.write_all(b"not two doubles: ")?;
        return rt.write_all(line);
    };
    *sums = with_pair(*sums, a, b);
    Ok(())
}

// Writes both parts of a sum after its name.
fn report(rt: &impl Print, name: &str, c: CDouble) -> io::Result<()> {
    println!(rt; "{name} {:016X} {:016X}", bits_of(c.hi), bits_of(c.lo))
}

fn main(rt: HostRuntime) -> io::Result<()> {
    let zero = CDouble { hi: 0.0, lo: 0.0 };
    let mut sums = Sums {
        sum: zero,
        dot: zero,
    };
    each_line::<LINE, _, _>(&mut rt.stdin(), &mut |line| add_line(&rt, &mut sums, line))?;
    report(&rt, "sum", sums.sum)?;
    report(&rt, "dot", sums.dot)
}
