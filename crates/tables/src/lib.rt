//! What `weigh` and the programs that run a table of cases share: the reading of lines, their numbers, doubles and their patterns, and
//! tallies of cases.

#![tactic(auto)]

ghost use Rattle.std.specs.Prelude.{◌≡◌, ℕ, ◌+◌, ◌-◌, ◌*◌, ◌^◌, ◌<◌, ◌≤◌, get_or, length, take, is_some, IfOk, IfSome};
ghost use Rattle.std.specs.Io.{ReadsAtMost};
ghost use Rattle.std.specs.Io.KnownBytes.{Consumes, IsAtEnd};
ghost use Rattle.tables.specs.Table.{digits, is_line, RunsLines};

use hex_digits::digit_of;
pub use hex_digits::{bits_of, double_of};
use std::io;
use std::io::Read;
pub use tabled::{Report, Tabled};
pub use tally::{Tallies, Tally, count};

mod tabled;
mod tally;

/// Reads until the bytes are full or the input ends, and answers how many came.
pub fn read_full<R: Read>(input: &mut R, bytes: &mut [u8]) -> io::Result<usize>
    ensures within { ReadsAtMost result bytes.new }
    ensures bytes { IfOk result (λ n. Consumes (R.remaining input.old) (R.remaining input.new) (take n bytes.new)) }
    ensures end { IfOk result (λ n. n < length bytes.new → IsAtEnd (R.remaining input.new)) }
{
    let mut done = 0;
    // Kept: no method of `Read` fills a slice and says how far it came: `read_exact` only fails, `read_to_end` needs the heap.
    while done < bytes.len() {
        let n = input.read(&mut bytes[done..])?;
        if n == 0 {
            break;
        }
        done += n;
    }
    Ok(done)
}

/// Runs each line of the input, until there is none left or an error comes, and answers how many there were. Behind what
/// came of a line cut short stand zeros, unless the reader wrote there, so what came has not the form of a line. Nothing
/// says that the input ends, and a proved loop has to: no run uses its turns up.
pub fn each_line<const LINE: usize, I: Read, F: FnMut(&[u8]) -> io::Result<()>>(
    input: &mut I,
    run: &mut F,
) -> io::Result<u64>
    requires length { LINE ≤ 4096 }
    requires callable { F.IsAlwaysCallable run.old }
    ensures ran { IfOk result (λ n.
        RunsLines F.FnMut LINE n (I.remaining input.old) (I.remaining input.new) run.old run.new) }
    ensures end { IfOk result (λ n. 0 < LINE → n < 2 ^ 64 - 1 → IsAtEnd (I.remaining input.new)) }
{
    // Kept: nothing says that the input ends and a proved loop has to, so turns are counted; `done` is the answer.
    for done in 0..u64::MAX {
        // Kept: an array of the largest size, since there is no heap and the limits are fixed.
        let mut line = [0u8; LINE];
        let n = read_full(input, &mut line)?;
        if n == 0 {
            return Ok(done);
        }
        run(&line)?;
        if n < LINE {
            return Ok(done + 1);
        }
    }
    Ok(u64::MAX)
}

/// The number that the 16 digits from `at` on spell. There is none where one is no digit or the bytes end before it.
pub fn number(s: &[u8], at: usize) -> Option<u64>
    ensures { result ≡ digits s.now 16 0 at }
{
    let field = s.get(at..)?.get(..16)?;
    let mut value = 0;
    for byte in field {
        value = value * 16 + digit_of(*byte)? as u64;
    }
    Some(value)
}

/// The numbers of a line, which has a letter, `N` numbers, each after a space, and its end.
#[tactic(auto, using(crate::proofs::Spelled::no_space, crate::proofs::Spelled::no_number), unfolding(crate::specs::Table::spelled))]
pub fn numbers<const N: usize>(line: &[u8]) -> Option<[u64; N]>
    requires { N ≤ 4096 }
    ensures form { is_some result ≡ is_line line.now N }
    ensures numbers { IfSome result (λ found. (k : ℕ) → k < N → digits line.now 16 0 (2 + 17 * k) ≡ Some (get_or found k 0)) }
{
    let mut found = [0u64; N];
    for (i, place) in found.iter_mut().enumerate() {
        if line.get(1 + 17 * i) != Some(&b' ') {
            return None;
        }
        *place = number(line, 2 + 17 * i)?;
    }
    if line.get(1 + 17 * N) != Some(&b'\n') {
        return None;
    }
    Some(found)
}
