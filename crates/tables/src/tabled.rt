//! The operations that a table has cases of.
ghost use Rattle.std.specs.Prelude.{◌≡◌, ℕ, Bool};
ghost use Rattle.tables.specs.Table.{counted, one_more};

use crate::tally::{Tallies, Tally};
use std::{fmt, io};

/// An operation that the lines of a table name by a letter.
pub trait Tabled: Copy + fmt::Display {
    /// The operation that a letter names.
    fn from_letter(letter: u8) -> Option<Self>;

    /// Its place among the tallies.
    fn place(self) -> usize;

    /// Whether a line has the form of the table and the operation answers what it says.
    fn holds(self, line: &[u8]) -> bool;
}

/// The tallies of some operations, each after its operation's name, and that of all.
#[derive(Drop)]
pub struct Report<'a, O> {
    pub operations: &'a [O],
    pub kinds: &'a [Tally],
    pub all: Tally,
}

impl<O: Tabled> fmt::Display for Report<'_, O> {
    fn fmt<W: fmt::Write>(&self, f: &mut fmt::Formatter<W>) -> fmt::Result {
        let operations = self.operations;
        let kinds = self.kinds;
        for (op, tally) in operations.iter().zip(kinds) {
            writeln!(f, "{op}: {tally}")?;
        }
        write!(f, "{}", self.all)
    }
}

impl<const KINDS: usize> Tallies<KINDS> {
    /// Runs the case on a line. One that names no operation counts among all alone.
    pub fn run_line<O: Tabled>(&mut self, rt: &impl Print, line: &[u8]) -> io::Result<()>
        ensures { (kind : ℕ) × (agrees : Bool) × (self.new.kinds ≡ counted agrees self.old.kinds kind) × (self.new.all ≡ one_more agrees self.old.all) }
    {
        let op = line.first().and_then(|letter| O::from_letter(*letter));
        let agrees = op.is_some_and(|op| op.holds(line));
        self.case(rt, op.map_or(KINDS, |op| op.place()), agrees, line)
    }
}
