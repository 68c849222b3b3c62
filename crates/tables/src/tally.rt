//! Tallies of cases.
ghost use Rattle.std.specs.Prelude.{◌≡◌};
ghost use Rattle.tables.specs.Table.{counted, one_more};

use std::{fmt, io};

/// How many cases that differ are printed.
const SHOWN: u64 = 20;

/// How many cases were run, and how many of them differ from the table.
#[derive(Clone, Copy)]
pub struct Tally {
    pub ran: u64,
    pub differ: u64,
}

impl Tally {
    /// No case was run.
    pub const NONE: Tally = Tally { ran: 0, differ: 0 };

    /// One case more.
    pub fn one_more(self, agrees: bool) -> Tally
        ensures { result ≡ one_more agrees self }
    {
        let differ = if agrees {
            self.differ
        } else {
            self.differ.saturating_add(1)
        };
        Tally {
            ran: self.ran.saturating_add(1),
            differ,
        }
    }
}

impl fmt::Display for Tally {
    fn fmt<W: fmt::Write>(&self, f: &mut fmt::Formatter<W>) -> fmt::Result {
        write!(f, "{} cases, {} differ", self.ran, self.differ)
    }
}

/// Counts a case at a place. A place past the end counts nothing.
pub fn count(tallies: &mut [Tally], at: usize, agrees: bool)
    ensures { tallies.new ≡ counted agrees tallies.old at }
{
    if at < tallies.len() {
        tallies[at] = tallies[at].one_more(agrees);
    }
}

/// The tallies of a run: of each kind of case, and of all.
#[derive(Clone, Copy)]
pub struct Tallies<const KINDS: usize> {
    pub kinds: [Tally; KINDS],
    pub all: Tally,
}

impl<const KINDS: usize> Tallies<KINDS> {
    /// No case was run.
    pub const NONE: Self = Tallies {
        kinds: [Tally::NONE; KINDS],
        all: Tally::NONE,
    };

    /// Counts a case of a kind; one of no kind counts among all alone. The first that differ are printed.
    pub fn case(
        &mut self,
        rt: &impl Print,
        kind: usize,
        agrees: bool,
        line: &[u8],
    ) -> io::Result<()>
        ensures kinds { self.new.kinds ≡ counted agrees self.old.kinds kind }
        ensures all { self.new.all ≡ one_more agrees self.old.all }
    {
        count(&mut self.kinds, kind, agrees);
        self.all = self.all.one_more(agrees);
        if !agrees && self.all.differ <= SHOWN {
            rt.write_all(line)?;
        }
        Ok(())
    }
}
