//! The slices of a sheet that a table of cases fills: room for each, and the front of it that the sheet has. The widened list, whose
//! variables and sides are two slices of a table, is lent apart, as records.

#![tactic(auto)]

ghost use Rattle.std.specs.Prelude.{◌≡◌, ◌%◌, ◌≤◌, List, length, take, nat_lt, set, MatchOption};
ghost use Rattle.questions.specs.declared.widened.Widened.{Widened};
ghost use Rattle.case_slices.specs.Slices.{number_of, room};
ghost use Rattle.case_slices.specs.Cases.{item_at, lengths, lent, recorded, with_number, with_value};
ghost use Rattle.sheet.specs.Lent.{lent_sheet};
ghost use Rattle.sheet.specs.declared.outputs.Outputs.{Outputs};

use questions::Widened;
use sheet::Sheet;
use tables::double_of;

/// A few more rows, structural variables, variables, widened items and entries than a sheet may have.
pub const ROWS: usize = 132;

pub const STRUCTURALS: usize = 260;

pub const VARIABLES: usize = 388;

pub const WIDENED: usize = 776;

pub const ENTRIES: usize = 4100;

/// How many slices a table has of a sheet. After them it may name the numbers of a sheet.
pub const SLICES: usize = 18;

/// How many numbers `Numbers::put` knows.
pub const NUMBERS: usize = 7;

/// A slice that a table has of a sheet.
#[derive(Clone, Copy)]
pub enum Slice {
    Starts,
    Columns,
    Entries,
    RightSides,
    Scales,
    Integer,
    Mins,
    Maxs,
    LowTolerances,
    HighTolerances,
    Basic,
    Places,
    Values,
    WidenedVars,
    WidenedUps,
    RhoHi,
    RhoLo,
    Second,
}

impl Slice {
    /// The slice that a table has at a number.
    pub fn from_number(n: usize) -> Option<Slice>
        ensures { MatchOption result (18 ≤ n) (λ slice. number_of slice ≡ n) }
    {
        // Kept: a table's numbers become slices here; `TryFrom` would be no plainer, with an error that nobody reads.
        match n {
            0 => Some(Slice::Starts),
            1 => Some(Slice::Columns),
            2 => Some(Slice::Entries),
            3 => Some(Slice::RightSides),
            4 => Some(Slice::Scales),
            5 => Some(Slice::Integer),
            6 => Some(Slice::Mins),
            7 => Some(Slice::Maxs),
            8 => Some(Slice::LowTolerances),
            9 => Some(Slice::HighTolerances),
            10 => Some(Slice::Basic),
            11 => Some(Slice::Places),
            12 => Some(Slice::Values),
            13 => Some(Slice::WidenedVars),
            14 => Some(Slice::WidenedUps),
            15 => Some(Slice::RhoHi),
            16 => Some(Slice::RhoLo),
            17 => Some(Slice::Second),
            _ => None,
        }
    }
}

/// The numbers of a sheet, in the order in which `put` counts them.
#[derive(Clone, Copy)]
pub struct Numbers {
    pub rows: usize,
    pub structurals: usize,
    pub entries: usize,
    pub feasibility: f64,
    pub checked: u8,
    pub leaving_row: usize,
    pub leaving_up: u8,
}

impl Numbers {
    /// 0 everywhere.
    pub const ZERO: Numbers = Numbers {
        rows: 0,
        structurals: 0,
        entries: 0,
        feasibility: 0.0,
        checked: 0,
        leaving_row: 0,
        leaving_up: 0,
    };

    /// Puts one of the numbers, and answers whether there is one at the place.
    pub fn put(&mut self, place: usize, value: usize) -> bool
        ensures room { result ≡ nat_lt place 7 }
        ensures numbers { self.new ≡ with_number self.old place value }
    {
        // Kept: the numbers are fields of three types, so no table of them can be looked up.
        match place {
            0 => self.rows = value,
            1 => self.structurals = value,
            2 => self.entries = value,
            3 => self.feasibility = double_of(value as u64),
            4 => self.checked = byte(value),
            5 => self.leaving_row = value,
            6 => self.leaving_up = byte(value),
            _ => return false,
        }
        true
    }

    /// The length of each slice of a sheet of these sizes, which widens so many items.
    pub fn lengths(&self, widened: usize) -> [usize; SLICES]
        ensures { result ≡ lengths self.now widened }
    {
        let mut found = [self.rows.saturating_add(self.structurals); SLICES];
        found[Slice::Starts as usize] = self.rows.saturating_add(1);
        found[Slice::Columns as usize] = self.entries;
        found[Slice::Entries as usize] = self.entries;
        found[Slice::RightSides as usize] = self.rows;
        found[Slice::Scales as usize] = self.rows;
        found[Slice::Integer as usize] = self.structurals;
        found[Slice::WidenedVars as usize] = widened;
        found[Slice::WidenedUps as usize] = widened;
        found[Slice::RhoHi as usize] = self.rows;
        found[Slice::RhoLo as usize] = self.rows;
        found[Slice::Second as usize] = self.rows;
        found
    }
}

/// A widened item before a table says anything of it.
const NO_ITEM: Widened = Widened { variable: 0, up: 0 };

/// Room for each slice.
// Kept: a sheet lends its slices apart, and the programs have no heap, so each has an array of its own.
#[derive(Drop)]
pub struct Slices {
    pub starts: [usize; ROWS],
    pub columns: [usize; ENTRIES],
    pub entries: [f64; ENTRIES],
    pub right_sides: [f64; ROWS],
    pub scales: [f64; ROWS],
    pub integer: [u8; STRUCTURALS],
    pub mins: [f64; VARIABLES],
    pub maxs: [f64; VARIABLES],
    pub low_tolerances: [f64; VARIABLES],
    pub high_tolerances: [f64; VARIABLES],
    pub basic: [u8; VARIABLES],
    pub places: [usize; VARIABLES],
    pub values: [f64; VARIABLES],
    pub widened: [Widened; WIDENED],
    pub rho_hi: [f64; ROWS],
    pub rho_lo: [f64; ROWS],
    pub second: [f64; ROWS],
}

impl Slices {
    /// 0 everywhere.
    pub const ZERO: Slices = Slices {
        starts: [0; ROWS],
        columns: [0; ENTRIES],
        entries: [0.0; ENTRIES],
        right_sides: [0.0; ROWS],
        scales: [0.0; ROWS],
        integer: [0; STRUCTURALS],
        mins: [0.0; VARIABLES],
        maxs: [0.0; VARIABLES],
        low_tolerances: [0.0; VARIABLES],
        high_tolerances: [0.0; VARIABLES],
        basic: [0; VARIABLES],
        places: [0; VARIABLES],
        values: [0.0; VARIABLES],
        widened: [NO_ITEM; WIDENED],
        rho_hi: [0.0; ROWS],
        rho_lo: [0.0; ROWS],
        second: [0.0; ROWS],
    };

    /// The widened item at a place, one of 0 past the last.
    fn item(&self, place: usize) -> Widened
        ensures { result ≡ item_at self.now place }
    {
        self.widened.get(place).copied().unwrap_or(NO_ITEM)
    }

    /// Puts a value at a place of a slice, a number, a flag or a double's pattern, and answers whether there is room.
    pub fn put(&mut self, slice: Slice, place: usize, value: usize) -> bool
        ensures room { result ≡ nat_lt place (room slice) }
        ensures slices { self.new ≡ with_value self.old slice place value }
    {
        let flag = byte(value);
        let real = double_of(value as u64);
        let item = self.item(place);
        // Kept: each slice is a field, and they have three types, so no table of them can be looked up.
        match slice {
            Slice::Starts => put_at(&mut self.starts, place, value),
            Slice::Columns => put_at(&mut self.columns, place, value),
            Slice::Entries => put_at(&mut self.entries, place, real),
            Slice::RightSides => put_at(&mut self.right_sides, place, real),
            Slice::Scales => put_at(&mut self.scales, place, real),
            Slice::Integer => put_at(&mut self.integer, place, flag),
            Slice::Mins => put_at(&mut self.mins, place, real),
            Slice::Maxs => put_at(&mut self.maxs, place, real),
            Slice::LowTolerances => put_at(&mut self.low_tolerances, place, real),
            Slice::HighTolerances => put_at(&mut self.high_tolerances, place, real),
            Slice::Basic => put_at(&mut self.basic, place, flag),
            Slice::Places => put_at(&mut self.places, place, value),
            Slice::Values => put_at(&mut self.values, place, real),
            Slice::WidenedVars => put_at(
                &mut self.widened,
                place,
                Widened {
                    variable: value,
                    up: item.up,
                },
            ),
            Slice::WidenedUps => put_at(
                &mut self.widened,
                place,
                Widened {
                    variable: item.variable,
                    up: flag,
                },
            ),
            Slice::RhoHi => put_at(&mut self.rho_hi, place, real),
            Slice::RhoLo => put_at(&mut self.rho_lo, place, real),
            Slice::Second => put_at(&mut self.second, place, real),
        }
    }

    /// The widened list: the front of the items, as long as that of the variables.
    pub fn records(&self, lengths: &[usize; SLICES]) -> &[Widened]
        ensures { result.now ≡ recorded self.now lengths.now }
    {
        part(&self.widened, lengths[Slice::WidenedVars as usize])
    }

    /// The sheet but its widened list: the fronts of these slices, each of its length, and the numbers.
    pub fn lent(&self, n: &Numbers, lengths: &[usize; SLICES]) -> Sheet<'_>
        ensures { (widened : List Widened) (outputs : Outputs) → lent_sheet result widened outputs ≡ lent self.now n.now lengths.now widened outputs }
    {
        Sheet {
            rows: n.rows,
            structurals: n.structurals,
            entry_count: n.entries,
            feasibility: n.feasibility,
            checked: n.checked,
            leaving_row: n.leaving_row,
            leaving_up: n.leaving_up,
            starts: part(&self.starts, lengths[Slice::Starts as usize]),
            columns: part(&self.columns, lengths[Slice::Columns as usize]),
            entries: part(&self.entries, lengths[Slice::Entries as usize]),
            right_sides: part(&self.right_sides, lengths[Slice::RightSides as usize]),
            scales: part(&self.scales, lengths[Slice::Scales as usize]),
            integer: part(&self.integer, lengths[Slice::Integer as usize]),
            mins: part(&self.mins, lengths[Slice::Mins as usize]),
            maxs: part(&self.maxs, lengths[Slice::Maxs as usize]),
            low_tolerances: part(&self.low_tolerances, lengths[Slice::LowTolerances as usize]),
            high_tolerances: part(
                &self.high_tolerances,
                lengths[Slice::HighTolerances as usize],
            ),
            basic: part(&self.basic, lengths[Slice::Basic as usize]),
            places: part(&self.places, lengths[Slice::Places as usize]),
            values: part(&self.values, lengths[Slice::Values as usize]),
            rho_hi: part(&self.rho_hi, lengths[Slice::RhoHi as usize]),
            rho_lo: part(&self.rho_lo, lengths[Slice::RhoLo as usize]),
            second: part(&self.second, lengths[Slice::Second as usize]),
        }
    }
}

/// Puts a value at a place, and answers whether there is such a place.
fn put_at<T: Copy>(xs: &mut [T], place: usize, value: T) -> bool
    ensures list { xs.new ≡ set xs.old place value }
    ensures room { result ≡ nat_lt place (length xs.old) }
{
    if place < xs.len() {
        xs[place] = value;
        true
    } else {
        false
    }
}

/// The front of a slice, of a length; all of it where it is no longer.
pub fn part<T>(xs: &[T], length: usize) -> &[T]
    ensures { result.now ≡ take length xs.now }
{
    &xs[..length.min(xs.len())]
}

/// The last eight bits.
pub fn byte(n: usize) -> u8
    ensures { result ≡ n % 256 }
{
    // Kept: `u8::try_from` refuses what is above 255, and `as u8` alone is proved only where no bit is lost.
    (n % 256) as u8
}
