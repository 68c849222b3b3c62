//! The two lines that a sheet begins with.
ghost use Rattle.std.specs.Prelude.{◌≡◌};
ghost use Rattle.text_lines.specs.Heading.{heading};
ghost use Rattle.text_items.specs.Text.{bytes};
ghost use Rattle.text_items.specs.Items.{double_then};

use text_items::{Item, count_after, count_then, double_then};

/// `(sheet ROWS STRUCTURALS)` and `(feasibility FEASIBILITY)`.
#[derive(Clone, Copy)]
pub struct Heading {
    pub rows: usize,
    pub structurals: usize,
    pub feasibility: f64,
    /// The position after them.
    pub next: Option<usize>,
}

/// The first two lines of a text.
pub fn heading_lines(text: &[u8]) -> Heading
    ensures { result ≡ heading text.now }
{
    let rows = count_after(text, Some(0), b"(sheet ");
    let structurals = count_then(text, rows.next, b")\n(feasibility ");
    let feasibility = double_last(text, structurals.next);
    Heading {
        rows: rows.value,
        structurals: structurals.value,
        feasibility: feasibility.value,
        next: feasibility.next,
    }
}

// A double that ends a line.
fn double_last(text: &[u8], position: Option<usize>) -> Item<f64>
    ensures { result ≡ double_then text.now position (bytes ")\n") }
{
    double_then(text, position, b")\n")
}
