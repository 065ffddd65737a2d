//! An epidemic's measures, and what a cell knows.

ghost use Rattle.std.specs.Prelude.{◌≡◌, ◌<◌, ◌≤◌, ◌↔◌, IfSome, IsSome};

/// The measures of an epidemic: what all cells share.
#[derive(Clone, Copy, Debug)]
pub struct Epidemic {
    /// How many cells there are.
    pub cells: u32,
    /// How many of them are in a row; each row goes on in the next one, and the last in the first.
    pub width: u32,
    /// The longest delay of a contact, in ticks; the shortest is 1.
    pub longest: u32,
    /// The cell that is infected first, at time 1.
    pub first: u32,
    pub ghost narrow: { width ≤ cells },
    pub ghost here: { first < cells },
    pub ghost late: { 0 < longest },
}

impl Epidemic {
    /// An epidemic with these measures, where a row fits, the first cell is there, and the longest delay is at least 1.
    pub fn new(cells: u32, width: u32, longest: u32, first: u32) -> Option<Epidemic>
        ensures fits { IsSome result ↔ ((width ≤ cells) × (first < cells) × (0 < longest)) }
        ensures value { IfSome result (λ m. (m.cells ≡ cells) × (m.width ≡ width) × (m.longest ≡ longest) × (m.first ≡ first)) }
    {
        if width > cells || first >= cells || longest == 0 {
            return None;
        }
        Some(Epidemic {
            cells,
            width,
            longest,
            first,
        })
    }
}

/// How many contacts a cell takes at most.
pub const MOST_CONTACTS: u64 = 1 << 63;

/// A cell of the grid.
#[derive(Clone, Copy, Default, PartialEq, Eq, Debug)]
pub struct Cell {
    /// Whether it is infected.
    pub infected: bool,
    /// How many contacts have come to it.
    pub contacts: u64,
}
