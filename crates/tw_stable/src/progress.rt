//! Who is told how far a search is while it goes on. No answer rests on what is told.

/// Is told how far a search for stable assignments is.
pub trait SplitProgress {
    /// A router's choice is split: so many splits may still be made, and so many assignments are found by then.
    fn has_split(&self, splits: u64, found: usize);

    /// No more is told of this search: it is over, or it goes no further.
    fn ended(&self);
}

/// Nobody is told.
#[derive(Clone, Copy, Debug)]
pub struct Untold;

impl SplitProgress for Untold {
    fn has_split(&self, _splits: u64, _found: usize) {}

    fn ended(&self) {}
}
