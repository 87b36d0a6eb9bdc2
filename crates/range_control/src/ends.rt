//! Ends of windows, each with what gives it.
ghost use Rattle.std.specs.Prelude.{◌≡◌};
ghost use Rattle.range_control.specs.Ends.{upper_before, lower_before, first_of, lower_end};

use deneva_base::{Attempt, Bound};

/// An upper end of a window, with the attempt that gives it.
#[derive(Clone, Copy, Debug)]
pub(crate) struct Upper {
    pub n: u64,
    pub by: Attempt,
}

impl Upper {
    /// Whether this end is the lesser, or is equal and of a lesser attempt.
    fn is_before(&self, other: &Upper) -> bool
        ensures { result ≡ upper_before self.now other.now }
    {
        self.n < other.n || (self.n == other.n && self.by < other.by)
    }
}

/// The least of two upper ends, where there are both.
pub(crate) fn least_upper(best: Option<Upper>, other: Option<Upper>) -> Option<Upper>
    ensures { result ≡ first_of upper_before best other }
{
    match (best, other) {
        (Some(least), Some(upper)) if upper.is_before(&least) => Some(upper),
        (None, Some(upper)) => Some(upper),
        (best, _) => best,
    }
}

/// Whether a lower end is the greater, or is equal and of a lesser key.
fn is_before(lower: &Bound, other: &Bound) -> bool
    ensures { result ≡ lower_before lower.now other.now }
{
    lower.n > other.n || (lower.n == other.n && lower.key < other.key)
}

/// The greatest of two lower ends, where there are both.
pub(crate) fn greatest_lower(best: Option<Bound>, lower: Bound) -> Bound
    ensures { Some result ≡ first_of lower_before best (Some lower) }
{
    match best {
        Some(greatest) if !is_before(&lower, &greatest) => greatest,
        _ => lower,
    }
}

/// The lower end of a window that is at least the bound and at least the best of the accesses.
pub(crate) fn lower_end(bound: Bound, best: Option<Bound>) -> Bound
    ensures { result ≡ lower_end bound best }
{
    match best {
        Some(lower) if lower.n > bound.n => lower,
        _ => Bound {
            n: bound.n.max(1),
            key: bound.key,
        },
    }
}
