ghost use Rattle.rules.specs.Tidy.{EmptyMeansTidy};

/// A form that has no breach is tidy: its positions run from 1 without a gap, its ids, names and flags have one owner each,
/// its references meet entries, and its keys find its arguments.
pub fn empty_means_tidy()
    ensures { EmptyMeansTidy }
{}
