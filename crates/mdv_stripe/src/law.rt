ghost use Rattle.mdv_stripe.specs.Laws.{CausesExclude, LegsMatch, StripesStand};

/// A block of a stripe is one block of one of its columns, and each block of a column that the stripe takes is exactly one of its blocks.
pub fn legs_match()
    ensures { LegsMatch }
{}

/// A stripe is on the drives that its columns are on, no two of its blocks share a block of a drive where no two of the columns' do, and
/// it shares none with a device with which no column does.
pub fn stripes_stand()
    ensures { StripesStand }
{}

/// Components that make no stripe have one cause for it, and those that make one have none.
pub fn causes_exclude()
    ensures { CausesExclude }
{}
