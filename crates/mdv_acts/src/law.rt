ghost use Rattle.mdv_acts.specs.Meaning.{WipeOrdersTell};

/// What the order of wipes is: slice after slice, and of each slice the places of the list, the last one first.
pub fn wipe_orders_tell()
    ensures { WipeOrdersTell }
{}
