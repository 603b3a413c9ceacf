ghost use Rattle.mdv_growing_law.specs.Going.{MapsGo};

/// A change leaves each volume where it lay, unless it takes it away; it may grow, and what it grows by lay in no volume before.
pub fn maps_go()
    ensures { MapsGo }
{}
