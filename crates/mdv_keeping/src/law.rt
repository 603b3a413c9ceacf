ghost use Rattle.mdv_keeping.specs.Keeping.{TablesStay};

/// A table of a geometry stays one: when a change is made that the program makes, when a change of its places is over, and when its places are others.
pub fn tables_stay()
    ensures { TablesStay }
{}
