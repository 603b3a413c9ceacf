ghost use Rattle.mdv_layout_law.specs.Chained.{ChainedLie, FrontsLie};
ghost use Rattle.mdv_layout_law.specs.Laid.{TablesLie};
ghost use Rattle.mdv_layout_law.specs.Layout.{VolumesTell};

/// Volumes one behind another have the blocks of each, keep them apart, and stay where they are when more come behind them.
pub fn chained_lie()
    ensures { ChainedLie }
{}

/// The first blocks of a volume lie where they did, apart from each other and from those of others.
pub fn fronts_lie()
    ensures { FrontsLie }
{}

/// The volumes of a table of a geometry lie apart, on slices that aren't for replicas, and each block of one is one block of a drive.
pub fn tables_lie()
    ensures { TablesLie }
{}

/// Tables with the same volumes have the same maps: places of replicas come and go, and no volume moves.
pub fn volumes_tell()
    ensures { VolumesTell }
{}
