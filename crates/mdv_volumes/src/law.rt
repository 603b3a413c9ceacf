ghost use Rattle.mdv_volumes.specs.LogLaws.{BootsSettle, IssuesAloneAdd, WritesLast};
ghost use Rattle.mdv_volumes.specs.StandLaws.{BeginningsStand, BootsStand, FramesStand, ReadsStand, RestartsStand, RunsStand, WritesStand};
ghost use Rattle.mdv_volumes.specs.Tables.{TablesLie};

/// A read gives, and a crash leaves, no value but those from before and those that were issued since; and what a read gives a crash may leave.
pub fn issues_alone_add()
    ensures { IssuesAloneAdd }
{}

/// A write that was answered is what a read gives until the next one is issued or a crash; once it is on the disk, also behind crashes.
pub fn writes_last()
    ensures { WritesLast }
{}

/// Once a boot has found one value of a block, it has that one until the next is issued.
pub fn boots_settle()
    ensures { BootsSettle }
{}

/// At each moment of a write of blocks of a volume its log goes on by their issue; in the end by their answer, and their way to the disk.
pub fn writes_stand()
    ensures { WritesStand }
{}

/// A read leaves a volume's log as it was, and what it gave is in it.
pub fn reads_stand()
    ensures { ReadsStand }
{}

/// What is done to other blocks of the drives, as to those of another volume, leaves a volume's log followed.
pub fn frames_stand()
    ensures { FramesStand }
{}

/// Drives that begin anew, all by one crash or each by itself, follow a volume's log behind the crash.
pub fn restarts_stand()
    ensures { RestartsStand }
{}

/// Where each block of a volume has one value on the disk, a boot may find it, and it is the only one then.
pub fn boots_stand()
    ensures { BootsStand }
{}

/// A log that begins has what a read gives and what a crash may leave.
pub fn beginnings_stand()
    ensures { BeginningsStand }
{}

/// Each volume of a table of the geometry has one map, and no block of a drive belongs to two of their blocks, or to a database.
pub fn tables_lie()
    ensures { TablesLie }
{}

/// Blocks that lie together on a drive, and are written, synced and read as such, are written, on the disk and read as those of a volume.
pub fn runs_stand()
    ensures { RunsStand }
{}
