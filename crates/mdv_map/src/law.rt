ghost use Rattle.mdv_map.specs.Laws.{RunsLie, ChainsLie, MirrorsLie, CutsLie, SoftPartitionsLie, StripesLie, AreasCover, RewritingsJoin, CopiesFollow, NarrowerMapsFollow, RewritingsFollow, IssuesFollow, AnswersFollow, FlushesFollow, CrashesFollow, BootsFollow, BeginningsFollow, RequestsStand};

/// Blocks of a drive that lie together: each is one block of the drive, no two are one, and their area is the range.
pub fn runs_lie()
    ensures { RunsLie }
{}

/// A concatenation has the blocks of its parts, one part behind the other, and keeps them apart.
pub fn chains_lie()
    ensures { ChainsLie }
{}

/// A mirror has the blocks of its sides, reads either and writes both, and keeps them apart.
pub fn mirrors_lie()
    ensures { MirrorsLie }
{}

/// Where some blocks may not be read, the others are read where they were, and all are written there.
pub fn cuts_lie()
    ensures { CutsLie }
{}

/// A soft partition's blocks lie where those of the volume below do, and apart where no two are one of those.
pub fn soft_partitions_lie()
    ensures { SoftPartitionsLie }
{}

/// A block of a stripe lies in one block of one column, each block of a column that the stripe takes is one of its blocks, and no other
/// lies there.
pub fn stripes_lie()
    ensures { StripesLie }
{}

/// Outside the area of a volume nothing belongs to its blocks.
pub fn areas_cover()
    ensures { AreasCover }
{}

/// Moments of a request one after another, and of a part of it, are moments of the request.
pub fn rewritings_join()
    ensures { RewritingsJoin }
{}

/// A log is followed where each copy follows it.
pub fn copies_follow()
    ensures { CopiesFollow }
{}

/// A volume that loses copies or blocks follows its log.
pub fn narrower_maps_follow()
    ensures { NarrowerMapsFollow }
{}

/// While blocks are written that were issued, the log is followed.
pub fn rewritings_follow()
    ensures { RewritingsFollow }
{}

/// Issuing values leaves a log followed. They are the newest, in front of the older ones, and other blocks' logs stay.
pub fn issues_follow()
    ensures { IssuesFollow }
{}

/// Once each copy reads the blocks of a write, they are all that a read may give. What a crash may leave stays, as other blocks' logs do.
pub fn answers_follow()
    ensures { AnswersFollow }
{}

/// Once a crash leaves only what a read gives, it is all that a crash may leave. What a read may give stays, as other blocks' logs do.
pub fn flushes_follow()
    ensures { FlushesFollow }
{}

/// Behind a crash a read gives what the crash might have left, and nothing else.
pub fn crashes_follow()
    ensures { CrashesFollow }
{}

/// Where a boot finds one value of each block, that is the only one from then on.
pub fn boots_follow()
    ensures { BootsFollow }
{}

/// A log that begins has what a read gives and what a crash may leave. Logs that begin from some block on leave those before it alone.
pub fn beginnings_follow()
    ensures { BeginningsFollow }
{}

/// What a request knows of its blocks stays true while others write other blocks.
pub fn requests_stand()
    ensures { RequestsStand }
{}
