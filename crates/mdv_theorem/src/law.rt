ghost use Rattle.mdv_theorem.specs.Going.{ClearsOfAll, ClearsOfNames, NamesAreFree, VolumesGo};
ghost use Rattle.mdv_theorem.specs.Observed.{BlocksBegin, DatabasesStay, PrintsAgree, PrintsOfAll, PrintsOfNames, ReadsAgree, RunsAgree, RunsAnswer, RunsEnd, RunsFindEnough, RunsFindOne, RunsKeepEnough, TransfersAreTold, VolumesStay, WritesLast};
ghost use Rattle.mdv_theorem.specs.Running.{LivesBegin, RunsGoOn, RunsLiveOn};

/// Whatever ran on the drives before, whatever failed and crashed then: a run whose script can be read and whose replies can be told ends with Panic only where a call failed on a
/// drive on which its database's replicas may lie; a volume that was made, read or written stays, and as long as it keeps its copies a read of it is told, and a write acknowledged, if memory suffices,
/// all as long as enough drives answer for the database: all on which its replicas may lie, or those of more than half of them, wherever lines may have left them since the first one made it by its
/// slices; and what a read tells of a block is the last write that was acknowledged, or one that was issued later, and what an earlier read of the run told, or was written in between.
pub fn runs_keep_their_word()
    ensures ends { RunsEnd }
    ensures there { VolumesStay }
    ensures told { TransfersAreTold }
    ensures last { WritesLast }
    ensures agree { ReadsAgree }
{}

/// And over runs: what a read tells of a block is what the new drives held there, or was written since; and what a read of an earlier run told of it, in which the volume bore the
/// losses of drives up to then, or was written in between.
pub fn blocks_keep_their_values()
    ensures begin { BlocksBegin }
    ensures agree { RunsAgree }
{}

/// A database that a line was told to have made, or to have been done with, in this run or an earlier one, stays, until a line may have taken it away: no line is told that there
/// is none, nor one that adds replicas that it needs force to make one, or that none may be made so, as long as enough drives answer for it. And no run that begins on what earlier
/// ones led to ends because two databases are there; nor because too few places are readable, unless a call failed on a drive on which replicas may lie, and not even then where
/// none did on the drives of more than half of the replicas, wherever lines may have left them since the first one was told to have made the database by its slices; nor, where
/// none did on the drives of half of them or more, because fewer than half of the places are active.
pub fn databases_stay()
    ensures stay { DatabasesStay }
    ensures one { RunsFindOne }
    ensures enough { RunsFindEnough }
    ensures keep { RunsKeepEnough }
{}

/// A print of volumes that lines showed to be there, or of all of a database that they showed, is told, or refused for want of memory, as long as enough drives answer for the
/// database: as an md.tab does, by a table that the database may have by the lines before. And two prints of one run tell volumes of one table, but for what the lines in between may
/// have made of it.
pub fn prints_are_told()
    ensures named { PrintsOfNames }
    ensures all { PrintsOfAll }
    ensures same { PrintsAgree }
{}

/// A run that came to the end of its script has answered each line, and its status says whether one was refused.
pub fn lines_are_answered()
    ensures { RunsAnswer }
{}

/// The law speaks of each moment of a run that the contract of `run` speaks of, by its clauses `stands` and `tells`: there a run is under way, and wherever it is stopped it is one
/// more run of the life that it began on. Of two such moments of one run, whichever is earlier, the other is one that it may have been stopped at, as the law over runs asks.
pub fn runs_live_on()
    ensures lives { RunsLiveOn }
    ensures goes { RunsGoOn }
{}

/// Lives of which the law speaks there are: one begins on new drives of zeros, with nothing past their ends, since no host finds a replica there.
pub fn lives_begin()
    ensures { LivesBegin }
{}

/// Volumes that were cleared are gone. A line that reads a volume, writes it, puts a row behind it, or clears it or prints it by its name, is told to be done only where the volume may lie
/// somewhere by the lines before; and one that makes a volume is told `ok` only where the database may have had none of that name. A line that clears volumes, each of which lines showed to be
/// there, or all of a database that they showed, is told `ok`, or refused for want of memory or of room in a replica, as long as enough drives answer for the database.
pub fn volumes_go()
    ensures gone { VolumesGo }
    ensures free { NamesAreFree }
    ensures named { ClearsOfNames }
    ensures all { ClearsOfAll }
{}
