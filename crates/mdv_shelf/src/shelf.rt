ghost use Rattle.std.specs.Prelude.{◌≡◌, ◌<◌, ℕ, List, Option, length, slice_index};
ghost use Rattle.std.specs.Option.{option_map};
ghost use Rattle.mdv_shelf.specs.Tale.{Tale};
ghost use Rattle.mdv_shelf.specs.Calls.{Part, OnDrive, OnReplies, InDrive, Reads, Writes, Syncs, Gives, HasDriveCause, HasGivingCause, Keeps, IsCounted};
ghost use Rattle.mdv_shelf.specs.Story.{Story, tale_of, IsNoted};

use mdv_base::{Block, DriveNo, Failed};

/// Drives of blocks of 512 bytes, numbered from 0. A call that fails says nothing of its cause; it is
/// counted by the shelf, for its own drive.
pub trait Shelf {
    /// How many blocks each drive has.
    ghost sizes: { Self → List ℕ };

    /// How often a call on a drive failed, or a giving of replies. A count stands still at 2^64 - 1.
    ghost faults: { Self → Part → ℕ };

    /// What was done and told since a start, where the shelf tells it.
    ghost tale: { Self → Option Tale };

    /// The tale, with the counts of failures and of calls as each of its calls was made.
    ghost story: { Self → Option Story };

    /// How many calls were made, where the shelf tells it.
    ghost calls: { Self → Option ℕ };

    /// How many blocks the writes had, failed ones too, where the shelf tells it.
    ghost written: { Self → Option ℕ };

    /// What no call on the drives changes.
    ghost Rest: { Type 0 };

    ghost rest: { Self → Rest };

    /// The references that it holds.
    ghost Held: { Type 0 };

    ghost held: { Self → Held };

    fn drives(&self) -> u32
        ensures { result ≡ length (sizes self.now) };

    fn blocks(&self, drive: DriveNo) -> u64
        requires { drive.0 < length (sizes self.now) }
        ensures { result ≡ slice_index (sizes self.now) drive.0 };

    /// Reads the blocks from that one on. After a failure `out` holds anything.
    fn read(&mut self, drive: DriveNo, at: u64, out: &mut [Block]) -> Result<(), Failed>
        requires { InDrive (sizes self.old) drive.0 at (length out.old) }
        ensures reads { Reads (tale self.old) drive.0 at result out.new (tale self.new) }
        ensures cause { HasDriveCause (faults self.old) (faults self.new) drive.0 result }
        ensures counted { IsCounted calls written self.old self.new 0 }
        ensures keeps { Keeps sizes faults rest held self.old self.new }
        ensures noted { IsNoted story faults calls written (OnDrive drive.0) self.old self.new };

    /// Writes the blocks from that one on. Until a sync a crash may leave any of them as it was.
    fn write(&mut self, drive: DriveNo, at: u64, from: &[Block]) -> Result<(), Failed>
        requires { InDrive (sizes self.old) drive.0 at (length from.now) }
        ensures writes { Writes (tale self.old) drive.0 at from.now result (tale self.new) }
        ensures cause { HasDriveCause (faults self.old) (faults self.new) drive.0 result }
        ensures counted { IsCounted calls written self.old self.new (length from.now) }
        ensures keeps { Keeps sizes faults rest held self.old self.new }
        ensures noted { IsNoted story faults calls written (OnDrive drive.0) self.old self.new };

    /// Puts all that the drive was given on the disk: a crash then leaves what a read gives.
    fn sync(&mut self, drive: DriveNo) -> Result<(), Failed>
        requires { drive.0 < length (sizes self.old) }
        ensures syncs { Syncs (tale self.old) drive.0 result (tale self.new) }
        ensures cause { HasDriveCause (faults self.old) (faults self.new) drive.0 result }
        ensures counted { IsCounted calls written self.old self.new 0 }
        ensures keeps { Keeps sizes faults rest held self.old self.new }
        ensures noted { IsNoted story faults calls written (OnDrive drive.0) self.old self.new };

    // the tale is that of the story, and only a shelf that has one tells one
    ghost telling: { (s : Self) → tale s ≡ option_map tale_of (story s) };
}

/// A shelf that also takes the bytes of replies.
pub trait Bench: Shelf {
    /// Tells the piece, which isn't empty. After a failure a front of it may have been told.
    fn give(&mut self, piece: &[u8]) -> Result<(), Failed>
        requires { 0 < length piece.now }
        ensures gives { Gives (Self.tale self.old) piece.now result (Self.tale self.new) }
        ensures cause { HasGivingCause (Self.faults self.old) (Self.faults self.new) result }
        ensures counted { IsCounted Self.calls Self.written self.old self.new 0 }
        ensures keeps { Keeps Self.sizes Self.faults Self.rest Self.held self.old self.new }
        ensures noted { IsNoted Self.story Self.faults Self.calls Self.written OnReplies self.old self.new };
}
