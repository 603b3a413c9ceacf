ghost use Rattle.std.specs.Prelude.{◌≡◌, ◌<◌, ◌≤◌, ◌^◌, length, vec_len};

use crate::image::Image;
use mdv_base::{Block, DriveNo, Failed};
use mdv_shelf::{Bench, Shelf};
use std::io::Write;

/// Drives in image files, and a writer that takes the replies. It tells nothing of what the drives hold.
#[derive(Drop)]
pub struct FileBench<W: Write + Drop> {
    images: Vec<Image>,
    replies: W,
    reply_faults: u64,
    ghost few: { vec_len images < 2 ^ 32 },
}

impl<W: Write + Drop> FileBench<W> {
    /// A bench of these drives, numbered in their order, whose replies the writer is given and flushed of.
    pub fn new(images: Vec<Image>, replies: W) -> FileBench<W>
        requires { vec_len images < 2 ^ 32 }
        ensures drives { result.images ≡ images }
        ensures fresh { result.reply_faults ≡ 0 }
    {
        FileBench {
            images,
            replies,
            reply_faults: 0,
        }
    }
}

impl<W: Write + Drop> Shelf for FileBench<W> {
    ghost use Rattle.std.specs.Prelude.{None, refl};
    ghost use Rattle.mdv_files.specs.Bench.{sizes_of, faults_of};

    ghost sizes = { λ b. sizes_of b.images.items };

    ghost faults = { λ b. faults_of b.images.items b.reply_faults };

    ghost tale = { λ _. None };

    ghost story = { λ _. None };

    ghost calls = { λ _. None };

    ghost written = { λ _. None };

    ghost Rest = { Unit {0} };

    ghost rest = { λ _. tt };

    ghost Held = { Unit {0} };

    ghost held = { λ _. tt };

    fn drives(&self) -> u32 {
        self.images.len() as u32
    }

    fn blocks(&self, drive: DriveNo) -> u64 {
        self.images[drive.0 as usize].blocks()
    }

    fn read(&mut self, drive: DriveNo, at: u64, out: &mut [Block]) -> Result<(), Failed> {
        self.images[drive.0 as usize].read(at, out)
    }

    fn write(&mut self, drive: DriveNo, at: u64, from: &[Block]) -> Result<(), Failed> {
        self.images[drive.0 as usize].write(at, from)
    }

    fn sync(&mut self, drive: DriveNo) -> Result<(), Failed> {
        self.images[drive.0 as usize].sync()
    }

    ghost telling = { λ _. refl };
}

impl<W: Write + Drop> Bench for FileBench<W> {
    fn give(&mut self, piece: &[u8]) -> Result<(), Failed> {
        if self.replies.write_all(piece).is_ok() && self.replies.flush().is_ok() {
            return Ok(());
        }
        self.reply_faults = self.reply_faults.saturating_add(1);
        Err(Failed)
    }
}
