ghost use Rattle.std.specs.Prelude.{◌≡◌, ◌<◌, ◌≤◌, ◌+◌, ◌^◌, All, IfErr, IfOk, IsOk, false, map, not, vec_len, length};
ghost use Rattle.std.specs.String.{string_bytes};
ghost use Rattle.mdv_name.specs.declared.geometry.Geometry.{Geometry};
ghost use Rattle.mdv_name.specs.Geometry.{IsGeometry as IsTable};
ghost use Rattle.mdv_files.specs.Bench.{sizes_of, sizes_in};
ghost use Rattle.mdv_files.specs.Opening.{HaveOwnFiles, HasNoFile, IsFresh, IsUnseen, foreign_in, foreign_of, is_foreign, is_own_by, lost_count, lost_one};

use crate::disk::{Disk, Unopened};
use crate::image::Image;
use crate::journal::SystemStart;
use crate::lines::line_at;
use crate::misfit::misfit_of;
use crate::reason::{Call, LostDrive, Reason};
use mdv_home::is_own;
use mdv_name::{DriveKind, DriveLine, Geometry, GeometryFault};
use std::alloc::AllocError;
use std::io::{self, ErrorKind};

/// What a run starts with: the drives of the table, a line for each own one that is lost, and what is told where
/// the use is faulty. All that is told is made before the run begins, while memory can still be had.
#[derive(Drop)]
pub struct Start {
    pub images: Vec<Image>,
    pub lost: Vec<String>,
    pub misfit: Option<String>,
}

/// Opens those drives of the table that are the own ones of the host that the words name, in its order; none where the words
/// aren't one, and none where the text isn't a table. Only memory may be wanting.
pub fn open_table(
    rt: &HostRuntime,
    words: &[String],
    table: &[u8],
    start: &io::Result<SystemStart>,
) -> Result<Start, AllocError>
    ensures few { IfOk result (λ s. vec_len s.images ≤ 256) }
    ensures drives { IfOk result (λ s. (t : Geometry) → IsTable table.now t → sizes_of s.images.items ≡ sizes_in t.drives) }
    ensures own { IfOk result (λ s. HaveOwnFiles s.images.items) }
    ensures lost { IfOk result (λ s. vec_len s.lost ≡ lost_count s.images.items) }
    ensures foreign { IfOk result (λ s. (t : Geometry) → IsTable table.now t → foreign_of s.images.items ≡ foreign_in (map string_bytes words.now) t.drives) }
{
    match Geometry::read(rt.alloc(), table) {
        Ok(geometry) => {
            let misfit = match misfit_of(words, &geometry) {
                Some(misfit) => Some(format!(in rt.alloc(); "{misfit}")?),
                None => None,
            };
            let opened = open_drives(rt, start, words, &geometry)?;
            Ok(Start {
                images: opened.images,
                lost: opened.lost,
                misfit,
            })
        }
        Err(GeometryFault::BadLine(number)) => Ok(Start {
            images: Vec::new(rt.alloc()),
            lost: Vec::new(rt.alloc()),
            misfit: Some(wrong_line(rt, table, number)?),
        }),
        Err(GeometryFault::Memory) => Err(AllocError),
    }
}

/// The most bytes of a wrong line that are told.
const TOLD: usize = 256;

// A wrong line of the table of drives, with its number and text.
fn wrong_line(rt: &HostRuntime, table: &[u8], number: u32) -> Result<String, AllocError>
    requires { 0 < number }
{
    let fault = GeometryFault::BadLine(number);
    let line = match line_at(table, number) {
        Some(line) => line.trim_ascii_end(),
        None => b"",
    };
    let text = String::from_utf8_lossy(rt.alloc(), &line[..line.len().min(TOLD)])?;
    format!(in rt.alloc(); "drives.tab: {fault}: {text}")
}

// The drives of a table, and the lines that tell which are lost.
#[derive(Drop)]
struct Opened {
    images: Vec<Image>,
    lost: Vec<String>,
}

fn open_drives(
    rt: &HostRuntime,
    start: &io::Result<SystemStart>,
    words: &[String],
    geometry: &Geometry,
) -> Result<Opened, AllocError>
    requires { All (λ drive. drive.blocks ≤ 2 ^ 40) geometry.now.drives }
    ensures few { IfOk result (λ o. vec_len o.images ≤ 256) }
    ensures drives { IfOk result (λ o. sizes_of o.images.items ≡ sizes_in geometry.now.drives) }
    ensures own { IfOk result (λ o. HaveOwnFiles o.images.items) }
    ensures lost { IfOk result (λ o. vec_len o.lost ≡ lost_count o.images.items) }
    ensures foreign { IfOk result (λ o. foreign_of o.images.items ≡ foreign_in (map string_bytes words.now) geometry.now.drives) }
{
    let lines = geometry.drives.as_slice();
    let mut images = Vec::new(rt.alloc());
    let mut lost = Vec::new(rt.alloc());
    for line in lines {
        let image = image_of(rt, start, words, line, &images, lines, &mut lost)?;
        images.push(image)?;
    }
    Ok(Opened { images, lost })
}

// The drive of the line, which is opened where it is the host's own.
fn image_of(
    rt: &HostRuntime,
    start: &io::Result<SystemStart>,
    words: &[String],
    line: &DriveLine,
    others: &[Image],
    lines: &[DriveLine],
    lost: &mut Vec<String>,
) -> Result<Image, AllocError>
    requires few { line.now.blocks ≤ 2 ^ 40 }
    requires lines { length others.now ≤ length lines.now }
    ensures blocks { IfOk result (λ image. image.blocks ≡ line.now.blocks) }
    ensures own { IfOk result (λ image. IsFresh others.now image) }
    ensures lost { IfOk result (λ image. vec_len lost.new ≡ vec_len lost.old + lost_one image.state) }
    ensures foreign { IfOk result (λ image. is_foreign image.state ≡ not (is_own_by (map string_bytes words.now) line.now.kind)) }
{
    if is_hosts_own(words, line.kind) {
        open_line(rt, start, line, others, lines, lost)
    } else {
        Ok(Image::foreign(line.blocks))
    }
}

// Whether the words name one host, and the drive is its own.
fn is_hosts_own(words: &[String], kind: DriveKind) -> bool
    ensures { result ≡ is_own_by (map string_bytes words.now) kind }
{
    let [host] = words else {
        return false;
    };
    is_own(kind, host.as_bytes())
}

// The drive of the line; where it is lost, that is told.
fn open_line(
    rt: &HostRuntime,
    start: &io::Result<SystemStart>,
    line: &DriveLine,
    others: &[Image],
    lines: &[DriveLine],
    lost: &mut Vec<String>,
) -> Result<Image, AllocError>
    requires few { line.now.blocks ≤ 2 ^ 40 }
    requires lines { length others.now ≤ length lines.now }
    ensures blocks { IfOk result (λ image. image.blocks ≡ line.now.blocks) }
    ensures own { IfOk result (λ image. IsFresh others.now image) }
    ensures lost { IfOk result (λ image. vec_len lost.new ≡ vec_len lost.old + lost_one image.state) }
    ensures tried { IfOk result (λ image. is_foreign image.state ≡ false) }
{
    match open_drive(rt, start, line, others, lines) {
        Ok(disk) => Ok(Image::open(disk, line.blocks)),
        Err(Unopened::Lost { reason, id }) => {
            lost.push(tell_lost(rt, line, &reason)?)?;
            Ok(Image::lost(line.blocks, id))
        }
        Err(Unopened::Memory) => Err(AllocError),
    }
}

// The drive of the line, which is lost where it isn't known whether the system's copies of it can be trusted.
fn open_drive(
    rt: &HostRuntime,
    start: &io::Result<SystemStart>,
    line: &DriveLine,
    others: &[Image],
    lines: &[DriveLine],
) -> Result<Disk, Unopened>
    requires few { line.now.blocks ≤ 2 ^ 40 }
    requires lines { length others.now ≤ length lines.now }
    ensures own { IfOk result (λ disk. HasNoFile others.now disk.id) }
    ensures unseen { IfErr result (IsUnseen others.now) }
    ensures known { IsOk result → IsOk start.now }
{
    match start {
        Ok(start) => Disk::open(rt, start, line, others, lines),
        Err(error) if error.kind() == ErrorKind::OutOfMemory => Err(Unopened::Memory),
        Err(error) => Err(Unopened::Lost {
            reason: Reason::System {
                call: Call::Remember,
                error: *error,
            },
            id: None,
        }),
    }
}

// The line that standard error has of a lost drive.
fn tell_lost(rt: &HostRuntime, line: &DriveLine, reason: &Reason) -> Result<String, AllocError> {
    let drive = LostDrive {
        kind: line.kind,
        file: line.file.as_str(),
        reason,
    };
    format!(in rt.alloc(); "{drive}")
}
