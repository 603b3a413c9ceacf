ghost use Rattle.std.specs.Prelude.{◌≡◌, ◌<◌, ◌++◌, ℕ, List, IfSome, IfNone};
ghost use Rattle.mdv_base.specs.declared.drive.DriveName.{DriveName};
ghost use Rattle.mdv_base.specs.declared.drive.SliceName.{SliceName};
ghost use Rattle.mdv_name.specs.Drive.{IsDriveName, IsSliceName, drive_text, slice_text};
ghost use Rattle.mdv_name.specs.Drive.{BeginsWithDrive};

use crate::numeral::split_part;
use mdv_base::{DriveName, SliceName};

/// The drive that `cXtYdZ` names, each number from 0 to 255.
pub fn parse_drive(text: &[u8]) -> Option<DriveName>
    ensures value { IfSome result (λ d. text.now ≡ drive_text d) }
    ensures form { IfSome result IsDriveName }
    ensures none { IfNone result ((d : DriveName) → IsDriveName d → text.now ≡ drive_text d → ⊥) }
{
    let (drive, rest) = split_drive(text)?;
    if rest.is_empty() { Some(drive) } else { None }
}

/// The slice that `cXtYdZsN` names, N from 0 to 7.
pub fn parse_plain_slice(text: &[u8]) -> Option<SliceName>
    ensures value { IfSome result (λ s. text.now ≡ slice_text s) }
    ensures form { IfSome result IsSliceName }
    ensures none { IfNone result ((s : SliceName) → IsSliceName s → text.now ≡ slice_text s → ⊥) }
{
    let (drive, rest) = split_drive(text)?;
    let (slice, rest) = split_part(b's', rest)?;
    if slice > 7 || !rest.is_empty() {
        return None;
    }
    Some(SliceName { drive, slice })
}

// The drive at the text's front, and what follows its digits.
fn split_drive(text: &[u8]) -> Option<(DriveName, &[u8])>
    ensures value { IfSome result (λ r. BeginsWithDrive text.now r.0 r.1.now) }
    ensures none { IfNone result ((d : DriveName) (rest : List ℕ) →
        BeginsWithDrive text.now d rest → ⊥) }
{
    let (controller, rest) = split_part(b'c', text)?;
    let (target, rest) = split_part(b't', rest)?;
    let (disk, rest) = split_part(b'd', rest)?;
    let drive = DriveName {
        controller,
        target,
        disk,
    };
    Some((drive, rest))
}

/// Drives, and slices, that are spelled alike are one.
pub fn spelled_alike()
    ensures drives { (d e : DriveName) → IsDriveName d → IsDriveName e →
        drive_text d ≡ drive_text e → d ≡ e }
    ensures slices { (s t : SliceName) → IsSliceName s → IsSliceName t →
        slice_text s ≡ slice_text t → s ≡ t }
{}
