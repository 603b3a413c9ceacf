ghost use Rattle.std.specs.Prelude.{◌≡◌};
ghost use Rattle.mdv_name.specs.Code.{drive_code as spec_drive_code, slice_code as spec_slice_code};

use mdv_base::{DriveName, SliceName};

// One number for each drive.
pub(crate) fn drive_code(name: DriveName) -> u32
    ensures { result ≡ spec_drive_code name }
{
    u32::from(name.controller) * 65536 + u32::from(name.target) * 256 + u32::from(name.disk)
}

// One number for each slice.
pub(crate) fn slice_code(name: SliceName) -> u32
    ensures { result ≡ spec_slice_code name }
{
    drive_code(name.drive) * 256 + u32::from(name.slice)
}
