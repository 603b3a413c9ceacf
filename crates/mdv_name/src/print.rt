ghost use Rattle.std.specs.Prelude.{◌≡◌, ◌<◌, ◌++◌, OnOk, OnErr};
ghost use Rattle.mdv_name.specs.Drive.{drive_text, slice_text};
ghost use Rattle.mdv_name.specs.Volume.{volume_text, pool_text};

use crate::{PoolName, VolName};
use mdv_base::{DriveName, Name, SliceName};
use std::alloc::AllocError;

/// Appends `cXtYdZ`.
pub fn print_drive(name: DriveName, out: &mut Vec<u8>) -> Result<(), AllocError>
    ensures ok { OnOk result (out.new.items ≡ out.old.items ++ drive_text name) }
    ensures err { OnErr result (out.new.items ≡ out.old.items) }
{
    let DriveName {
        controller,
        target,
        disk,
    } = name;
    let text = format!(in *out.allocator(); "c{controller}t{target}d{disk}")?;
    out.extend_from_slice(text.as_bytes())?;
    Ok(())
}

/// Appends `cXtYdZsN`.
pub fn print_slice(name: SliceName, out: &mut Vec<u8>) -> Result<(), AllocError>
    ensures ok { OnOk result (out.new.items ≡ out.old.items ++ slice_text name) }
    ensures err { OnErr result (out.new.items ≡ out.old.items) }
{
    let SliceName { drive, slice } = name;
    let DriveName {
        controller,
        target,
        disk,
    } = drive;
    let text = format!(in *out.allocator(); "c{controller}t{target}d{disk}s{slice}")?;
    out.extend_from_slice(text.as_bytes())?;
    Ok(())
}

/// Appends `dN` or `SET/dN`.
pub fn print_volume(name: &VolName, out: &mut Vec<u8>) -> Result<(), AllocError>
    ensures ok { OnOk result (out.new.items ≡ out.old.items ++ volume_text name.now) }
    ensures err { OnErr result (out.new.items ≡ out.old.items) }
{
    let number = name.volume.0;
    let alloc = *out.allocator();
    let text = match name.set {
        Some(set) => format!(in alloc; "{}/d{number}", set.as_str())?,
        None => format!(in alloc; "d{number}")?,
    };
    out.extend_from_slice(text.as_bytes())?;
    Ok(())
}

/// Appends `hspNNN` or `SET/hspNNN`.
pub fn print_pool(name: &PoolName, out: &mut Vec<u8>) -> Result<(), AllocError>
    requires { name.now.pool.0 < 1000 }
    ensures ok { OnOk result (out.new.items ≡ out.old.items ++ pool_text name.now) }
    ensures err { OnErr result (out.new.items ≡ out.old.items) }
{
    let number = name.pool.0;
    let hundreds = number / 100;
    let tens = number / 10 % 10;
    let ones = number % 10;
    let alloc = *out.allocator();
    let text = match name.set {
        Some(set) => format!(in alloc; "{}/hsp{hundreds}{tens}{ones}", set.as_str())?,
        None => format!(in alloc; "hsp{hundreds}{tens}{ones}")?,
    };
    out.extend_from_slice(text.as_bytes())?;
    Ok(())
}

/// Appends the name's bytes.
pub fn print_name(name: &Name, out: &mut Vec<u8>) -> Result<(), AllocError>
    ensures ok { OnOk result (out.new.items ≡ out.old.items ++ name.now) }
    ensures err { OnErr result (out.new.items ≡ out.old.items) }
{
    out.extend_from_slice(name.as_bytes())?;
    Ok(())
}
