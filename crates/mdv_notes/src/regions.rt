//! The dirty regions of a mirror.
ghost use Rattle.std.specs.Prelude.{◌≡◌, ◌≤◌, ◌<◌, ◌+◌, length};
ghost use Rattle.mdv_notes.specs.Regions.{has_bit as spec_has_bit, in_range as spec_in_range, region_noted as spec_region_noted, weighed as spec_weighed};
ghost use Rattle.mdv_notes.specs.Regions.{bit_noted as spec_bit_noted, byte_noted as spec_byte_noted, regions_noted};

use crate::note::RegionRange;

fn has_bit(weight: u8, byte: u8) -> bool
    requires { 0 < weight }
    ensures { result ≡ spec_has_bit weight byte }
{
    byte / weight % 2 == 1
}

fn in_range(range: RegionRange, region: usize) -> bool
    ensures { result ≡ spec_in_range range region }
{
    let first = usize::from(range.first);
    first <= region && region < first + usize::from(range.count)
}

fn region_noted(range: RegionRange, dirty: bool, region: usize, was: bool) -> bool
    ensures { result ≡ spec_region_noted range dirty region was }
{
    if in_range(range, region) { dirty } else { was }
}

fn weighed(weight: u8, is: bool) -> u8
    ensures value { result ≡ spec_weighed weight is }
    ensures small { result ≤ weight }
{
    if is { weight } else { 0 }
}

fn bit_noted(range: RegionRange, dirty: bool, region: usize, weight: u8, byte: u8) -> u8
    requires { 0 < weight }
    ensures value { result ≡ spec_bit_noted range dirty region weight byte }
    ensures small { result ≤ weight }
{
    let was = has_bit(weight, byte);
    weighed(weight, region_noted(range, dirty, region, was))
}

// Eight regions from this one on.
fn byte_noted(range: RegionRange, dirty: bool, at: usize, byte: u8) -> u8
    requires { at ≤ 1024 }
    ensures { result ≡ spec_byte_noted range dirty at byte }
{
    bit_noted(range, dirty, at, 128, byte)
        + bit_noted(range, dirty, at + 1, 64, byte)
        + bit_noted(range, dirty, at + 2, 32, byte)
        + bit_noted(range, dirty, at + 3, 16, byte)
        + bit_noted(range, dirty, at + 4, 8, byte)
        + bit_noted(range, dirty, at + 5, 4, byte)
        + bit_noted(range, dirty, at + 6, 2, byte)
        + bit_noted(range, dirty, at + 7, 1, byte)
}

/// Notes the regions of the range dirty, or clean. Any other is as it was.
pub fn note_regions(bytes: &mut [u8], range: RegionRange, dirty: bool)
    requires { length bytes.old ≤ 128 }
    ensures { bytes.new ≡ regions_noted range dirty 0 bytes.old }
{
    for (place, byte) in bytes.iter_mut().enumerate() {
        *byte = byte_noted(range, dirty, 8 * place, *byte);
    }
}
