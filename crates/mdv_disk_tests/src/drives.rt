//! Tables of drives, slices and places from their texts.
ghost use Rattle.std.specs.Prelude.{IfOk};
ghost use Rattle.mdv_config.specs.Slices.{IsSound};

use mdv_base::{Place, Places, SliceName};
use mdv_name::{Geometry, parse_slice};
use mdv_plan::read_geometries_are_sound;
use std::alloc::Global;
use std::test::Fail;

pub(crate) fn sound(alloc: Global, text: &[u8]) -> Result<Geometry, Fail>
    ensures { IfOk result IsSound }
{
    let geometry = Geometry::read(alloc, text)?;
    read_geometries_are_sound();
    Ok(geometry)
}

pub(crate) fn slice(text: &[u8]) -> Result<SliceName, Fail> {
    Ok(parse_slice(text).ok_or("a slice")?)
}

pub(crate) fn lies(text: &[u8], start: u32, blocks: u32) -> Result<Place, Fail> {
    Ok(Place {
        slice: slice(text)?,
        start,
        blocks,
    })
}

/// One place alone.
pub(crate) fn place(text: &[u8], start: u32, blocks: u32) -> Result<Places, Fail> {
    let mut places = Places::new();
    places.push(lies(text, start, blocks)?);
    Ok(places)
}

/// Two places, in order.
pub(crate) fn both(first: Place, second: Place) -> Places {
    let mut places = Places::new();
    places.push(first);
    places.push(second);
    places
}
