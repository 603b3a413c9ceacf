ghost use Rattle.std.specs.Prelude.{◌≡◌};
ghost use Rattle.std.specs.List.{list_all};
ghost use Rattle.mdv_fields.specs.Sets.{places_text, PlacesFit, lists_text, ListsFit, are_spaced as spec_are_spaced};
ghost use Rattle.mdv_fields.specs.Sets.{is_spaced as spec_is_spaced, starts_well as spec_starts_well, agrees as spec_agrees};

use crate::fault::RecordError;
use crate::laying::lay;
use crate::list::{lay_short, read_short};
use crate::part::{Part, Spelled};
use crate::reader::Reader;
use mdv_base::{MAX_PLACES, Place, Places};
use mdv_plan::{Listed, Lists, same_slice};
use std::alloc::Global;

impl Part for Places {
    ghost fits = { PlacesFit };

    ghost text = { places_text };

    fn read(alloc: Global, rest: &mut Reader) -> Result<Places, RecordError> {
        let listed = read_short(alloc, rest)?;
        Ok(places_of(&listed))
    }
}

impl Spelled for Places {
    ghost text = { places_text };

    fn lay(&self, out: &mut [u8], used: usize) -> usize {
        let _few = self.is_full();
        lay_short(out, used, self.as_slice())
    }
}

fn places_of(listed: &Listed<Place, MAX_PLACES>) -> Places
    ensures { result ≡ listed.now }
{
    let mut places = Places::new();
    for place in listed.as_slice() {
        places.push(*place);
    }
    places
}

impl Part for Lists {
    ghost fits = { ListsFit };

    ghost text = { lists_text };

    fn read(alloc: Global, rest: &mut Reader) -> Result<Lists, RecordError> {
        match u8::read(alloc, rest)? {
            1 => Ok(Lists::One(Places::read(alloc, rest)?)),
            2 => {
                let was = Places::read(alloc, rest)?;
                let comes = Places::read(alloc, rest)?;
                Ok(Lists::Two(was, comes))
            }
            _ => Err(RecordError::NotARecord),
        }
    }
}

impl Spelled for Lists {
    ghost text = { lists_text };

    fn lay(&self, out: &mut [u8], used: usize) -> usize {
        match self {
            Lists::One(places) => {
                let used = lay(out, used, &[1]);
                places.lay(out, used)
            }
            Lists::Two(was, comes) => {
                let used = lay(out, used, &[2]);
                let used = was.lay(out, used);
                comes.lay(out, used)
            }
        }
    }
}

/// Whether all places of a slice, in one list or in both, have one number b of blocks and start at 16 + k * b. So any
/// two places are equal or apart. The work is quadratic in the places, of which there are at most a hundred.
pub fn are_spaced(lists: &Lists) -> bool
    ensures { result ≡ spec_are_spaced lists.now }
{
    match lists {
        Lists::One(places) => is_each_spaced(places.as_slice(), places.as_slice()),
        Lists::Two(was, comes) => {
            is_each_spaced(was.as_slice(), was.as_slice())
                && (is_each_spaced(was.as_slice(), comes.as_slice())
                    && is_each_spaced(comes.as_slice(), comes.as_slice()))
        }
    }
}

fn is_each_spaced(all: &[Place], places: &[Place]) -> bool
    ensures { result ≡ list_all (spec_is_spaced all.now) places.now }
{
    places.iter().all(|place| is_spaced(all, place))
}

fn is_spaced(all: &[Place], place: &Place) -> bool
    ensures { result ≡ spec_is_spaced all.now place.now }
{
    starts_well(place) && agrees_with(all, place)
}

fn agrees_with(all: &[Place], place: &Place) -> bool
    ensures { result ≡ list_all (spec_agrees place.now) all.now }
{
    all.iter().all(|other| agrees(place, other))
}

fn starts_well(place: &Place) -> bool
    ensures { result ≡ spec_starts_well place.now }
{
    place.blocks != 0 && (place.start >= 16 && (place.start - 16) % place.blocks == 0)
}

fn agrees(place: &Place, other: &Place) -> bool
    ensures { result ≡ spec_agrees place.now other.now }
{
    !same_slice(place.slice, other.slice) || place.blocks == other.blocks
}
