// The letters of a place, by what a survey found.
ghost use Rattle.std.specs.Prelude.{◌≡◌};
ghost use Rattle.std.specs.List.{find, list_any};
ghost use Rattle.mdv_survey.specs.Letters.{begins_at as spec_begins_at, is_other_at as spec_is_other_at, is_unread_on as spec_is_unread_on, letters_at, letters_of_other as spec_letters_of_other, located_alone};

use crate::choosing::is_slice;
use crate::replica::{Other, Replica};
use mdv_base::{DriveSet, Flags, Place};
use mdv_name::SliceLine;
use mdv_shown::Site;

/// The letters of a place as a survey found it, by its replicas and its other places, and the drives that answered: `l` where a readable replica of the
/// site's key begins there; else what the look at it saw; `R` where its drive didn't answer. None where nothing was looked at there. The length
/// of the place doesn't matter.
pub fn letters(
    site: &Site,
    replicas: &[Replica],
    others: &[Other],
    answered: &DriveSet,
    place: &Place,
) -> Flags
    ensures { result ≡ letters_at site.now replicas.now others.now answered.now place.now }
{
    if is_found(replicas, place) {
        return located();
    }
    let other = first_other(others, place);
    letters_of_other(&other, is_unread(site, answered, place))
}

fn is_found(replicas: &[Replica], place: &Place) -> bool
    ensures { result ≡ list_any (spec_begins_at place.now) replicas.now }
{
    replicas.iter().any(|r| begins_at(r, place))
}

fn located() -> Flags
    ensures { result ≡ located_alone }
{
    Flags {
        located: true,
        ..Flags::default()
    }
}

fn letters_of_other(other: &Option<Other>, unread: bool) -> Flags
    ensures { result ≡ spec_letters_of_other other.now unread }
{
    match other {
        Some(other) => other.flags,
        None => Flags {
            read_error: unread,
            ..Flags::default()
        },
    }
}

fn first_other(others: &[Other], place: &Place) -> Option<Other>
    ensures { result ≡ find (spec_is_other_at place.now) others.now }
{
    others.iter().copied().find(|o| is_other_at(o, place))
}

fn is_unread(site: &Site, answered: &DriveSet, place: &Place) -> bool
    ensures { result ≡ list_any (spec_is_unread_on answered.now place.now) site.now.lines }
{
    site.lines
        .as_slice()
        .iter()
        .any(|line| is_unread_on(line, answered, place))
}

fn begins_at(replica: &Replica, place: &Place) -> bool
    ensures { result ≡ spec_begins_at place.now replica.now }
{
    let master = &replica.head.master;
    is_slice(&master.slice, &place.slice) && master.start == place.start
}

fn is_other_at(other: &Other, place: &Place) -> bool
    ensures { result ≡ spec_is_other_at place.now other.now }
{
    is_slice(&other.line.name, &place.slice) && other.start == place.start
}

fn is_unread_on(line: &SliceLine, answered: &DriveSet, place: &Place) -> bool
    ensures { result ≡ spec_is_unread_on answered.now place.now line.now }
{
    is_slice(&line.name, &place.slice) && !answered.contains(line.at.drive)
}
