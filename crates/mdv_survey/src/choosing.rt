// Which of the tables that a survey found a boot takes, if it takes one.
ghost use Rattle.std.specs.Prelude.{◌≡◌, ◌≤◌, length, MatchOption, None, Some, IfSome, if◌then◌else◌};
ghost use Rattle.std.specs.List.{find};
ghost use Rattle.std.specs.Option.{option_copied};
ghost use Rattle.mdv_name.specs.SliceIndex.{same_slice};
ghost use Rattle.mdv_survey.specs.Choice.{AreTwo, IsChoice, IsChoiceAmong, ShowOne, failing as spec_failing, is_found_at as spec_is_found_at, is_of as spec_is_of, is_read as spec_is_read, is_there as spec_is_there, needed_of, readable_of, place_of, same_place, shows_other, shows_table};
ghost use Rattle.mdv_survey.specs.Newest.{IsGreatest, IsMarked};

use crate::head::shows;
use crate::replica::{Newest, Replica, Survey};
use mdv_base::{Identity, Place, Places, SliceName};
use mdv_plan::Lists;
use mdv_votes::more_than_half;

/// What a boot makes of a survey.
#[derive(Clone, Copy, Debug, PartialEq, Eq)]
pub enum Choice {
    /// No replica shows a table.
    Empty,
    /// Replicas that show tables have two identities: that of the first one, and the first other one behind it.
    TwoDatabases { a: Identity, b: Identity },
    /// Of the first list of the newest table that fails so many places are readable, and so many are needed.
    NoQuorum { readable: u32, needed: u32 },
    /// The table of the replica at this place of the list: more than half of each of its lists is readable.
    Newest(usize),
}

/// The newest table is taken where all replicas that show tables have one identity, and of each list of the table more than half of the places have a
/// readable replica of it, of the length that the list says.
pub fn choose(survey: &Survey) -> Choice
    requires { IsMarked survey.now.replicas survey.now.newest }
    ensures { IsChoice survey.now result }
{
    match &survey.newest {
        Some(newest) => choose_among(survey.replicas.as_slice(), newest),
        None => Choice::Empty,
    }
}

impl Survey {
    /// The first replica of that identity that was found at the place, of just its length.
    pub fn replica_at(&self, identity: Identity, place: &Place) -> Option<Replica>
        ensures { result ≡ find (spec_is_there identity place.now) self.now.replicas }
    {
        self.replicas
            .as_slice()
            .iter()
            .copied()
            .find(|r| is_there(r, identity, place))
    }
}

fn choose_among(replicas: &[Replica], newest: &Newest) -> Choice
    requires { IsGreatest replicas.now newest.now }
    ensures { IsChoiceAmong replicas.now newest.now result }
{
    if let Some((a, b)) = two_identities(replicas) {
        return Choice::TwoDatabases { a, b };
    }
    let identity = replicas[newest.replica].head.master.identity;
    match failing(replicas, identity, &newest.table.plan.lists) {
        Some(list) => Choice::NoQuorum {
            readable: readable_in(replicas, identity, list),
            needed: listed_in(list) / 2 + 1,
        },
        None => Choice::Newest(newest.replica),
    }
}

// The identities of the first replica that shows a table and of the first other one that shows one of another.
fn two_identities(replicas: &[Replica]) -> Option<(Identity, Identity)>
    ensures some { IfSome result (λ two. AreTwo replicas.now two.0 two.1) }
    ensures none { result ≡ None → ShowOne replicas.now }
{
    let one = first_shown(replicas)?.head.master.identity;
    let other = first_other(replicas, one)?.head.master.identity;
    Some((one, other))
}

fn first_shown(replicas: &[Replica]) -> Option<Replica>
    ensures { result ≡ find shows_table replicas.now }
{
    replicas.iter().copied().find(|r| shows(&r.head))
}

fn first_other(replicas: &[Replica], identity: Identity) -> Option<Replica>
    ensures { result ≡ find (shows_other identity) replicas.now }
{
    replicas
        .iter()
        .copied()
        .find(|r| shows(&r.head) && !is_of(r, identity))
}

fn is_of(replica: &Replica, identity: Identity) -> bool
    ensures { result ≡ spec_is_of identity replica.now }
{
    let own = replica.head.master.identity;
    own.fresh == identity.fresh && own.number == identity.number
}

// The first list of which not more than half is readable: the list that was before the one that comes.
fn failing<'a>(replicas: &[Replica], identity: Identity, lists: &'a Lists) -> Option<&'a Places>
    ensures { option_copied result ≡ spec_failing replicas.now identity lists.now }
{
    match lists {
        Lists::One(list) => unread(replicas, identity, list),
        Lists::Two(old, new) => if is_read(replicas, identity, old) {
            unread(replicas, identity, new)
        } else {
            Some(old)
        },
    }
}

// The list, unless more than half of it is readable.
fn unread<'a>(replicas: &[Replica], identity: Identity, list: &'a Places) -> Option<&'a Places>
    ensures { option_copied result ≡ (if spec_is_read replicas.now identity list.now then None else Some list.now) }
{
    if is_read(replicas, identity, list) {
        None
    } else {
        Some(list)
    }
}

fn is_read(replicas: &[Replica], identity: Identity, list: &Places) -> bool
    ensures { result ≡ spec_is_read replicas.now identity list.now }
{
    more_than_half(readable_in(replicas, identity, list), listed_in(list))
}

fn listed_in(list: &Places) -> u32
    ensures { result ≡ length list.now }
{
    let _few = list.is_full();
    list.as_slice().len() as u32
}

fn readable_in(replicas: &[Replica], identity: Identity, list: &Places) -> u32
    ensures { result ≡ readable_of replicas.now identity list.now }
{
    let _few = list.is_full();
    let places = list.as_slice();
    places
        .iter()
        .filter(|place| is_found_at(replicas, identity, place))
        .count() as u32
}

fn is_found_at(replicas: &[Replica], identity: Identity, place: &Place) -> bool
    ensures { result ≡ spec_is_found_at replicas.now identity place.now }
{
    replicas.iter().any(|r| is_there(r, identity, place))
}

// Whether the replica is of that identity and lies at the place, with just its length.
fn is_there(replica: &Replica, identity: Identity, place: &Place) -> bool
    ensures { result ≡ spec_is_there identity place.now replica.now }
{
    is_of(replica, identity) && is_at(replica, place)
}

fn is_at(replica: &Replica, place: &Place) -> bool
    ensures { result ≡ same_place (place_of replica.now) place.now }
{
    let master = &replica.head.master;
    is_slice(&master.slice, &place.slice)
        && master.start == place.start
        && master.blocks == place.blocks
}

pub(crate) fn is_slice(one: &SliceName, other: &SliceName) -> bool
    ensures { result ≡ same_slice one.now other.now }
{
    let (a, b) = (&one.drive, &other.drive);
    a.controller == b.controller
        && a.target == b.target
        && a.disk == b.disk
        && one.slice == other.slice
}
