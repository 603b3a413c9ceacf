ghost use Rattle.std.specs.Prelude.{◌≡◌, ◌≤◌, length};

use mdv_base::{Place, Places};

/// The lists of places that a table names: one, or two while places change.
#[derive(Drop)]
pub enum Lists {
    One(Places),
    /// The list that was, and the one that comes.
    Two(Places, Places),
}

impl Lists {
    pub(crate) fn copy(&self) -> Lists
        ensures { result ≡ self.now }
    {
        match self {
            Lists::One(places) => Lists::One(copy_of(places)),
            Lists::Two(from, to) => Lists::Two(copy_of(from), copy_of(to)),
        }
    }
}

// The places, and that they are few.
pub(crate) fn all_of(places: &Places) -> &[Place]
    ensures value { result.now ≡ places.now }
    ensures few { length result.now ≤ 50 }
{
    let _few = places.is_full();
    places.as_slice()
}

fn copy_of(places: &Places) -> Places
    ensures { result ≡ places.now }
{
    let mut copy = Places::new();
    for place in all_of(places) {
        copy.push(*place);
    }
    copy
}
