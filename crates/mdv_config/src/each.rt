// Each listed place once: those of one list, and those of another that the first one lacks.
ghost use Rattle.std.specs.Prelude.{◌≡◌, ◌<◌, ◌≤◌, ◌+◌, ◌++◌, ◌↔◌, [], ◌∷◌, IsTrue, Contains, length};
ghost use Rattle.mdv_config.specs.Lists.{beside};

use arrayvec::ArrayVec;
use mdv_base::Place;
use std::marker::Model;

/// The places that a table lists, each once, in order: at most 100.
#[derive(Drop)]
pub struct EachPlace {
    items: ArrayVec<Place, 100>,
}

impl Model for EachPlace {
    ghost use Rattle.std.specs.Prelude.{List, ◌≤◌, length};
    ghost use Rattle.mdv_base.specs.declared.place.Place.{Place};

    ghost Value = { List Place };

    ghost view = { λ e. e.items.items };

    ghost invariant = { λ e. length e.items.items ≤ 100 };
}

impl EachPlace {
    pub fn as_slice(&self) -> &[Place]
        ensures value { result.now ≡ self.now }
        ensures few { length result.now ≤ 100 }
    {
        self.items.as_slice()
    }

    // The places of one list.
    pub(crate) fn of(places: &[Place]) -> EachPlace
        requires { length places.now ≤ 50 }
        ensures { result ≡ places.now }
    {
        let mut each = EachPlace {
            items: ArrayVec::new(),
        };
        for place in places {
            each.push(*place);
        }
        each
    }

    // Adds those of the second list that the first one lacks.
    pub(crate) fn add_beside(&mut self, old: &[Place], new: &[Place])
        requires { length self.old + length new.now ≤ 100 }
        ensures { self.new ≡ self.old ++ beside old.now new.now }
    {
        for place in new {
            if !is_among(place, old) {
                self.push(*place);
            }
        }
    }

    fn push(&mut self, place: Place)
        requires { length self.old < 100 }
        ensures { self.new ≡ self.old ++ place ∷ [] }
    {
        self.items.push(place);
    }
}

// Whether the place is one of these.
pub(crate) fn is_among(place: &Place, places: &[Place]) -> bool
    ensures { IsTrue result ↔ Contains places.now place.now }
{
    places.iter().any(|other| other == place)
}
