ghost use Rattle.std.specs.Prelude.{◌≡◌, ◌<◌, ◌≤◌, [], ℕ, length, map, replicate, slice_index_or, Contains, IfOk, OnOk};
ghost use Rattle.mdv_tab.specs.Graph.{AddsUser, AreUsers};

use std::alloc::{AllocError, Global};

// The name that a place makes, and the names that it stands on.
#[derive(Drop)]
pub(crate) struct Place {
    pub(crate) makes: Option<u32>,
    pub(crate) stands: Vec<u32>,
}

// Places, and of each name those that stand on it.
#[derive(Drop)]
pub(crate) struct Graph {
    pub(crate) places: Vec<Place>,
    pub(crate) users: Vec<Vec<u32>>,
}

// No name has users.
fn no_users(alloc: Global, names: u32) -> Result<Vec<Vec<u32>>, AllocError>
    ensures { IfOk result (λ v. map (λ u. u.items) v.items ≡ replicate names []) }
{
    let mut users = Vec::new(alloc);
    for _ in 0..names {
        users.push(Vec::new(alloc))?;
    }
    Ok(users)
}

// The place is a user of each of the names.
fn add_user(users: &mut Vec<Vec<u32>>, place: u32, stands: &[u32]) -> Result<(), AllocError>
    requires { (x : ℕ) → Contains stands.now x → x < length users.old.items }
    ensures { OnOk result (AddsUser (map (λ u. u.items) users.old.items) (map (λ u. u.items) users.new.items) place stands.now) }
{
    for name in stands {
        users[*name as usize].push(place)?;
    }
    Ok(())
}

// Of each name the places that stand on it.
pub(crate) fn users_of(
    alloc: Global,
    names: u32,
    places: &[Place],
) -> Result<Vec<Vec<u32>>, AllocError>
    requires few { length places.now ≤ 1024 }
    requires within { (i x : ℕ) → Contains (slice_index_or (map (λ p. p.stands.items) places.now) i []) x → x < names }
    ensures { IfOk result (λ v. AreUsers names (map (λ p. p.stands.items) places.now) (map (λ u. u.items) v.items)) }
{
    let mut users = no_users(alloc, names)?;
    for (place, at) in places.iter().enumerate() {
        add_user(&mut users, place as u32, at.stands.as_slice())?;
    }
    Ok(users)
}
