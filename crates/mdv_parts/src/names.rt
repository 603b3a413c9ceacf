ghost use Rattle.std.specs.Prelude.{◌≡◌, IfSome, IfNone};
ghost use Rattle.mdv_base.specs.declared.name.VolId.{VolId};
ghost use Rattle.mdv_base.specs.declared.name.PoolId.{PoolId};
ghost use Rattle.mdv_parts.specs.Names.{same_set as spec_same_set, fits as spec_fits};
ghost use Rattle.mdv_parts.specs.Names.{NamesVolume, NamesPool};

use mdv_base::{Name, PoolId, VolId};
use mdv_name::{parse_pool, parse_volume};

/// Which volumes and pools a line or an entry may name.
#[derive(Clone, Copy, Debug, PartialEq, Eq)]
pub enum Scope {
    /// Those that are spelled with exactly this set, or with none.
    Only(Option<Name>),
    /// Those of the set that `-s` names, spelled with it or without.
    Within(Name),
}

fn is_same_set(one: Option<Name>, other: Option<Name>) -> bool
    ensures { result ≡ spec_same_set one other }
{
    match (one, other) {
        (None, None) => true,
        (Some(name), Some(also)) => name.is_same(&also),
        (None, Some(_)) | (Some(_), None) => false,
    }
}

// Whether a name that is spelled with this set, or with none, may stand here.
fn fits(scope: Scope, set: Option<Name>) -> bool
    ensures { result ≡ spec_fits scope set }
{
    match scope {
        Scope::Only(only) => is_same_set(set, only),
        Scope::Within(within) => set.is_none() || is_same_set(set, Some(within)),
    }
}

/// The volume that the word names, of a database that may be named here.
pub fn read_volume(scope: &Scope, word: &[u8]) -> Option<VolId>
    ensures value { IfSome result (λ v. NamesVolume scope.now word.now v) }
    ensures none { IfNone result ((v : VolId) → NamesVolume scope.now word.now v → ⊥) }
{
    let name = parse_volume(word)?;
    if fits(*scope, name.set) {
        Some(name.volume)
    } else {
        None
    }
}

/// The pool that the word names, of a database that may be named here.
pub fn read_pool(scope: &Scope, word: &[u8]) -> Option<PoolId>
    ensures value { IfSome result (λ p. NamesPool scope.now word.now p) }
    ensures none { IfNone result ((p : PoolId) → NamesPool scope.now word.now p → ⊥) }
{
    let name = parse_pool(word)?;
    if fits(*scope, name.set) {
        Some(name.pool)
    } else {
        None
    }
}
