ghost use Rattle.std.specs.Prelude.{◌≡◌, Contains, IfSome, IfNone};

use mdv_base::Name;

/// The host of this name, where it is one of these.
pub fn host_in(hosts: &[Name], host: &[u8]) -> Option<Name>
    ensures value { IfSome result (λ name. Contains hosts.now name × (name ≡ host.now)) }
    ensures none { IfNone result (Contains hosts.now host.now → ⊥) }
{
    hosts.iter().find(|name| name.as_bytes() == host).copied()
}
