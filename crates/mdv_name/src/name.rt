ghost use Rattle.std.specs.Prelude.{◌≡◌, ◌↔◌, IsSome, IfSome};
ghost use Rattle.mdv_base.specs.Name.{IsName};

use mdv_base::Name;

/// The name of a host or a set: a letter, and then letters, digits, `-`, `_` and `.`, 1 to 32 bytes
/// in all.
pub fn parse_name(text: &[u8]) -> Option<Name>
    ensures valid { IsSome result ↔ IsName text.now }
    ensures value { IfSome result (λ name. name ≡ text.now) }
{
    Name::new(text)
}
