ghost use Rattle.std.specs.Prelude.{◌≡◌, ◌≢◌, ◌++◌, List, ℕ, IfSome, IfNone, MatchOption};
ghost use Rattle.std.specs.List.{prefix_len};
ghost use Rattle.mdv_name.specs.Path.{is_within_part, BeginsWithSet, IsSplitAtStroke};

// What stands behind the prefix.
pub(crate) fn strip<'a>(prefix: &[u8], text: &'a [u8]) -> Option<&'a [u8]>
    ensures { MatchOption result ((rest : List ℕ) → text.now ≢ prefix.now ++ rest)
        (λ rest. text.now ≡ prefix.now ++ rest.now) }
{
    text.strip_prefix(prefix)
}

// What stands in front of the first stroke, and what behind it.
pub(crate) fn split_at_stroke(text: &[u8]) -> Option<(&[u8], &[u8])>
    ensures value { IfSome result (λ r. IsSplitAtStroke text.now r.0.now r.1.now) }
    ensures none { IfNone result ((set rest : List ℕ) → BeginsWithSet text.now set rest → ⊥) }
{
    let (front, behind) = text.split_at(count_part_bytes(text));
    Some((front, strip(b"/", behind)?))
}

fn count_part_bytes(text: &[u8]) -> usize
    ensures { result ≡ prefix_len is_within_part text.now }
{
    text.iter().take_while(|b| **b != b'/').count()
}
