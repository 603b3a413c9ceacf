ghost use Rattle.std.specs.Prelude.{IfOk};
ghost use Rattle.mdv_text.specs.Words.{words};
ghost use Rattle.mdv_parts.specs.Part.{AreReadAs};

use crate::names::Scope;
use crate::part::read_part;
use crate::part_list::PartList;
use mdv_text::first_word;
use std::alloc::{AllocError, Global};

/// What the words of a line spell, in order; None where a word spells nothing, as a
/// name of another set. Want of memory is the
/// only error.
pub fn read_parts(alloc: Global, scope: &Scope, line: &[u8]) -> Result<Option<PartList>, AllocError>
    ensures { IfOk result (λ o. AreReadAs scope.now (words line.now) o) }
{
    let mut parts = PartList::new(alloc);
    let mut rest = line;
    while let Some((word, behind)) = first_word(rest) {
        let Some(part) = read_part(scope, word) else {
            return Ok(None);
        };
        parts.push(part)?;
        rest = behind;
    }
    Ok(Some(parts))
}
