ghost use Rattle.std.specs.Prelude.{◌≡◌, ◌↔◌, ◌≤◌, IfOk, IfSome, IsSome, MatchOption};
ghost use Rattle.mdv_name.specs.FileText.{IsFileText};

use std::alloc::{AllocError, Global};
use std::marker::Model;

/// The name of a drive's image: 1 to 255 bytes of ASCII.
#[derive(Drop)]
pub struct FileName {
    text: String,
}

impl Model for FileName {
    ghost use Rattle.std.specs.Prelude.{ℕ, List};
    ghost use Rattle.std.specs.String.{string_bytes};
    ghost use Rattle.mdv_name.specs.FileText.{IsFileText};

    ghost Value = { List ℕ };

    ghost view = { λ f. string_bytes f.text };

    ghost invariant = { λ f. IsFileText (string_bytes f.text) };
}

impl FileName {
    /// The name that the bytes spell.
    pub fn new(alloc: Global, text: &[u8]) -> Result<Option<FileName>, AllocError>
        ensures valid { IfOk result (λ o. IsSome o ↔ IsFileText text.now) }
        ensures value { IfOk result (λ o. IfSome o (λ f. f ≡ text.now)) }
    {
        if text.is_empty() || text.len() > 255 || !text.is_ascii() {
            return Ok(None);
        }
        let Ok(text) = str::from_utf8(text) else {
            return Ok(None);
        };
        let text = String::from_str(alloc, text)?;
        Ok(Some(FileName { text }))
    }

    pub fn as_str(&self) -> &str
        ensures value { result.now ≡ self.now }
        ensures form { IsFileText self.now }
    {
        self.text.as_str()
    }
}
