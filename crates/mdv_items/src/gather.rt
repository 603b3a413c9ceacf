ghost use Rattle.std.specs.Prelude.{◌≡◌, ◌≤◌, ◌+◌, ◌∷◌, ◌++◌, [], true, false, ℕ, Bool, List, None, Some, IfOk, IfErr, OnOk, length};
ghost use Rattle.mdv_items.specs.Gather.{Gathers, item_limit};

use std::alloc::{AllocError, Global};
use std::marker::Model;

/// The most bytes of the lines of a `tab` block, their newlines among them.
const MAX_BYTES: usize = 65_536;

// How the text of a block begins.
const HEAD: &[u8] = b"tab\n";

/// Why the text of a `tab` block isn't there.
#[derive(Clone, Copy, Debug, PartialEq, Eq)]
pub enum GatherFault {
    /// Its lines have more than 65,536 bytes.
    TooMany,
    /// Memory was wanting.
    Memory,
}

/// The text of a `tab` block, as it is gathered line by line.
#[derive(Drop)]
pub(crate) struct TabText {
    text: Vec<u8>,
    long: bool,
    fault: Option<GatherFault>,
}

impl Model for TabText {
    ghost use Rattle.std.specs.Prelude.{◌≤◌, length};
    ghost use Rattle.mdv_items.specs.Gather.{Gathered, item_limit};

    ghost Value = { Gathered };

    ghost view = { λ t. record { text = t.text.items; long = t.long; fault = t.fault } };

    ghost invariant = { λ t. length t.text.items ≤ item_limit };
}

impl TabText {
    /// The text of no block yet.
    pub(crate) fn new(alloc: Global) -> TabText
        ensures { result ≡ record { text = []; long = false; fault = None } }
    {
        TabText {
            text: Vec::new(alloc),
            long: false,
            fault: None,
        }
    }

    /// Begins anew, with no line.
    pub(crate) fn begin(&mut self)
        ensures { Gathers [] false self.new }
    {
        self.text.clear();
        self.long = false;
        self.fault = match self.text.extend_from_slice(HEAD) {
            Ok(()) => None,
            Err(_) => Some(GatherFault::Memory),
        };
    }

    /// One line more, without its newline.
    pub(crate) fn push(&mut self, line: &[u8])
        ensures { (lines : List ℕ) (long : Bool) → Gathers lines long self.old → Gathers (lines ++ line.now ++ 10 ∷ []) long self.new }
    {
        if self.fault.is_some() {
            return;
        }
        if self.text.len() + line.len() + 1 > HEAD.len() + MAX_BYTES {
            self.fault = Some(GatherFault::TooMany);
            return;
        }
        if append(&mut self.text, line).is_err() {
            self.fault = Some(GatherFault::Memory);
        }
    }

    /// A line that was too long was passed over.
    pub(crate) fn pass(&mut self)
        ensures { (lines : List ℕ) (long : Bool) → Gathers lines long self.old → Gathers lines true self.new }
    {
        self.long = true;
    }

    /// Whether a line was too long.
    pub(crate) fn is_long(&self) -> bool
        ensures { result ≡ self.now.long }
    {
        self.long
    }

    /// The text: `tab`, a newline, and the lines, each with its newline.
    pub(crate) fn as_text(&self) -> Result<&[u8], GatherFault>
        ensures text { IfOk result (λ text. (self.now.fault ≡ None) × (text.now ≡ self.now.text)) }
        ensures fault { IfErr result (λ fault. self.now.fault ≡ Some fault) }
        ensures short { IfOk result (λ text. length text.now ≤ item_limit) }
    {
        match self.fault {
            None => Ok(self.text.as_slice()),
            Some(fault) => Err(fault),
        }
    }
}

fn append(text: &mut Vec<u8>, line: &[u8]) -> Result<(), AllocError>
    ensures ok { OnOk result (text.new.items ≡ text.old.items ++ line.now ++ 10 ∷ []) }
    ensures room { length text.new.items ≤ length text.old.items + length line.now + 1 }
{
    text.extend_from_slice(line)?;
    text.push(b'\n')?;
    Ok(())
}
