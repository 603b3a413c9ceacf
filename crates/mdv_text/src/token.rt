ghost use Rattle.std.specs.Prelude.{◌≡◌, ◌<◌, ◌^◌, length, map, IfOk, OnOk, IfErr, IfSome};
ghost use Rattle.std.specs.Str.{IsAscii};
ghost use Rattle.mdv_text.specs.Words.{words};
ghost use Rattle.mdv_text.specs.Token.{token_text, LieInOrder, IsFaultOf};

use crate::words::first_word;
use std::alloc::Global;
use thiserror::Error;

/// Where a word lies in its line: from the byte `start` to before the byte `end`.
#[derive(Clone, Copy, Debug, PartialEq, Eq)]
pub struct Token {
    pub start: u32,
    pub end: u32,
}

/// Why a line has no words that can be read.
#[derive(Debug, Drop, Error, PartialEq, Eq)]
pub enum TextFault {
    /// The place of the first byte past ASCII, from 0.
    #[error("byte {0} is past ASCII")]
    NotAscii(u32),
    #[error("out of memory")]
    Memory,
}

/// The words of a line in order. They are parted by blanks and tabs.
pub fn split(alloc: Global, line: &[u8]) -> Result<Vec<Token>, TextFault>
    requires { length line.now < 2 ^ 32 }

    ensures texts { IfOk result (λ tokens. map (token_text line.now) tokens.items ≡ words line.now) }
    ensures in_order { IfOk result (λ tokens. LieInOrder 0 tokens.items (length line.now)) }
    ensures ascii { OnOk result (IsAscii line.now) }
    ensures fault { IfErr result (IsFaultOf line.now) }
{
    if let Some(at) = line.iter().position(|b| !b.is_ascii()) {
        return Err(TextFault::NotAscii(at as u32));
    }
    split_ascii(alloc, line).ok_or(TextFault::Memory)
}

fn split_ascii(alloc: Global, line: &[u8]) -> Option<Vec<Token>>
    requires { length line.now < 2 ^ 32 }
    ensures texts { IfSome result (λ tokens. map (token_text line.now) tokens.items ≡ words line.now) }
    ensures in_order { IfSome result (λ tokens. LieInOrder 0 tokens.items (length line.now)) }
{
    let mut tokens = Vec::new(alloc);
    let mut rest = line;
    while let Some((word, behind)) = first_word(rest) {
        let end = line.len() - behind.len();
        let start = end - word.len();
        let token = Token {
            start: start as u32,
            end: end as u32,
        };
        tokens.push(token).ok()?;
        rest = behind;
    }
    Some(tokens)
}
