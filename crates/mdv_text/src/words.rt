ghost use Rattle.std.specs.Prelude.{◌≡◌, [], IfSome, IfNone};
ghost use Rattle.std.specs.List.{prefix_len};
ghost use Rattle.mdv_text.specs.Words.{is_blank as spec_is_blank, is_word_byte, words, IsFirstWord};

/// The line's first word and what stands behind it, or nothing where the line has no word. Words
/// are parted by blanks and tabs.
pub fn first_word(line: &[u8]) -> Option<(&[u8], &[u8])>
    ensures word { IfSome result (λ r. IsFirstWord line.now r.0.now r.1.now) }
    ensures none { IfNone result (words line.now ≡ []) }
{
    let (_, from_word) = line.split_at(count_blanks(line));
    if from_word.is_empty() {
        return None;
    }
    Some(from_word.split_at(count_word_bytes(from_word)))
}

fn count_blanks(line: &[u8]) -> usize
    ensures { result ≡ prefix_len spec_is_blank line.now }
{
    line.iter().take_while(|b| is_blank(**b)).count()
}

fn count_word_bytes(line: &[u8]) -> usize
    ensures { result ≡ prefix_len is_word_byte line.now }
{
    line.iter().take_while(|b| !is_blank(**b)).count()
}

fn is_blank(b: u8) -> bool
    ensures { result ≡ spec_is_blank b }
{
    b == b' ' || b == b'\t'
}
