ghost use Rattle.std.specs.Prelude.{◌≡◌, ◌<◌, ◌↔◌, ◌∷◌, ◌++◌, ◌-◌, Contains, IsTrue, IfSome, IfNone, Some, None, length, slice_get};
ghost use Rattle.std.specs.List.{prefix_len};
ghost use Rattle.mdv_name.specs.Lines.{is_within_line, lines};

/// Whether one of the text's lines is this one, which ends with its newline.
pub fn has_line(text: &[u8], line: &[u8]) -> bool
    ensures { IsTrue result ↔ Contains (lines text.now) line.now }
{
    let mut rest = text;
    while !rest.is_empty() {
        let (first, behind) = split_line(rest);
        if first == line {
            return true;
        }
        rest = behind;
    }
    false
}

/// The line of that number, from 1, with its newline, which the last may lack.
pub fn line_at(text: &[u8], number: u32) -> Option<&[u8]>
    requires { 0 < number }
    ensures some { IfSome result (λ line. slice_get (lines text.now) (number - 1) ≡ Some line.now) }
    ensures none { IfNone result (slice_get (lines text.now) (number - 1) ≡ None) }
{
    let mut rest = text;
    let mut before = number - 1;
    while before > 0 {
        if rest.is_empty() {
            return None;
        }
        rest = split_line(rest).1;
        before -= 1;
    }
    if rest.is_empty() {
        return None;
    }
    Some(split_line(rest).0)
}

// The first line with its newline, and what stands behind it.
fn split_line(text: &[u8]) -> (&[u8], &[u8])
    requires { 0 < length text.now }
    ensures lines { lines text.now ≡ result.0.now ∷ lines result.1.now }
    ensures whole { text.now ≡ result.0.now ++ result.1.now }
    ensures some { 0 < length result.0.now }
{
    let count = count_line_bytes(text);
    if count < text.len() {
        text.split_at(count + 1)
    } else {
        text.split_at(count)
    }
}

fn count_line_bytes(text: &[u8]) -> usize
    ensures { result ≡ prefix_len is_within_line text.now }
{
    text.iter().take_while(|b| **b != b'\n').count()
}
