ghost use Rattle.std.specs.Prelude.{◌≡◌, ◌<◌, ◌∷◌, ◌++◌, length};
ghost use Rattle.std.specs.List.{prefix_len};
ghost use Rattle.mdv_name.specs.Lines.{is_within_line, content, lines};

// The first line with its newline, and what stands behind it.
pub(crate) fn split_line(text: &[u8]) -> (&[u8], &[u8])
    requires { 0 < length text.now }
    ensures lines { lines text.now ≡ result.0.now ∷ lines result.1.now }
    ensures whole { text.now ≡ result.0.now ++ result.1.now }
    ensures some { 0 < length result.0.now }
{
    let count = count_line_bytes(text);
    if count < text.len() {
        text.split_at(count + 1)
    } else {
        text.split_at(count)
    }
}

// The line without its newline.
pub(crate) fn content_of(line: &[u8]) -> &[u8]
    ensures { result.now ≡ content line.now }
{
    line.split_at(count_line_bytes(line)).0
}

fn count_line_bytes(text: &[u8]) -> usize
    ensures { result ≡ prefix_len is_within_line text.now }
{
    text.iter().take_while(|b| **b != b'\n').count()
}
