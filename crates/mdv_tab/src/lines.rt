ghost use Rattle.std.specs.Prelude.{◌≡◌, ◌<◌, ◌∷◌, ◌++◌, length};
ghost use Rattle.std.specs.List.{list_all, prefix_len};
ghost use Rattle.mdv_name.specs.Lines.{is_within_line, lines};
ghost use Rattle.mdv_tab.specs.Text.{begins_with_newline as spec_begins_with_newline};
ghost use Rattle.mdv_tab.specs.Text.{stops as spec_stops, counted, joins, is_ascii_byte};
ghost use Rattle.mdv_tab.specs.Text.{is_ascii_line as spec_is_ascii_line};

// The first line with its newline, and what stands behind it.
pub(crate) fn split_line(text: &[u8]) -> (&[u8], &[u8])
    requires { 0 < length text.now }
    ensures lines { lines text.now ≡ result.0.now ∷ lines result.1.now }
    ensures whole { text.now ≡ result.0.now ++ result.1.now }
    ensures some { 0 < length result.0.now }
{
    let count = count_line_bytes(text);
    if count < text.len() {
        text.split_at(count + 1)
    } else {
        text.split_at(count)
    }
}

fn count_line_bytes(text: &[u8]) -> usize
    ensures { result ≡ prefix_len is_within_line text.now }
{
    text.iter().take_while(|b| **b != b'\n').count()
}

// What counts of the line, and whether the next line goes on with it.
pub(crate) fn cut_line(line: &[u8]) -> (&[u8], bool)
    ensures text { result.0.now ≡ counted line.now }
    ensures joined { result.1 ≡ joins line.now }
{
    let mut rest = line;
    while let [first, behind @ ..] = rest {
        if stops(*first, behind) {
            let (text, _) = line.split_at(line.len() - rest.len());
            return (text, *first == b'\\');
        }
        rest = behind;
    }
    (line, false)
}

fn stops(byte: u8, behind: &[u8]) -> bool
    ensures { result ≡ spec_stops byte behind.now }
{
    byte == b'#' || byte == b'\n' || (byte == b'\\' && begins_with_newline(behind))
}

fn begins_with_newline(text: &[u8]) -> bool
    ensures { result ≡ spec_begins_with_newline text.now }
{
    match text {
        [first, ..] => *first == b'\n',
        [] => false,
    }
}

/// Whether all bytes of the line are of ASCII.
pub fn is_ascii_line(line: &[u8]) -> bool
    ensures { result ≡ spec_is_ascii_line line.now }
{
    line.iter().all(|b| is_ascii(*b))
}

fn is_ascii(byte: u8) -> bool
    ensures { result ≡ is_ascii_byte byte }
{
    byte < 128
}
