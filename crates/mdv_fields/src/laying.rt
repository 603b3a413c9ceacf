ghost use Rattle.mdv_fields.specs.Laying.{IsLaid};

/// Puts the text behind the first `used` bytes where there is room for it, and tells where it ends, be there room
/// or not. So a text that is laid into no bytes at all is counted.
pub fn lay(out: &mut [u8], used: usize, text: &[u8]) -> usize
    ensures { IsLaid used out.old out.new text.now result }
{
    if used <= out.len() && text.len() <= out.len() - used {
        out[used..used + text.len()].copy_from_slice(text);
    }
    used.saturating_add(text.len())
}
