//! Parts of a plan, each spelled with what is noted of it.
ghost use Rattle.std.specs.Prelude.{ℕ, List, flat_map};
ghost use Rattle.mdv_fields.specs.Laying.{IsLaid};
ghost use Rattle.mdv_whole.specs.Sides.{pairs_text};

/// What is spelled together with what is noted of it.
pub trait Beside<N> {
    ghost text: { Self → N → List ℕ };

    /// Lays the text behind the first `used` bytes, and tells where it ends.
    fn lay_with(&self, noted: &N, out: &mut [u8], used: usize) -> usize
        ensures { IsLaid used out.old out.new (text self.now noted.now) result };
}

/// Lays each with its own note, as far as both lists go.
pub fn lay_pairs<N, T: Beside<N>>(out: &mut [u8], used: usize, items: &[T], noted: &[N]) -> usize
    ensures { IsLaid used out.old out.new (pairs_text T.text items.now noted.now) result }
{
    let mut used = used;
    for i in 0..items.len().min(noted.len()) {
        used = items[i].lay_with(&noted[i], out, used);
    }
    used
}

/// Lays each with what is noted of all.
pub fn lay_all<N, T: Beside<N>>(out: &mut [u8], used: usize, items: &[T], noted: &N) -> usize
    ensures { IsLaid used out.old out.new (flat_map (λ x. T.text x noted.now) items.now) result }
{
    let mut used = used;
    for item in items {
        used = item.lay_with(noted, out, used);
    }
    used
}
