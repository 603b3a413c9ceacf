/// A row of a volume: a stripe over some of its leaves, which follow one another.
#[derive(Clone, Copy, Debug, Default)]
pub(crate) struct LaidRow {
    /// Which block of the volume is its first.
    pub(crate) start: u64,
    /// Which leaf is its first, and how many it has.
    pub(crate) first: usize,
    pub(crate) width: usize,
    /// How many blocks of a leaf follow each other before the next leaf's.
    pub(crate) interlace: u64,
    /// How many times the interlace each leaf holds. It says nothing of a lone one.
    pub(crate) units: u64,
}
