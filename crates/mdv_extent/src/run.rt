/// The most extents that a soft partition has.
pub const MAX_EXTENTS: usize = 16;

/// So many blocks of 512 bytes of a base, from one on. The run of an extent is its blocks alone: its header,
/// the block before them, isn't in it.
#[derive(Clone, Copy, Debug, PartialEq, Eq, Hash)]
pub struct Run {
    /// The first block, counted from the base's first.
    pub at: u64,
    pub blocks: u64,
}
