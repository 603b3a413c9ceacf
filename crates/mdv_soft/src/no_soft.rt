use thiserror::Error;

/// Why extents make no soft partition. The causes are looked at in this order, each over all extents.
#[derive(Clone, Copy, Debug, PartialEq, Eq, Error)]
pub enum NoSoft {
    #[error("a soft partition has one extent at least")]
    TooFew,
    #[error("a soft partition has at most 16 extents")]
    TooMany,
    #[error("an extent has no block")]
    EmptyExtent,
    /// It begins at block 0 of the base, so that no block is left for its header.
    #[error("an extent has no block before it for its header")]
    NoHeader,
    #[error("an extent ends behind the last block of the base")]
    PastTheEnd,
    /// Their headers count.
    #[error("two extents share a block")]
    SharedBlock,
}
