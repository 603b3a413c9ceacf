use thiserror::Error;

/// Why components make no stripe. The causes are looked at in this order.
#[derive(Clone, Copy, Debug, PartialEq, Eq, Error)]
pub enum NoStripe {
    #[error("a stripe has one component at least")]
    TooFew,
    #[error("a stripe has at most 100 components")]
    TooMany,
    #[error("an interlace has 16 to 204800 blocks")]
    BadInterlace,
    /// The shortest component has less than one interlace, or a lone one no block.
    #[error("no block would be left")]
    TooSmall,
    /// It would have 2^64 blocks or more.
    #[error("the blocks can't be counted in 64 bits")]
    TooLong,
}
