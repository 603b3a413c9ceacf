/// How many bytes a block has.
pub const BLOCK_BYTES: usize = 512;

/// The unit in which drives are read and written.
pub type Block = [u8; 512];

/// A block as a new drive has it.
pub const ZERO_BLOCK: Block = [0; 512];
