use mdv_base::Block;

/// What a line writes to blocks of a volume.
#[derive(Clone, Copy, Debug)]
pub enum Written {
    /// `write`: one block; HEX is 1 to 512 pairs of digits, the rest of the block is zeros
    One(Block),
    /// `fill`: so many blocks, 1 or more, each byte of them this one
    Filled { count: u64, byte: u8 },
}
