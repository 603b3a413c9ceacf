/// A block of a stripe as a block of one of its components.
#[derive(Clone, Copy, Debug, PartialEq, Eq)]
pub struct Leg {
    /// Which component, counted from 0.
    pub component: usize,
    /// Which block of it.
    pub block: u64,
}
