use mdv_base::NAME_BYTES;

// The name of a set, by which names are put in order.
#[derive(Clone, Copy, PartialEq, Eq, PartialOrd, Ord)]
pub(crate) struct SetKey {
    pub(crate) bytes: [u8; NAME_BYTES],
    pub(crate) len: u8,
}

// A volume or a pool of a set or of none. Numbers are compared first, since they mostly tell two
// names apart.
#[derive(Clone, Copy, PartialEq, Eq, PartialOrd, Ord)]
pub(crate) struct Key {
    pub(crate) number: u16,
    pub(crate) pool: bool,
    pub(crate) set: Option<SetKey>,
}
