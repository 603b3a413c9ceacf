use mdv_base::{Name, PoolId, VolId};

/// How many volumes a database may have: their numbers are below it.
pub const VOLUME_LIMIT: u64 = 8192;

/// A volume of a set, or of the local database.
#[derive(Clone, Copy, Debug, PartialEq, Eq)]
pub struct VolName {
    pub set: Option<Name>,
    pub volume: VolId,
}

/// A pool of hot spares of a set, or of the local database.
#[derive(Clone, Copy, Debug, PartialEq, Eq)]
pub struct PoolName {
    pub set: Option<Name>,
    pub pool: PoolId,
}
