use mdv_name::Geometry;
use mdv_shown::Site;

/// Whose run it is: what the host sees of the table of drives, on which slices its database's replicas may lie and which drives a boot brings up, and the word
/// that its databases' identities have.
#[derive(Drop)]
pub struct Host {
    pub drives: Geometry,
    pub site: Site,
    pub fresh: u64,
}
