/// What `metadb` tells of one replica, each field for its letter: `a m u l W R F M D`.
#[derive(Clone, Copy, Debug, PartialEq, Eq, Default)]
pub struct Flags {
    /// `a`: it is active, so it holds the current table.
    pub active: bool,
    /// `m`: the first of those that showed the greatest mark at the boot.
    pub master: bool,
    /// `u`: it is up to date, which is the same as active.
    pub updated: bool,
    /// `l`: its master block was read at the boot and was of the form, or it was formatted since.
    pub located: bool,
    /// `W`: a write of it failed since the boot.
    pub write_error: bool,
    /// `R`: its drive wasn't up at the boot, or a read of it failed there.
    pub read_error: bool,
    /// `F`: its claim or a gate wasn't of the form.
    pub form_fault: bool,
    /// `M`: its master block wasn't of the form.
    pub master_fault: bool,
    /// `D`: a body wasn't a record.
    pub body_fault: bool,
}
