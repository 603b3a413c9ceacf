ghost use Rattle.std.specs.Prelude.{◌≡◌, ◌≤◌, length};
ghost use Rattle.mdv_base.specs.Refusal.{word_of};

/// The state that a `WrongState` refusal tells.
#[derive(Clone, Copy, Debug, PartialEq, Eq)]
pub enum StateWord {
    Okay,
    Resyncing,
    Maintenance,
    LastErred,
    Initializing,
    Offline,
    Online,
    Absent,
    Down,
    Inactive,
    Pending,
    Mediated,
    Owner,
    Available,
    InUse,
    Broken,
    TwoDatabases,
}

impl StateWord {
    pub fn as_str(self) -> &'static str
        ensures value { result.now ≡ word_of self }
        ensures short { length result.now ≤ 14 }
    {
        match self {
            StateWord::Okay => "Okay",
            StateWord::Resyncing => "Resyncing",
            StateWord::Maintenance => "Maintenance",
            StateWord::LastErred => "LastErred",
            StateWord::Initializing => "Initializing",
            StateWord::Offline => "Offline",
            StateWord::Online => "Online",
            StateWord::Absent => "Absent",
            StateWord::Down => "Down",
            StateWord::Inactive => "Inactive",
            StateWord::Pending => "Pending",
            StateWord::Mediated => "Mediated",
            StateWord::Owner => "Owner",
            StateWord::Available => "Available",
            StateWord::InUse => "InUse",
            StateWord::Broken => "Broken",
            StateWord::TwoDatabases => "TwoDatabases",
        }
    }
}
