// What goes wrong in a run.

/// What goes wrong. Calls are counted from 0 at the run's start, over all drives and the replies.
#[derive(Clone, Copy, Debug, PartialEq, Eq)]
pub enum Trouble {
    Nothing,
    /// That call fails.
    Fail(u64),
    /// These two calls fail, of which the first comes before the second.
    FailBoth(u64, u64),
    /// The drive of that number is lost from that call on.
    Lose(u32, u64),
    /// So many calls pass, and no later one.
    Stop(u64),
}

impl Trouble {
    /// The first call that fails, of so many on the drive from that one on.
    pub(crate) fn failing(self, drive: u32, from: u64, count: u64) -> Option<u64> {
        match self {
            Trouble::Lose(lost, _) if lost != drive => None,
            _ => self.among(from, count),
        }
    }

    /// Whether a reply fails that is told with that call. A lost drive lets replies be told.
    pub(crate) fn fails_reply(self, call: u64) -> bool {
        match self {
            Trouble::Lose(_, _) => false,
            _ => self.among(call, 1).is_some(),
        }
    }

    fn among(self, from: u64, count: u64) -> Option<u64> {
        let call = match self {
            Trouble::Nothing => return None,
            Trouble::Fail(call) => call,
            Trouble::FailBoth(call, other) if call < from => other,
            Trouble::FailBoth(call, _) => call,
            Trouble::Lose(_, call) => call.max(from),
            Trouble::Stop(call) => call.max(from),
        };
        if call >= from && call < from.saturating_add(count) {
            Some(call)
        } else {
            None
        }
    }
}
