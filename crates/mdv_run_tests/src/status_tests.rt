// The number and the text of each status that standard error tells of.

use mdv_base::Identity;
use mdv_run_law::RunStatus;
use std::alloc::{AllocError, Global};

const A: Identity = Identity {
    fresh: 7,
    number: 0,
};

const B: Identity = Identity {
    fresh: 18_446_744_073_709_551_615,
    number: 3,
};

const STATUSES: &[(RunStatus, u8, &str)] = &[
    (RunStatus::Usage, 2, "Usage\nusage: metad HOST < SCRIPT"),
    (
        RunStatus::NoQuorum {
            readable: 3,
            needed: 4,
        },
        3,
        "NoQuorum 3 4",
    ),
    (
        RunStatus::Panic {
            active: 0,
            listed: 1,
        },
        4,
        "Panic 0 1",
    ),
    (
        RunStatus::TwoDatabases { a: A, b: B },
        8,
        "TwoDatabases 7 0 18446744073709551615 3",
    ),
    (
        RunStatus::ScriptTooLong {
            lines: 1_048_576,
            bytes: 20_971_520,
        },
        9,
        "ScriptTooLong 1048576 20971520",
    ),
    (RunStatus::NumbersSpent, 10, "NumbersSpent"),
];

fn shows(alloc: Global, status: RunStatus, want: &str) -> Result<bool, AllocError> {
    let text = format!(in alloc; "{status}")?;
    Ok(text.as_str() == want)
}

#[test]
fn tells_each_status(rt: HostRuntime) {
    for (status, number, want) in STATUSES {
        let is_told = status.is_failure() && status.number() == *number;
        assert!(rt;
            is_told && shows(rt.alloc(), *status, want) == Ok(true),
            "{number}"
        );
    }
}
