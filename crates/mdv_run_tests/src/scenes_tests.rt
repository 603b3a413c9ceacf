// What runs leave on the drives, and how they end where a call fails.

use crate::bench::{BLOCKS, CREATION, LONE, Step, TABLE, ends_so, first_wrong};
use mdv_run_law::RunStatus;
use mdv_shelf::MemShelf;
use std::alloc::{AllocError, Global};
use std::test::Fail;

// A database, a volume, and a block of it.
const VOLUME: &str =
    "metadb -a -f c0t0d0s7\nmetainit d5 1 1 c0t0d0s0\nwrite d5 3 ab\nread d5 3 1\n";

const PANIC: RunStatus = RunStatus::Panic {
    active: 0,
    listed: 1,
};

// The blocks of the replica at block 32, without the zeros behind.
const MASTER: &[u8] =
    b"MDVREPL1\x01\x02\x03\x04\x05\x06\x07\x08\0\0\0\0\0\x05alpha\0\0\0\0\0\0\0\0\0\0\0\0\0\0\0\0\0\0\0\0\0\0\0\0\0\0\0\0\0\0\x07\0\0\0\x10\0\0\x20\0\0\x01";

const RECORD: &[u8] =
    b"MDVREC01\0\0\0\x24\x01\x01\0\0\0\x07\0\0\0\x10\0\0\x20\0\0\0\0\0\0\0\0\0\0\0";

// The record with d5, a stripe on the 16 blocks of c0t0d0s0.
const RECORD_OF_VOLUME: &[u8] =
    b"MDVREC01\0\0\0\x56\x01\x01\0\0\0\x07\0\0\0\x10\0\0\x20\0\0\0\0\0\0\0\0\0\0\x01\0\x05\0\0\0\0\0\x01\0\x01\0\0\0\x20\0\0\0\0\0\0\0\0\0\0\0\0\0\0\0\0\0\0\0\0\x10";

// The same of a replica of 16 blocks.
const SHORT_MASTER: &[u8] =
    b"MDVREPL1\x01\x02\x03\x04\x05\x06\x07\x08\0\0\0\0\0\x05alpha\0\0\0\0\0\0\0\0\0\0\0\0\0\0\0\0\0\0\0\0\0\0\0\0\0\0\0\0\0\0\x07\0\0\0\x10\0\0\0\x10\0\x01";

const SHORT_RECORD: &[u8] =
    b"MDVREC01\0\0\0\x24\x01\x01\0\0\0\x07\0\0\0\x10\0\0\0\x10\0\0\0\0\0\0\0\0\0\0";

const SHORT_RECORD_OF_VOLUME: &[u8] =
    b"MDVREC01\0\0\0\x56\x01\x01\0\0\0\x07\0\0\0\x10\0\0\0\x10\0\0\0\0\0\0\0\0\0\x01\0\x05\0\0\0\0\0\x01\0\x01\0\0\0\x20\0\0\0\0\0\0\0\0\0\0\0\0\0\0\0\0\0\0\0\0\x10";

const CLOSED: &[u8] = b"MDVGATE1\0\0\0\0\0\0\0\0\0\0\0\0\0\0\0\0\0\0\0\0\0";

const FIRST: &[u8] = b"MDVGATE1\x01\0\0\0\0\0\0\0\x01\0\0\0\0\0\0\0\0\0\0\0\x24";

const SECOND: &[u8] = b"MDVGATE1\x01\0\0\0\0\0\0\0\x02\0\0\0\0\0\0\0\0\0\0\0\x24";

const THIRD: &[u8] = b"MDVGATE1\x01\0\0\0\0\0\0\0\x03\0\0\0\0\0\0\0\0\0\0\0\x24";

const FOURTH: &[u8] = b"MDVGATE1\x01\0\0\0\0\0\0\0\x04\0\0\0\0\0\0\0\0\0\0\0\x24";

// The gate under the greatest number, 2^63 - 1, and claims of 1, of that number and of the one before.
const GREATEST: &[u8] = b"MDVGATE1\x01\x7f\xff\xff\xff\xff\xff\xff\xff\0\0\0\0\0\0\0\0\0\0\0\x24";

const CLAIM_ONE: &[u8] = b"MDVCLAIM\0\0\0\0\0\0\0\x01";

const CLAIM_TWO: &[u8] = b"MDVCLAIM\0\0\0\0\0\0\0\x02";

const CLAIM_FOUR: &[u8] = b"MDVCLAIM\0\0\0\0\0\0\0\x04";

// The gates over the record with d5: behind a change under the first boot's number, and behind the second boot.
const CHANGED: &[u8] = b"MDVGATE1\x01\0\0\0\0\0\0\0\x01\0\0\0\0\0\0\0\x01\0\0\0\x56";

const ADOPTED: &[u8] = b"MDVGATE1\x01\0\0\0\0\0\0\0\x02\0\0\0\0\0\0\0\0\0\0\0\x56";

const CLAIM_GREATEST: &[u8] = b"MDVCLAIM\x7f\xff\xff\xff\xff\xff\xff\xff";

const CLAIM_BEFORE: &[u8] = b"MDVCLAIM\x7f\xff\xff\xff\xff\xff\xff\xfe";

const OF_NOTHING: &str = "ok\nok\nrefused E1 BadLine\n";

// Lines that ask for nothing are passed over.
const NOTHING: &[Step] = &[
    Step::Run(
        "\n# a comment\n \t\nmetadb -a -f c0t0d0s7\n\t# metadb\n#boot\nboot\n\nmetadb # x\n\n#",
        RunStatus::SomeRefused,
        OF_NOTHING,
    ),
    Step::Run("# all\n\n", RunStatus::Done, OF_NOTHING),
];

const NO_SCRIPT: &[Step] = &[Step::Run("", RunStatus::Done, "")];

// A creation writes each block as it is spelled here, and each boot behind it writes the table anew: that
// of a later run, and that of a line.
const REPLICA: &[Step] = &[
    Step::Run(CREATION, RunStatus::Done, "ok\n"),
    Step::Block(31, b""),
    Step::Head(MASTER, CLAIM_ONE, FIRST, CLOSED),
    Step::Block(36, RECORD),
    Step::Block(4130, b""),
];

const BOOTED_REPLICA: &[Step] = &[
    Step::Run("metadb -a -f c0t0d0s7\nboot\n", RunStatus::Done, "ok\nok\n"),
    Step::Head(MASTER, CLAIM_TWO, FIRST, SECOND),
    Step::Block(36, RECORD),
    Step::Block(4130, RECORD),
    Step::Run("boot\n", RunStatus::Done, "ok\nok\nok\n"),
    Step::Head(MASTER, CLAIM_FOUR, THIRD, FOURTH),
];

// A replica of 16 blocks has its slots right behind each other, and no block behind its own is written.
const SHORT_REPLICA: &[Step] = &[
    Step::Fill(48, 64, b"kept"),
    Step::Run(
        "metadb -a -f -l 16 c0t0d0s7\nmetainit d5 1 1 c0t0d0s0\n",
        RunStatus::Done,
        "ok\nok\n",
    ),
    Step::Head(SHORT_MASTER, CLAIM_ONE, FIRST, CHANGED),
    Step::Block(36, SHORT_RECORD),
    Step::Block(37, b""),
    Step::Block(42, SHORT_RECORD_OF_VOLUME),
    Step::Blocks(43, 48, b""),
    Step::Blocks(48, 64, b"kept"),
];

const OF_VOLUME: &str = "ok\nok\nok\n3 ab\nok\n";

// A volume's table goes to the other slot, and its block 3 is block 3 of its slice; the next boot takes the slots in turn.
const OF_A_VOLUME: &[Step] = &[
    Step::Run(VOLUME, RunStatus::Done, OF_VOLUME),
    Step::Block(2, b""),
    Step::Block(3, b"\xab"),
    Step::Block(4, b""),
    Step::Head(MASTER, CLAIM_ONE, FIRST, CHANGED),
    Step::Block(36, RECORD),
    Step::Block(4130, RECORD_OF_VOLUME),
    Step::Run("", RunStatus::Done, OF_VOLUME),
    Step::Head(MASTER, CLAIM_TWO, ADOPTED, CHANGED),
    Step::Block(36, RECORD_OF_VOLUME),
];

// The first reply can't be given: a refusal, and that of a boot.
const NO_REFUSAL: &[Step] = &[
    Step::Fail(3),
    Step::Run("metadb -a c0t0d0s7\n", RunStatus::WriteFault, ""),
];

const NO_REPLY: &[Step] = &[
    Step::Fail(6),
    Step::Run("boot\n", RunStatus::WriteFault, ""),
];

// A drive with a replica whose numbers are at their limit: the run ends once it has made so many calls, of which none tells
// anything, and leaves its head. With one call more it would be a Panic. The calls are block 0, the sync, the head, and the
// body of each open slot: nothing is written.
const CLAIM_SPENT: &[Step] = &[
    Step::Put(32, MASTER),
    Step::Put(33, CLAIM_GREATEST),
    Step::Put(34, FIRST),
    Step::Put(35, CLOSED),
    Step::Put(36, RECORD),
    Step::Put(4130, RECORD),
    Step::Stop(4),
    Step::Run("", RunStatus::NumbersSpent, ""),
    Step::Crash,
    Step::Head(MASTER, CLAIM_GREATEST, FIRST, CLOSED),
];

const FIRST_SPENT: &[Step] = &[
    Step::Put(32, MASTER),
    Step::Put(33, CLAIM_ONE),
    Step::Put(34, GREATEST),
    Step::Put(35, CLOSED),
    Step::Put(36, RECORD),
    Step::Put(4130, RECORD),
    Step::Stop(4),
    Step::Run(CREATION, RunStatus::NumbersSpent, ""),
    Step::Crash,
    Step::Head(MASTER, CLAIM_ONE, GREATEST, CLOSED),
];

const SECOND_SPENT: &[Step] = &[
    Step::Put(32, MASTER),
    Step::Put(33, CLAIM_ONE),
    Step::Put(34, FIRST),
    Step::Put(35, GREATEST),
    Step::Put(36, RECORD),
    Step::Put(4130, RECORD),
    Step::Stop(5),
    Step::Run("boot\n", RunStatus::NumbersSpent, ""),
    Step::Crash,
    Step::Head(MASTER, CLAIM_ONE, FIRST, GREATEST),
];

// The run's boot draws the greatest number and writes it with eight calls, and the line draws none.
const DRAWN_SPENT: &[Step] = &[
    Step::Put(32, MASTER),
    Step::Put(33, CLAIM_BEFORE),
    Step::Put(34, FIRST),
    Step::Put(35, CLOSED),
    Step::Put(36, RECORD),
    Step::Put(4130, RECORD),
    Step::Stop(17),
    Step::Run("boot\n", RunStatus::NumbersSpent, ""),
    Step::Crash,
    Step::Head(MASTER, CLAIM_GREATEST, FIRST, GREATEST),
];

// On the drive of `TABLE`.
const SCENES: &[(&str, &[Step])] = &[
    ("passes_over_lines_that_ask_for_nothing", NOTHING),
    ("an_empty_script_is_done", NO_SCRIPT),
    ("writes_the_blocks_of_a_replica", REPLICA),
    ("writes_the_blocks_of_a_booted_replica", BOOTED_REPLICA),
    ("writes_the_blocks_of_a_short_replica", SHORT_REPLICA),
    ("writes_the_blocks_of_a_volume", OF_A_VOLUME),
    ("tells_of_a_refusal_that_fails", NO_REFUSAL),
    ("tells_of_a_reply_that_fails", NO_REPLY),
    ("ends_where_the_claim_is_spent", CLAIM_SPENT),
    ("ends_where_the_first_slot_is_spent", FIRST_SPENT),
    ("ends_where_the_second_slot_is_spent", SECOND_SPENT),
    ("ends_where_the_last_number_is_drawn", DRAWN_SPENT),
];

#[test]
fn scenes_go_as_they_are_written(rt: HostRuntime) -> Result<(), Fail> {
    for (name, steps) in SCENES {
        let wrong = first_wrong(rt.alloc(), TABLE, LONE, steps)?;
        assert!(rt; wrong.is_none(), "{name} at {wrong:?}");
    }
    Ok(())
}

const NO_DATABASE: &str = "refused E2 NoDatabase\nrefused E2 NoDatabase\nrefused E2 NoDatabase\n";

// The call that fails, how the script of a volume ends then, and what is told: all of it, or what comes before the
// replies of `NO_DATABASE`. The boot has three calls, the format six, the writing of a table six, the write of
// a block two, its read one, and each reply one.
const FAILED_CALLS: &[(u64, RunStatus, &str)] = &[
    (0, RunStatus::SomeRefused, "refused E13 WrongState Down\n"),
    (1, RunStatus::SomeRefused, "refused E13 WrongState Down\n"),
    (2, RunStatus::SomeRefused, "refused E13 WrongState Down\n"),
    (3, RunStatus::SomeRefused, "refused E23 IoFault\n"),
    (9, PANIC, ""),
    (14, PANIC, ""),
    (15, RunStatus::WriteFault, ""),
    (16, PANIC, "ok\n"),
    (21, PANIC, "ok\n"),
    (22, RunStatus::WriteFault, "ok\n"),
    (
        23,
        RunStatus::SomeRefused,
        "ok\nok\nrefused E23 IoFault\n3 -\nok\n",
    ),
    (
        24,
        RunStatus::SomeRefused,
        "ok\nok\nrefused E23 IoFault\n3 ab\nok\n",
    ),
    (25, RunStatus::WriteFault, "ok\nok\n"),
    (
        26,
        RunStatus::SomeRefused,
        "ok\nok\nok\nrefused E23 IoFault\n",
    ),
    (27, RunStatus::WriteFault, "ok\nok\nok\n"),
    (28, RunStatus::Done, "ok\nok\nok\n3 ab\nok\n"),
];

fn fails_so(alloc: Global, number: u64, status: RunStatus, told: &str) -> Result<bool, AllocError> {
    let mut shelf = MemShelf::new(alloc, LONE)?;
    shelf.fail_call(number)?;
    let mut all = String::from_str(alloc, told)?;
    all.push_str(if number < 9 { NO_DATABASE } else { "" })?;
    ends_so(alloc, TABLE, &mut shelf, VOLUME, (status, all.as_str()))
}

#[test]
fn tells_of_failed_calls(rt: HostRuntime) -> Result<(), Fail> {
    for (number, status, told) in FAILED_CALLS {
        assert!(rt; fails_so(rt.alloc(), *number, *status, told)?, "{number}");
    }
    Ok(())
}
