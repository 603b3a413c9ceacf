// Whose runs there are, over which drives, and from which source.

use crate::bench::{
    BLOCKS, CREATION, LONE, Step, TABLE, ends_by, ends_so, first_wrong, run_host, source_of,
};
use mdv_port::MemSource;
use mdv_run_law::RunStatus;
use mdv_shelf::MemShelf;
use std::alloc::{AllocError, Global};
use std::test::Fail;

const OF_BETA: &str = "host beta\ndrive c0t0d0 8224 beta disk.img\nslice c0t0d0s7 16 8208 db\n";

const SHARED: &str = "host alpha\ndrive c0t0d0 8224 shared disk.img\nslice c0t0d0s7 16 8208 db\n";

const STORE: &str = "host alpha\nmediator alpha 8224 disk.img\n";

const NO_DRIVE: &str = "host alpha\n";

const NONE_MARKED: &str = "host alpha\ndrive c0t0d0 8224 alpha disk.img\nslice c0t0d0s7 16 8208\n";

const TOO_SHORT: &str = "host alpha\ndrive c0t0d0 8224 alpha disk.img\nslice c0t0d0s7 16 31 db\n";

// Words, a table and a drive's blocks: another host, too few words and too many, a table of another host,
// and none, and drives of other sizes.
const FAULTY: &[(&[&str], &str, u64)] = &[
    (&["beta"], TABLE, 8224),
    (&[], TABLE, 8224),
    (&["alpha", "alpha"], TABLE, 8224),
    (&["alpha"], OF_BETA, 8224),
    (&["alpha"], NO_DRIVE, 8224),
    (&["alpha"], "", 8224),
    (&["alpha"], TABLE, 8225),
    (&["alpha"], TABLE, 0),
];

fn is_faulty(alloc: Global, words: &[&str], table: &str, blocks: u64) -> Result<bool, AllocError> {
    let source = source_of(alloc, CREATION)?;
    Ok(ends_by(alloc, words, (table, &[blocks]), source, "")? == Some(RunStatus::Usage))
}

#[test]
fn refuses_a_faulty_use(rt: HostRuntime) -> Result<(), Fail> {
    for (words, table, blocks) in FAULTY {
        assert!(rt; is_faulty(rt.alloc(), words, table, *blocks)?, "{table:?}");
    }
    Ok(())
}

// A host without a slice where a replica may lie: its table, its drives, and what is told of a creation with `-f` there, and of a read.
const PLACELESS: &[(&str, &[u64], &str)] = &[
    (
        SHARED,
        LONE,
        "refused E6 NoSuchSlice\nrefused E2 NoDatabase\n",
    ),
    (
        STORE,
        LONE,
        "refused E6 NoSuchSlice\nrefused E2 NoDatabase\n",
    ),
    (
        NO_DRIVE,
        &[],
        "refused E6 NoSuchSlice\nrefused E2 NoDatabase\n",
    ),
    (
        NONE_MARKED,
        LONE,
        "refused E12 WrongKind\nrefused E2 NoDatabase\n",
    ),
    (
        TOO_SHORT,
        LONE,
        "refused E10 TooSmall\nrefused E2 NoDatabase\n",
    ),
];

#[test]
fn runs_a_host_without_a_place(rt: HostRuntime) -> Result<(), Fail> {
    for (table, sizes, told) in PLACELESS {
        let source = source_of(rt.alloc(), "metadb -a -f c0t0d0s7\nread d0 0 1\n")?;
        let end = ends_by(rt.alloc(), &["alpha"], (table, sizes), source, told)?;
        assert!(rt; end == Some(RunStatus::SomeRefused), "{table:?} {end:?}");
    }
    Ok(())
}

// What stands behind the lines of the table, and how an empty script ends.
const HOMES: &[(&str, RunStatus)] = &[
    ("", RunStatus::Done),
    ("\n# more\n", RunStatus::Done),
    ("slice c0t0d0s1 1 15\n", RunStatus::Done),
    ("slice c0t0d0s1 1 15 db\n", RunStatus::Done),
    ("slice c0t0d0s1 1 16 db\n", RunStatus::Done),
    ("slice c0t0d0s1 1 16\n", RunStatus::Done),
    ("slice c0t0d0s1 8223 1\n", RunStatus::Done),
    ("slice c0t0d0s1 8224 1\n", RunStatus::Usage),
    ("host beta\n", RunStatus::Done),
    ("drive c0t1d0 8224 alpha other.img\n", RunStatus::Usage),
    ("slice c0t0d0s8 0 16\n", RunStatus::Usage),
];

// How a run of the script ends over a table with more behind it.
fn end_with(
    alloc: Global,
    host: &str,
    (table, more): (&str, &str),
    sizes: &[u64],
    (script, told): (&str, &str),
) -> Result<Option<RunStatus>, AllocError> {
    let mut whole = String::from_str(alloc, table)?;
    whole.push_str(more)?;
    let source = source_of(alloc, script)?;
    ends_by(alloc, &[host], (whole.as_str(), sizes), source, told)
}

#[test]
fn takes_whatever_slices(rt: HostRuntime) -> Result<(), Fail> {
    for (more, status) in HOMES {
        let end = end_with(rt.alloc(), "alpha", (TABLE, more), LONE, ("", ""))?;
        assert!(rt; end == Some(*status), "{more:?}");
    }
    Ok(())
}

// A drive of beta's, and then two of alpha's: the second has the least slice for a replica, and the third one for a volume.
const NEIGHBOURS: &str = "host alpha
host beta
drive c1t0d0 8224 beta other.img
drive c0t0d0 8224 alpha disk.img
drive c0t1d0 64 alpha more.img
slice c1t0d0s0 0 16
slice c1t0d0s7 16 8208 db
slice c0t0d0s7 16 8208 db
slice c0t1d0s0 0 64
";

const AMONG_NEIGHBOURS: &str = "metadb -a -f c1t0d0s7
metadb -a -f c0t0d0s7
metainit d0 1 1 c1t0d0s0
metainit d0 1 1 c0t1d0s0
write d0 63 ab
boot
read d0 63 1
";

const TO_NEIGHBOURS: &str =
    "refused E6 NoSuchSlice\nok\nrefused E6 NoSuchSlice\nok\nok\nok\n63 ab\nok\n";

// A host makes its volumes on its own drives, on whichever, sees no slice of another's, and leaves that one's drive as it was.
const OWN_DRIVES: &[Step] = &[
    Step::Run(AMONG_NEIGHBOURS, RunStatus::SomeRefused, TO_NEIGHBOURS),
    Step::Blocks(0, BLOCKS, b""),
];

// A boot has two calls for each of alpha's drives, but for a sync where the read failed, and one for the head: behind these comes the reply.
const FAILED_BOOT: &[Step] = &[
    Step::Fail(2),
    Step::Fail(4),
    Step::Run("metadb -a c0t0d0s7\n", RunStatus::WriteFault, ""),
];

// Behind a run of alpha's, beta makes a database on its own drive.
fn is_made_beside(alloc: Global) -> Result<bool, AllocError> {
    let mut shelf = MemShelf::new(alloc, &[BLOCKS, BLOCKS, 64])?;
    let end = (RunStatus::SomeRefused, TO_NEIGHBOURS);
    let is_so = ends_so(alloc, NEIGHBOURS, &mut shelf, AMONG_NEIGHBOURS, end)?;
    let mut source = source_of(alloc, "metadb -a -f c1t0d0s7\n")?;
    let beta = run_host(alloc, &["beta"], NEIGHBOURS, &mut shelf, &mut source)?;
    Ok(is_so && beta == RunStatus::Done)
}

#[test]
fn runs_each_host_on_its_own_drives(rt: HostRuntime) -> Result<(), Fail> {
    for steps in [OWN_DRIVES, FAILED_BOOT] {
        let wrong = first_wrong(rt.alloc(), NEIGHBOURS, &[BLOCKS, BLOCKS, 64], steps)?;
        assert!(rt; wrong.is_none(), "{wrong:?}");
    }
    assert!(rt; is_made_beside(rt.alloc())?);
    Ok(())
}

// Two hosts with a marked slice each: alpha's lies on its second drive, and a shared drive and a mediator stand between.
const TWO_HOSTS: &str = "host beta
host alpha
drive c0t0d0 40 alpha a0.img
drive c1t0d0 8224 beta b0.img
drive c2t0d0 64 shared s0.img
drive c0t1d0 8232 alpha a1.img
mediator beta 32 mb.img
slice c0t0d0s0 8 16
slice c1t0d0s7 0 8208 db
slice c2t0d0s7 0 32 db
slice c0t1d0s7 24 8208 db
slice c0t1d0s0 0 24
";

const FIVE: &[u64] = &[40, 8224, 64, 8232, 32];

const SIX: &[u64] = &[40, 8224, 64, 8232, 32, 8224];

// A third host, whose slice isn't marked.
const UNMARKED: &str = "host gamma\ndrive c3t0d0 8224 gamma g.img\nslice c3t0d0s7 0 8208\n";

// What stands behind the lines of the table, the host, the drives' blocks, and how a script with a boot ends.
const USES: &[(&str, &str, &[u64], RunStatus)] = &[
    ("", "alpha", FIVE, RunStatus::Done),
    ("", "beta", FIVE, RunStatus::Done),
    ("", "gamma", FIVE, RunStatus::Usage),
    ("host gamma\n", "gamma", FIVE, RunStatus::Done),
    (UNMARKED, "gamma", SIX, RunStatus::Done),
    (UNMARKED, "gamma", FIVE, RunStatus::Usage),
    (UNMARKED, "alpha", SIX, RunStatus::Done),
    // One more slice that is marked, on an own drive and on another's.
    ("slice c0t0d0s7 24 16 db\n", "alpha", FIVE, RunStatus::Done),
    ("slice c0t1d0s6 23 1 db\n", "alpha", FIVE, RunStatus::Done),
    ("slice c0t1d0s6 20 40 db\n", "alpha", FIVE, RunStatus::Done),
    ("slice c0t0d0s7 24 16 db\n", "beta", FIVE, RunStatus::Done),
    ("slice c1t0d0s6 8223 1 db\n", "alpha", FIVE, RunStatus::Done),
    ("slice c1t0d0s6 8223 1 db\n", "beta", FIVE, RunStatus::Done),
    // A slice that has a block of the marked one, and one that has none.
    ("slice c0t1d0s1 23 2\n", "alpha", FIVE, RunStatus::Done),
    ("slice c0t1d0s1 23 1\n", "alpha", FIVE, RunStatus::Done),
    ("slice c0t1d0s1 23 2\n", "beta", FIVE, RunStatus::Done),
    // One drive of another size, one too few and one too many.
    ("", "alpha", &[41, 8224, 64, 8232, 32], RunStatus::Usage),
    ("", "alpha", &[40, 8223, 64, 8232, 32], RunStatus::Usage),
    ("", "alpha", &[40, 8224, 65, 8232, 32], RunStatus::Usage),
    ("", "alpha", &[40, 8224, 64, 8231, 32], RunStatus::Usage),
    ("", "alpha", &[40, 8224, 64, 8232, 33], RunStatus::Usage),
    ("", "alpha", &[40, 8224, 64, 8232], RunStatus::Usage),
    ("", "alpha", &[40, 8224, 64, 8232, 32, 32], RunStatus::Usage),
    ("", "alpha", &[8224, 40, 64, 8232, 32], RunStatus::Usage),
];

#[test]
fn takes_tables_of_several_hosts(rt: HostRuntime) -> Result<(), Fail> {
    for (more, host, sizes, status) in USES {
        let told = if *status == RunStatus::Done {
            "ok\n"
        } else {
            ""
        };
        let end = end_with(rt.alloc(), host, (TWO_HOSTS, more), sizes, ("boot\n", told))?;
        assert!(rt; end == Some(*status), "{more:?} {host} {sizes:?}");
    }
    Ok(())
}

// How a run ends whose source fails at the call of that number.
fn end_of_source(alloc: Global, number: u64, told: &str) -> Result<Option<RunStatus>, AllocError> {
    let source = MemSource::failing(CREATION.as_bytes().to_vec(alloc)?, number);
    ends_by(alloc, &["alpha"], (TABLE, LONE), source, told)
}

#[test]
fn tells_of_a_failed_source(rt: HostRuntime) -> Result<(), Fail> {
    for (number, told) in [(0, ""), (1, "ok\n")] {
        let end = end_of_source(rt.alloc(), number, told)?;
        assert!(rt; end == Some(RunStatus::ReadFault), "{number}");
    }
    Ok(())
}
