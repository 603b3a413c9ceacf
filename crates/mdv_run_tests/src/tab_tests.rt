// `tab` blocks, and lines of the grammar that aren't built.
use crate::ground::SMALL;
use mdv_port::MemSource;
use mdv_run::run;
use mdv_run_law::RunStatus;
use mdv_shelf::MemShelf;
use std::alloc::{AllocError, Global};
use std::process::Abort;
use std::test::Fail;

// The texts of a script, each so many times.
type Texts = &'static [(&'static str, u32)];

fn bytes_of(alloc: Global, texts: Texts) -> Result<Vec<u8>, AllocError> {
    let mut bytes = Vec::new(alloc);
    for (text, times) in texts {
        for _ in 0..*times {
            bytes.extend_from_slice(text.as_bytes())?;
        }
    }
    Ok(bytes)
}

// How the run of such a source ends on a drive that takes so many calls, where it tells just this.
fn status_of(
    alloc: Global,
    source: &mut MemSource,
    calls: u64,
    told: &[u8],
) -> Result<Option<RunStatus>, AllocError> {
    let words = [format!(in alloc; "alpha")?];
    let mut shelf = MemShelf::new(alloc, SMALL.sizes)?;
    shelf.stop_after(calls);
    let status = run(&words, SMALL.table.as_bytes(), &mut shelf, source, 7);
    if shelf.told() == told {
        Ok(Some(status))
    } else {
        Ok(None)
    }
}

fn expect<R: Abort + AllocGlobal>(
    rt: &R,
    texts: Texts,
    told: &str,
    status: RunStatus,
) -> Result<(), Fail> {
    let mut source = MemSource::new(bytes_of(rt.alloc(), texts)?);
    let found = status_of(rt.alloc(), &mut source, 100, told.as_bytes())?;
    assert!(rt; found == Some(status), "{texts:?} {told:?} {found:?}");
    Ok(())
}

// Blocks that are read, and what is told.
const READ: &[(Texts, &str)] = &[
    (
        &[(
            "tab\n# two-way mirror\nd0 -m d10 d20 1\nd10 1 1 /dev/dsk/c0t0d0s0\nd20 1 1 \\\nc0t1d0s0\nend\n",
            1,
        )],
        "entries 3\nok\n",
    ),
    (&[("tab\nend\n", 1)], "entries 0\nok\n"),
    (
        &[("\n\t tab \n\n# end\n \t\nhsp001\n  # tab\nend\t", 1)],
        "entries 1\nok\n",
    ),
    (
        &[(
            "tab\nhsp001\nhsp002\nend\nboot\ntab\nhsp001\nend\nmetadb -a -f c0t0d0s7\n",
            1,
        )],
        "entries 2\nok\nok\nentries 1\nok\nok\n",
    ),
    // The most entries and bytes, the longest line, and two of them that are one entry.
    (
        &[("tab\n", 1), ("hsp001\n", 1024), ("end\n", 1)],
        "entries 1024\nok\n",
    ),
    (
        &[("tab\n", 1), ("   \n", 16384), ("end\n", 1)],
        "entries 0\nok\n",
    ),
    (
        &[("tab\nhsp001", 1), (" ", 4090), ("\nend\n", 1)],
        "entries 1\nok\n",
    ),
    (
        &[
            ("tab\nd10 1 1", 1),
            (" ", 4088),
            ("\\\n", 1),
            (" ", 4088),
            ("c0t0d0s0\nend\n", 1),
        ],
        "entries 1\nok\n",
    ),
];

// Scripts in which something is refused, and what is told.
const REFUSED: &[(Texts, &str)] = &[
    // A line of no form, behind a block that was read.
    (
        &[("tab\nhsp001\nend\ntab\nhsp002\nd10\nend\n", 1)],
        "entries 1\nok\nrefused E1 BadLine\n",
    ),
    (
        &[("tab\nhsp001\ntab\nend\nboot\n", 1)],
        "refused E1 BadLine\nok\n",
    ),
    (
        &[("tab\nend now\nend # now\nboot\nend\nboot\n", 1)],
        "refused E1 BadLine\nok\n",
    ),
    (
        &[("tab\n# \u{e9}\nend\nboot\n", 1)],
        "refused E1 BadLine\nok\n",
    ),
    // No block begins or ends so.
    (
        &[("end\nboot\ntab now\ntab # now\n", 1)],
        "refused E1 BadLine\nok\nrefused E1 BadLine\nrefused E1 BadLine\n",
    ),
    // The script ends within the block.
    (&[("boot\ntab", 1)], "ok\nrefused E1 BadLine\n"),
    (&[("tab\nhsp001\nboot\n", 1)], "refused E1 BadLine\n"),
    (
        &[("tab\n", 1), ("x", 4097), ("\nhsp001\n", 1)],
        "refused E29 LineTooLong\n",
    ),
    (
        &[("tab\nhsp001\n", 1), (" ", 4097)],
        "refused E29 LineTooLong\n",
    ),
    // One entry, byte and letter too many; each behind a block that was read, and before a boot.
    (
        &[("tab\n", 1), ("hsp001\n", 1025), ("end\nboot\n", 1)],
        "refused E9 TooMany\nok\n",
    ),
    (
        &[("tab\n", 1), ("hsp001\n", 1025), ("what\nend\n", 1)],
        "refused E9 TooMany\n",
    ),
    (
        &[("tab\n", 1), ("   \n", 16384), ("\nend\nboot\n", 1)],
        "refused E9 TooMany\nok\n",
    ),
    (
        &[("tab\nwhat\n", 1), ("   \n", 16384), ("end\nboot\n", 1)],
        "refused E9 TooMany\nok\n",
    ),
    (
        &[("tab\nhsp001\n#", 1), ("x", 4096), ("\nend\nboot\n", 1)],
        "refused E29 LineTooLong\nok\n",
    ),
    (
        &[
            ("tab\n", 1),
            (" ", 4097),
            ("\nwhat\n", 1),
            ("   \n", 16384),
            ("end\nboot\n", 1),
        ],
        "refused E29 LineTooLong\nok\n",
    ),
];

#[test]
fn reads_blocks(rt: HostRuntime) -> Result<(), Fail> {
    for (texts, told) in READ {
        expect(&rt, texts, told, RunStatus::Done)?;
    }
    Ok(())
}

#[test]
fn refuses_blocks(rt: HostRuntime) -> Result<(), Fail> {
    for (texts, told) in REFUSED {
        expect(&rt, texts, told, RunStatus::SomeRefused)?;
    }
    Ok(())
}

// Two blocks of some 5000 bytes, of which a source gives 4096 with each call; the last one gives none.
const TWO_BLOCKS: Texts = &[
    ("tab\nhsp001", 1),
    (" ", 4000),
    ("\n", 1000),
    ("end\ntab\nhsp002", 1),
    (" ", 4000),
    ("\n", 1000),
    ("end\n", 1),
];

// The call of the source that fails, and what is told.
const FAILING: &[(u64, &str)] = &[
    (0, ""),
    (1, ""),
    (2, "entries 1\nok\n"),
    (3, "entries 1\nok\nentries 1\nok\n"),
];

#[test]
fn tells_nothing_of_a_block_that_a_fault_cuts(rt: HostRuntime) -> Result<(), Fail> {
    for (call, told) in FAILING {
        let mut source = MemSource::failing(bytes_of(rt.alloc(), TWO_BLOCKS)?, *call);
        let found = status_of(rt.alloc(), &mut source, 100, told.as_bytes())?;
        assert!(rt; found == Some(RunStatus::ReadFault), "{call} {found:?}");
    }
    Ok(())
}

// Lines of the grammar that aren't built, and one of an entry that isn't kept.
const UNBUILT: &[&str] = &[
    "metadb",
    "metadb -i",
    "metadb -a mddb01",
    "metainit -a",
    "metainit d1",
    "metainit hsp001 c0t0d0s1",
    "metainit d1 2 1 c0t0d0s1 1 d0",
    "metainit d1 1 2 c0t0d0s1 d0",
    "metainit d1 1 1 c0t0d0s1 -h hsp001",
    "metainit d1 1 1 d0",
    "metainit d1 -m d0",
    "metainit d1 -r c0t0d0s1 c0t1d0s0 c0t2d0s0",
    "metainit d1 -p c0t0d0s1 4b",
    "metainit -s blue d1 1 1 c0t0d0s1",
    "metaclear -s blue d0",
    "metaclear -r blue/d0",
    "metaclear -a -s blue",
    "metattach d0 d1",
    "metattach d0 c0t0d0s1 d1",
    "metattach d0 4b",
    "metattach -s blue d0 c0t0d0s1",
    "metadetach d1 d0",
    "metaoffline d1 d0",
    "metaonline d1 d0",
    "metareplace -e d0 c0t0d0s0",
    "metahs -a hsp001 c0t0d0s1",
    "metahs -i",
    "metastat",
    "metastat d0",
    "metastat -s blue -p",
    "metastat -p blue/d0",
    "metaset",
    "metaset -s blue -a -h alpha",
    "read blue/d0 0 1",
    "write blue/d0 0 ab",
    "fill blue/d0 0 1 ab",
    "idle 1",
];

// A database and a volume, one of the lines, and whether block 0 of d0 is as it was.
const BEFORE: &str = "metadb -a -f c0t0d0s7\nmetainit d0 1 1 c0t0d0s0\nwrite d0 0 cd\n";

const BEHIND: &str = "read d0 0 1\nread d1 0 1\n";

const TOLD: &str = "ok\nok\nok\nrefused E1 BadLine\n0 cd\nok\nrefused E4 NoSuchVolume\n";

// The boot makes 3 calls, the creation 12, the volume 6, the write 2, the read 1, and each of the six replies one: so
// none is left for the line.
#[test]
fn does_nothing_of_what_is_not_built(rt: HostRuntime) -> Result<(), Fail> {
    for line in UNBUILT {
        let text = format!(in rt.alloc(); "{BEFORE}{line}\n{BEHIND}")?;
        let mut source = MemSource::new(text.into_bytes());
        let found = status_of(rt.alloc(), &mut source, 30, TOLD.as_bytes())?;
        assert!(rt; found == Some(RunStatus::SomeRefused), "{line} {found:?}");
    }
    Ok(())
}
