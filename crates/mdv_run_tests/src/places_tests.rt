// Databases on several slices: with drives that are away or lost, with changes that stop half-way, and with replicas of two databases.
use crate::ground::PLACES;
use crate::story::Story;
use mdv_base::{Block, DriveNo, Identity, ZERO_BLOCK};
use mdv_run_law::RunStatus;
use mdv_shelf::Shelf;
use std::process::Abort;
use std::test::Fail;

// What happens to the drives.
#[derive(Clone, Copy)]
enum Step {
    /// A run of the script by alpha ends so, and tells this.
    Run(&'static str, RunStatus, &'static str),
    /// These drives are lost.
    Lose(&'static [u32]),
    /// The drive is lost from the call of that number on, counted from the first run's start.
    LoseAt(u32, u64),
    /// These drives are back.
    Back(&'static [u32]),
    /// So many calls pass.
    Stop(u64),
    /// A crash leaves of each block what is on the disk.
    Crash,
    /// The block of the drive holds these bytes, and zeros behind them.
    Block(u32, u64, &'static [u8]),
}

const MADE: &str = "metadb -a -f -l 16 c0t0d0s7 c0t1d0s7 c0t2d0s7\n";

const MADE_AND_CHANGED: &str =
    "metadb -a -f -l 16 c0t0d0s7 c0t1d0s7 c0t2d0s7\nmetainit d10 1 1 c0t0d0s0\n";

const SIX_AND_CHANGED: &str =
    "metadb -a -f -c 3 -l 16 c0t0d0s7 c0t1d0s7\nmetainit d10 1 1 c0t0d0s0\n";

const PAIR_AND_CHANGED: &str = "metadb -a -f -l 16 c0t0d0s7 c0t1d0s7\nmetainit d10 1 1 c0t0d0s0\n";

const WITH_VOLUME: &str = "d10 1 1 c0t0d0s0\nok\n";

const ONE_OF_TWO: RunStatus = RunStatus::NoQuorum {
    readable: 1,
    needed: 2,
};

const THREE_OF_SIX: RunStatus = RunStatus::NoQuorum {
    readable: 3,
    needed: 4,
};

const ONE_LEFT: RunStatus = RunStatus::Panic {
    active: 1,
    listed: 3,
};

// More than half of the three places have to be read. With one drive lost a boot takes the database; with two it doesn't; with all it does again.
const MISSING: &[Step] = &[
    Step::Run(MADE, RunStatus::Done, "ok\n"),
    Step::Lose(&[1]),
    Step::Run(
        "metainit d10 1 1 c0t0d0s0\nmetastat -p\n",
        RunStatus::Done,
        "ok\nd10 1 1 c0t0d0s0\nok\n",
    ),
    Step::Lose(&[0]),
    Step::Run("metastat -p\n", ONE_OF_TWO, ""),
    Step::Back(&[0, 1]),
    Step::Run("metastat -p\n", RunStatus::Done, WITH_VOLUME),
];

// The run's boot makes nine calls on the blank drives, two for each and one for each slice; the creation makes twelve for each place, and its reply
// one; and the change six for each place: with the sixth the first place has the new table.
const TO_FIRST_GATE: u64 = 52;

const HALF_WAY: &[Step] = &[
    Step::Stop(TO_FIRST_GATE),
    Step::Run(MADE_AND_CHANGED, ONE_LEFT, "ok\n"),
    Step::Crash,
];

// The other two places settle that the change wasn't made, and it stays so.
const WITHOUT_THE_FIRST: &[Step] = &[
    Step::Lose(&[0]),
    Step::Run("metastat -p\n", RunStatus::Done, "ok\n"),
    Step::Back(&[0]),
    Step::Run("metastat -p\n", RunStatus::Done, "ok\n"),
    Step::Lose(&[2]),
    Step::Run("metastat -p\n", RunStatus::Done, "ok\n"),
];

// The first place settles that it was, with one more or both, and it stays so.
const WITH_THE_FIRST: &[Step] = &[
    Step::Lose(&[2]),
    Step::Run("metastat -p\n", RunStatus::Done, WITH_VOLUME),
    Step::Back(&[2]),
    Step::Lose(&[0]),
    Step::Run("metastat -p\n", RunStatus::Done, WITH_VOLUME),
    Step::Lose(&[1]),
    Step::Run("metastat -p\n", ONE_OF_TWO, ""),
    Step::Back(&[0, 1]),
    Step::Run("metastat -p\n", RunStatus::Done, WITH_VOLUME),
];

// A run's boot makes twelve calls where each of the three places shows one table, and then two for the claim of each: with these the first one is claimed.
const TO_FIRST_CLAIM: u64 = 14;

const CLAIM_TWO: &[u8] = b"MDVCLAIM\0\0\0\0\0\0\0\x02";

const CLAIM_THREE: &[u8] = b"MDVCLAIM\0\0\0\0\0\0\0\x03";

// The gates of the table with the volume, under the mark (2, 1), and under (3, 0).
const CHANGED_GATE: &[u8] = b"MDVGATE1\x01\0\0\0\0\0\0\0\x02\0\0\0\0\0\0\0\x01\0\0\0\x6e";

const ADOPTED_GATE: &[u8] = b"MDVGATE1\x01\0\0\0\0\0\0\0\x03\0\0\0\0\0\0\0\0\0\0\0\x6e";

// A boot stops behind its first claim. The next one, without that place, draws the same number, and its change is found by the one behind, which draws a
// greater one. The replica of a drive begins at block 32: its claim is the block behind, and the gates are the next two.
const ONE_CLAIM: &[Step] = &[
    Step::Run(MADE, RunStatus::Done, "ok\n"),
    Step::Stop(TO_FIRST_CLAIM),
    Step::Run("", ONE_LEFT, ""),
    Step::Crash,
    Step::Block(0, 33, CLAIM_TWO),
    Step::Lose(&[0]),
    Step::Run("metainit d10 1 1 c0t0d0s0\n", RunStatus::Done, "ok\n"),
    Step::Block(1, 33, CLAIM_TWO),
    Step::Block(1, 34, CHANGED_GATE),
    Step::Block(2, 34, CHANGED_GATE),
    Step::Back(&[0]),
    Step::Run("metastat -p\n", RunStatus::Done, WITH_VOLUME),
    Step::Block(0, 33, CLAIM_THREE),
    Step::Block(0, 35, ADOPTED_GATE),
    Step::Block(1, 33, CLAIM_THREE),
    Step::Block(1, 35, ADOPTED_GATE),
    Step::Block(2, 33, CLAIM_THREE),
    Step::Block(2, 35, ADOPTED_GATE),
];

// Behind the creation's reply. Where a slice gets several places, each one's master is blanked before, which takes two calls.
const BEHIND_THREE: u64 = 46;

const BEHIND_TWO: u64 = 34;

const BEHIND_SIX: u64 = 94;

// Two of three drives are lost between two lines.
const TOO_FEW: &[Step] = &[
    Step::LoseAt(1, BEHIND_THREE),
    Step::LoseAt(2, BEHIND_THREE),
    Step::Run(MADE_AND_CHANGED, ONE_LEFT, "ok\n"),
];

// Half of the places are enough for a change, and not for a boot.
const JUST_HALF: &[Step] = &[
    Step::LoseAt(1, BEHIND_TWO),
    Step::Run(PAIR_AND_CHANGED, RunStatus::Done, "ok\nok\n"),
    Step::Run("metastat -p\n", ONE_OF_TWO, ""),
    Step::Back(&[1]),
    Step::Run("metastat -p\n", RunStatus::Done, WITH_VOLUME),
];

// So it is with three on each of two slices; and when the other drive is back all six count, of which three have the older table.
const HALF_OF_SIX: &[Step] = &[
    Step::LoseAt(1, BEHIND_SIX),
    Step::Run(SIX_AND_CHANGED, RunStatus::Done, "ok\nok\n"),
    Step::Run("metastat -p\n", THREE_OF_SIX, ""),
    Step::Back(&[1]),
    Step::Run("metastat -p\n", RunStatus::Done, WITH_VOLUME),
    Step::Lose(&[0]),
    Step::Run("metastat -p\n", THREE_OF_SIX, ""),
];

fn apply<R: Abort + AllocGlobal>(rt: &R, story: &mut Story, step: &Step) -> Result<(), Fail> {
    match step {
        Step::Run(script, end, told) => {
            let status = story.run("alpha", script)?;
            let news = story.news()?;
            assert_eq!(rt; news.as_str(), *told, "{script}");
            assert_eq!(rt; status, *end, "{script}");
        }
        Step::Lose(drives) => story.lose(drives)?,
        Step::LoseAt(drive, call) => story.lose_at(*drive, *call)?,
        Step::Back(drives) => story.bring_back(drives)?,
        Step::Stop(calls) => story.shelf.stop_after(*calls),
        Step::Crash => story.shelf.crash(&[]),
        Step::Block(drive, at, text) => {
            assert!(rt; story.has_block(*drive, *at, text)?, "{drive} {at}");
        }
    }
    Ok(())
}

fn expect<R: Abort + AllocGlobal>(rt: &R, story: &mut Story, steps: &[Step]) -> Result<(), Fail> {
    for step in steps {
        apply(rt, story, step)?;
    }
    Ok(())
}

fn begin<R: Abort + AllocGlobal>(rt: &R) -> Result<Story, Fail> {
    Ok(Story::new(rt.alloc(), PLACES.0, PLACES.1)?)
}

#[test]
fn boots_with_more_than_half(rt: HostRuntime) -> Result<(), Fail> {
    expect(&rt, &mut begin(&rt)?, MISSING)
}

#[test]
fn a_change_that_stops_half_way_is_settled_once(rt: HostRuntime) -> Result<(), Fail> {
    for behind in [WITHOUT_THE_FIRST, WITH_THE_FIRST] {
        let mut story = begin(&rt)?;
        expect(&rt, &mut story, HALF_WAY)?;
        expect(&rt, &mut story, behind)?;
    }
    Ok(())
}

#[test]
fn a_number_is_drawn_again(rt: HostRuntime) -> Result<(), Fail> {
    expect(&rt, &mut begin(&rt)?, ONE_CLAIM)
}

#[test]
fn goes_on_with_half(rt: HostRuntime) -> Result<(), Fail> {
    for steps in [TOO_FEW, JUST_HALF, HALF_OF_SIX] {
        expect(&rt, &mut begin(&rt)?, steps)?;
    }
    Ok(())
}

fn block_at(story: &mut Story, drive: u32, at: u64) -> Result<Block, Fail> {
    let mut out = [ZERO_BLOCK];
    if drive >= story.shelf.drives()
        || at >= story.shelf.blocks(DriveNo(drive))
        || story.shelf.read(DriveNo(drive), at, &mut out).is_err()
    {
        return Err(Fail::from("a failed read"));
    }
    Ok(out[0])
}

// The last drive gets the blocks of the other one's.
fn put_drive(story: &mut Story, other: &mut Story) -> Result<(), Fail> {
    for at in 0..PLACES.1[2] {
        let block = block_at(other, 2, at)?;
        story.put(2, at, &block)?;
    }
    Ok(())
}

// Whether the last drive of both has the same blocks.
fn are_same(story: &mut Story, other: &mut Story) -> Result<bool, Fail> {
    for at in 0..PLACES.1[2] {
        if block_at(story, 2, at)? != block_at(other, 2, at)? {
            return Ok(false);
        }
    }
    Ok(true)
}

// The database, and two of its drives lost.
fn begin_alone<R: Abort + AllocGlobal>(rt: &R) -> Result<Story, Fail> {
    let mut story = begin(rt)?;
    let steps = [
        Step::Run(MADE, RunStatus::Done, "ok\n"),
        Step::Lose(&[0, 1]),
    ];
    expect(rt, &mut story, &steps)?;
    Ok(story)
}

fn expect_same<R: Abort + AllocGlobal>(
    rt: &R,
    story: &mut Story,
    other: &mut Story,
) -> Result<(), Fail> {
    let is_same = are_same(story, other)?;
    assert!(rt; is_same);
    Ok(())
}

fn expect_no_write<R: Abort + AllocGlobal>(
    rt: &R,
    story: &mut Story,
    other: &mut Story,
) -> Result<(), Fail> {
    expect(rt, story, &[Step::Run("boot\n", ONE_OF_TWO, "")])?;
    expect_same(rt, story, other)
}

// A boot that finds too few places writes nothing.
#[test]
fn a_boot_without_quorum_leaves_the_drives(rt: HostRuntime) -> Result<(), Fail> {
    let mut story = begin_alone(&rt)?;
    let mut other = begin_alone(&rt)?;
    expect_no_write(&rt, &mut story, &mut other)
}

const FIRST: Identity = Identity {
    fresh: 0x0203_0405_0607_0800,
    number: 0,
};

const SECOND: Identity = Identity {
    fresh: 0x0203_0405_0607_0801,
    number: 0,
};

const MIXED: RunStatus = RunStatus::TwoDatabases {
    a: FIRST,
    b: SECOND,
};

// The second one's database is of its second run, so of another identity.
const LATER: &[Step] = &[
    Step::Run("", RunStatus::Done, ""),
    Step::Run(MADE, RunStatus::Done, "ok\n"),
];

const EXCHANGED: &[Step] = &[
    Step::Run("boot\n", MIXED, ""),
    Step::Lose(&[2]),
    Step::Run("boot\n", RunStatus::Done, "ok\n"),
];

fn expect_two<R: Abort + AllocGlobal>(
    rt: &R,
    story: &mut Story,
    other: &mut Story,
) -> Result<(), Fail> {
    expect(rt, story, &[Step::Run(MADE, RunStatus::Done, "ok\n")])?;
    expect(rt, other, LATER)?;
    put_drive(story, other)?;
    expect(rt, story, EXCHANGED)
}

// Two hosts of one name made a database each, on drives of their own, of which the last ones are exchanged.
#[test]
fn tells_of_two_databases(rt: HostRuntime) -> Result<(), Fail> {
    let mut story = begin(&rt)?;
    let mut other = begin(&rt)?;
    expect_two(&rt, &mut story, &mut other)?;
    assert_eq!(rt; MIXED.number(), 8);
    Ok(())
}

// Drives of the same names, which are another host's.
const OTHERS: &str = "host beta
drive c0t0d0 80 beta d0.img
drive c0t1d0 80 beta d1.img
drive c0t2d0 80 beta d2.img
slice c0t0d0s7 16 64 db
slice c0t1d0s7 16 64 db
slice c0t2d0s7 16 64 db
";

// Behind an exchange of the last drive, the replica there is of another host, and of the same identity.
const BESIDE_ANOTHER: &[Step] = &[
    Step::Run("metainit d10 1 1 c0t0d0s0\n", RunStatus::Done, "ok\n"),
    Step::Lose(&[1]),
    Step::Run("metastat -p\n", ONE_OF_TWO, ""),
    Step::Back(&[1]),
    Step::Run("metastat -p\n", RunStatus::Done, WITH_VOLUME),
];

fn expect_beside<R: Abort + AllocGlobal>(
    rt: &R,
    story: &mut Story,
    other: &mut Story,
) -> Result<(), Fail> {
    expect(rt, story, &[Step::Run(MADE, RunStatus::Done, "ok\n")])?;
    let end = other.run("beta", MADE)?;
    assert_eq!(rt; end, RunStatus::Done);
    put_drive(story, other)?;
    expect(rt, story, BESIDE_ANOTHER)?;
    expect_same(rt, story, other)
}

// It doesn't count, as if its drive were lost, and isn't written.
#[test]
fn passes_over_replicas_of_another_host(rt: HostRuntime) -> Result<(), Fail> {
    let mut story = begin(&rt)?;
    let mut other = Story::new(rt.alloc(), OTHERS, PLACES.1)?;
    expect_beside(&rt, &mut story, &mut other)
}

// Slices of each kind: one that has many blocks, two that overlap, and one of another host.
const SLICES: &str = "host alpha
host beta
drive c0t0d0 40000 alpha d0.img
drive c0t1d0 1000 alpha d1.img
drive c0t2d0 1000 alpha d2.img
drive c1t0d0 64 beta b0.img
slice c0t0d0s0 0 1000
slice c0t0d0s7 12000 28000 db
slice c0t1d0s5 0 100 db
slice c0t1d0s6 90 100 db
slice c0t1d0s7 200 800 db
slice c0t2d0s6 0 200 db
slice c0t2d0s7 200 800 db
slice c1t0d0s7 16 40 db
";

const SLICES_BLOCKS: &[u64] = &[40000, 1000, 1000, 64];

// A creation, or places that are added once there is a database, and why it is refused.
const REFUSALS: &[(&str, &str)] = &[
    ("-l 16 c0t1d0s7 c0t2d0s7", "refused E3 NeedForce\n"),
    ("-f -l 16 c0t1d0s7 c1t0d0s7", "refused E6 NoSuchSlice\n"),
    ("-f -l 16 c0t1d0s7 c0t1d0s4", "refused E6 NoSuchSlice\n"),
    ("-f -l 16 c0t0d0s0 c0t1d0s7", "refused E12 WrongKind\n"),
    (
        "-f -l 16 c0t1d0s7 c0t2d0s7 c0t1d0s7",
        "refused E7 SliceInUse\n",
    ),
    ("-f -l 16 c0t2d0s7 c0t1d0s6", "refused E7 SliceInUse\n"),
    ("-f c0t0d0s7 c0t1d0s7", "refused E10 TooSmall\n"),
    ("-f -c 4 c0t0d0s7", "refused E10 TooSmall\n"),
    (
        "-f -c 17 -l 16 c0t0d0s7 c0t1d0s7 c0t2d0s7",
        "refused E9 TooMany\n",
    ),
    ("-f -c 2 -l 16 c0t1d0s7 c0t2d0s7", "ok\n"),
    ("-l 16 c0t1d0s7", "refused E7 SliceInUse\n"),
    ("-l 16 c0t0d0s7 c0t0d0s7", "refused E7 SliceInUse\n"),
    ("-c 47 -l 16 c0t0d0s7", "refused E9 TooMany\n"),
    ("-l 16 c0t0d0s0", "refused E12 WrongKind\n"),
    ("-c 4 c0t0d0s7", "refused E10 TooSmall\n"),
    ("-c 46 -l 16 c0t0d0s7", "ok\n"),
    ("-l 16 c0t0d0s7", "refused E9 TooMany\n"),
];

#[test]
fn refuses_creations_on_slices(rt: HostRuntime) -> Result<(), Fail> {
    let (mut script, mut told) = (String::new(rt.alloc()), String::new(rt.alloc()));
    for (rest, reply) in REFUSALS {
        script.push_str(format!(in rt.alloc(); "metadb -a {rest}\n")?.as_str())?;
        told.push_str(reply)?;
    }
    let mut story = Story::new(rt.alloc(), SLICES, SLICES_BLOCKS)?;
    let status = story.run("alpha", script.as_str())?;
    let news = story.news()?;
    assert_eq!(rt; news.as_str(), told.as_str());
    assert_eq!(rt; status, RunStatus::SomeRefused);
    Ok(())
}
