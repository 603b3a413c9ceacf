// Tables of more than one block, of which a crash leaves some.
use crate::story::{Act, Story, expect_act};
use std::alloc::{AllocError, Global};
use std::process::Abort;
use std::test::Fail;

const TABLE: &str = "host alpha
drive c0t0d0 64 alpha d0.img
drive c0t1d0 8240 alpha d1.img
drive c0t2d0 64 alpha d2.img
slice c0t0d0s0 0 8
slice c0t0d0s1 8 8
slice c0t0d0s2 16 8
slice c0t0d0s3 24 8
slice c0t0d0s4 32 8
slice c0t0d0s5 40 8
slice c0t0d0s6 48 8
slice c0t0d0s7 56 8
slice c0t1d0s7 16 8208 db
slice c0t2d0s0 0 8
slice c0t2d0s1 8 8
slice c0t2d0s2 16 8
slice c0t2d0s3 24 8
";

const SIZES: &[u64] = &[64, 8240, 64];

// Eleven volumes on two drives, whose record has 586 bytes.
const MADE: Act = Act(
    &[],
    "alpha",
    "metadb -a -f c0t1d0s7
metainit d0 1 1 c0t0d0s0
metainit d1 1 1 c0t0d0s1
metainit d2 1 1 c0t0d0s2
metainit d3 1 1 c0t0d0s3
metainit d4 1 1 c0t0d0s4
metainit d5 1 1 c0t0d0s5
metainit d6 1 1 c0t0d0s6
metainit d7 1 1 c0t0d0s7
metainit d8 1 1 c0t2d0s0
metainit d9 1 1 c0t2d0s1
metainit d10 1 1 c0t2d0s2
write d0 7 a0
write d10 0 aa
",
    "ok\nok\nok\nok\nok\nok\nok\nok\nok\nok\nok\nok\nok\nok\n",
);

const LOOKS: &str = "read d0 7 1\nread d7 0 1\nread d10 0 1\nread d11 0 1\nmetadb -a -f c0t1d0s7\n";

const WITHOUT: &str =
    "7 a0\nok\n0 -\nok\n0 aa\nok\nrefused E4 NoSuchVolume\nrefused E7 SliceInUse\n";

const WITH: &str = "7 a0\nok\n0 -\nok\n0 aa\nok\n0 -\nok\nrefused E7 SliceInUse\n";

// Of the blocks with even numbers and of those with odd ones this choice, of each.
fn choice(alloc: Global, [even, odd]: [u32; 2]) -> Result<Vec<u32>, AllocError> {
    let mut choice = Vec::new(alloc);
    for _ in 0..4184 {
        choice.push(even)?;
        choice.push(odd)?;
    }
    Ok(choice)
}

// Stops a run that makes one more volume behind so many calls, and crashes. Two boots behind find the volumes of before,
// and both the new one or both not; they find it where its `ok` was told.
fn expect_torn<R: Abort + AllocGlobal>(rt: &R, calls: u64, choice: &[u32]) -> Result<bool, Fail> {
    let mut story = Story::new(rt.alloc(), TABLE, SIZES)?;
    expect_act(rt, &mut story, &MADE)?;
    story.shelf.stop_after(calls);
    let _stopped = story.run("alpha", "metainit d11 1 1 c0t2d0s3\n")?;
    let was_told = !story.news()?.is_empty();
    story.shelf.crash(choice);
    let _looked = story.run("alpha", LOOKS)?;
    let told = story.news()?;
    let is_there = told.as_str() == WITH;
    assert!(rt;
        is_there || (!was_told && told.as_str() == WITHOUT),
        "{calls} {}",
        told.as_str()
    );
    story.shelf.crash(choice);
    let want = if is_there { WITH } else { WITHOUT };
    let again = Act(&[], "alpha", LOOKS, want);
    expect_act(rt, &mut story, &again)?;
    Ok(was_told)
}

// What is on the disk or the newest value, of all blocks or of one kind.
const CHOICES: &[[u32; 2]] = &[[0, 0], [27719, 27719], [0, 27719], [27719, 0]];

// A boot over three drives and two slots makes 17 calls, the change six, and its reply one.
#[test]
fn a_table_of_two_blocks_is_whole_or_not_there(rt: HostRuntime) -> Result<(), Fail> {
    for kind in CHOICES {
        let choice = choice(rt.alloc(), *kind)?;
        for calls in 0..25 {
            let was_told = expect_torn(&rt, calls, &choice)?;
            assert!(rt; was_told == (calls == 24), "{calls}");
        }
    }
    Ok(())
}
