// Volumes of several stripes on five drives, beside the plain program of `stripes`.
use crate::life::{drawn, next};
use crate::story::Story;
use crate::stripes::{DRIVES, Stripe, Value, Volume, Writing, attaching, making};
use mdv_run_law::RunStatus;
use std::alloc::{AllocError, Global};
use std::process::Abort;
use std::test::Fail;

const CREATION: &str = "metadb -a -f -l 16 c0t0d0s7 c0t1d0s7 c0t2d0s7\n";

// As many blocks as the drives have.
const BLOCKS: u64 = 680;

// Of each block what was on the disk, or one of the values that were written since.
const CHOICES: &[&[u32]] = &[
    &[],
    &[1; BLOCKS as usize],
    &[0, 1, 0, 0, 1, 1, 0, 1, 1, 1, 0, 0, 0, 1],
];

// Two units of each of two slices, and all of a third one: 64 blocks and 35. The line in work begins within a unit and ends
// in the second stripe, so it lies in five pieces on three drives.
const LINE: Writing = Writing {
    at: 12,
    count: 60,
    value: Value::All(0xd5),
};

const PIECES: u64 = 5;

const LINE_DRIVES: &[u32] = &[0, 1, 3];

fn stripes_of(alloc: Global) -> Result<[Stripe; 2], AllocError> {
    Ok([
        Stripe::on(alloc, &[0, 2], 16)?,
        Stripe::on(alloc, &[6], 32)?,
    ])
}

// Drives with the volume d0 of these stripes, whose blocks hold what they held before. None where it wasn't made.
fn begun(
    alloc: Global,
    stripes: &[Stripe],
    lost: Option<(u32, u64)>,
) -> Result<Option<(Story, Volume)>, Fail> {
    let mut story = Story::new(alloc, DRIVES.0, DRIVES.1)?;
    let volume = Volume::of(alloc, stripes)?;
    volume.lay(&mut story)?;
    if let Some((drive, call)) = lost {
        story.lose_at(drive, call)?;
    }
    let mut script = String::from_str(alloc, CREATION)?;
    script.push_str(making(alloc, stripes)?.as_str())?;
    story.run("alpha", script.as_str())?;
    if story.news()?.as_str() == "ok\nok\n" {
        Ok(Some((story, volume)))
    } else {
        Ok(None)
    }
}

// Whether a read of all blocks tells what they hold.
fn reads_all(alloc: Global, story: &mut Story, volume: &Volume) -> Result<bool, Fail> {
    let count = volume.blocks();
    let script = format!(in alloc; "read d0 0 {count}\n")?;
    let status = story.run("alpha", script.as_str())?;
    let told = story.news()?;
    let want = volume.told(alloc)?;
    Ok(status == RunStatus::Done && told.as_str() == want.as_str())
}

// A run of the line, and then a crash that leaves what the choice picks: whether the line was told `ok`, and whether each block holds
// what it may, is read so by the next run, and holds it behind another crash.
fn is_kept(
    alloc: Global,
    story: &mut Story,
    volume: &mut Volume,
    writing: &Writing,
    choice: &[u32],
    lost: Option<u32>,
) -> Result<(bool, bool), Fail> {
    story.run("alpha", writing.line(alloc)?.as_str())?;
    let whole = story.news()?.as_str() == "ok\n";
    story.shelf.crash(choice);
    if let Some(drive) = lost {
        story.bring_back(&[drive])?;
    }
    if whole {
        volume.write(writing);
    }
    let open = if whole { None } else { Some(writing) };
    let kept = volume.first_wrong(story, open)?.is_none() && reads_all(alloc, story, volume)?;
    story.shelf.crash(choice);
    Ok((whole, kept && volume.first_wrong(story, None)?.is_none()))
}

// The least number of calls behind which the run may be stopped that tells this.
fn least_calls(alloc: Global, line: &str, told: &str) -> Result<u64, Fail> {
    for calls in 0..200 {
        let stripes = stripes_of(alloc)?;
        let (mut story, _) = begun(alloc, &stripes, None)?.ok_or("no volume")?;
        story.shelf.stop_after(calls);
        story.run("alpha", line)?;
        if story.news()?.as_str() == told {
            return Ok(calls);
        }
    }
    Err(Fail::from("a line that isn't answered"))
}

#[test]
fn a_fill_makes_a_call_for_each_piece_and_each_drive(rt: HostRuntime) -> Result<(), Fail> {
    let filled = least_calls(rt.alloc(), LINE.line(rt.alloc())?.as_str(), "ok\n")?;
    let refused = least_calls(rt.alloc(), "fill d0 99 1 ab\n", "refused E22 OutOfRange\n")?;
    assert!(rt;
        filled == refused.saturating_add(PIECES).saturating_add(3),
        "{filled} {refused}"
    );
    Ok(())
}

#[test]
fn a_fill_is_stopped_at_each_call(rt: HostRuntime) -> Result<(), Fail> {
    let most = least_calls(rt.alloc(), LINE.line(rt.alloc())?.as_str(), "ok\n")?;
    for calls in 0..201 {
        for choice in CHOICES {
            let stripes = stripes_of(rt.alloc())?;
            let (mut story, mut volume) = begun(rt.alloc(), &stripes, None)?.ok_or("no volume")?;
            story.shelf.stop_after(calls);
            let (whole, kept) = is_kept(rt.alloc(), &mut story, &mut volume, &LINE, choice, None)?;
            assert!(rt; kept && whole == (calls >= most), "{calls} {choice:?}");
        }
        if calls > most {
            return Ok(());
        }
    }
    Err(Fail::from("a line that isn't answered"))
}

// The drive is lost from that call on; whether the line was told `ok`.
fn lose_at<R: Abort + AllocGlobal>(rt: &R, drive: u32, call: u64) -> Result<bool, Fail> {
    let choice = CHOICES.get((call % 3) as usize).copied().unwrap_or(&[]);
    let stripes = stripes_of(rt.alloc())?;
    let Some((mut story, mut volume)) = begun(rt.alloc(), &stripes, Some((drive, call)))? else {
        return Ok(false);
    };
    let (whole, kept) = is_kept(
        rt.alloc(),
        &mut story,
        &mut volume,
        &LINE,
        choice,
        Some(drive),
    )?;
    assert!(rt; kept, "{drive} {call} {choice:?}");
    Ok(whole)
}

#[test]
fn a_drive_is_lost_at_each_call_of_a_fill(rt: HostRuntime) -> Result<(), Fail> {
    for drive in LINE_DRIVES {
        let mut is_told = false;
        for call in 0..400 {
            if !is_told {
                is_told = lose_at(&rt, *drive, call)?;
            }
        }
        assert!(rt; is_told, "{drive}");
    }
    Ok(())
}

// Blocks of the first stripe of two, which are written before the second one is added.
const FRONT: Writing = Writing {
    at: 12,
    count: 40,
    value: Value::All(0xb7),
};

// A run adds the second stripe, and is stopped behind so many calls, and then crashes: whether the line was told `ok`, and whether the volume
// is read with both stripes, or, where it wasn't told, with the first one alone.
fn attach(alloc: Global, calls: u64, choice: &[u32]) -> Result<(bool, bool), Fail> {
    let stripes = stripes_of(alloc)?;
    let first = stripes.get(..1).ok_or("no stripe")?;
    let second = stripes.get(1).ok_or("no stripe")?;
    let (mut story, mut volume) = begun(alloc, first, None)?.ok_or("no volume")?;
    volume.longer(alloc, &stripes)?.lay(&mut story)?;
    story.run("alpha", FRONT.line(alloc)?.as_str())?;
    story.news()?;
    volume.write(&FRONT);
    story.shelf.stop_after(calls);
    story.run("alpha", attaching(alloc, second)?.as_str())?;
    let whole = story.news()?.as_str() == "ok\n";
    story.shelf.crash(choice);
    let mut longer = volume.longer(alloc, &stripes)?;
    let is_long = reads_all(alloc, &mut story, &longer)?;
    let kept = is_long || (!whole && reads_all(alloc, &mut story, &volume)?);
    Ok((
        whole,
        kept && longer.first_wrong(&mut story, None)?.is_none(),
    ))
}

#[test]
fn a_metattach_is_stopped_at_each_call(rt: HostRuntime) -> Result<(), Fail> {
    for calls in 0..201 {
        let mut is_told = true;
        for choice in CHOICES {
            let (whole, kept) = attach(rt.alloc(), calls, choice)?;
            assert!(rt; kept, "{calls} {choice:?}");
            is_told = is_told && whole;
        }
        if is_told {
            return Ok(());
        }
    }
    Err(Fail::from("a line that isn't answered"))
}

// The volume of both stripes, as it is printed, and where it is gone.
const THERE: &str = "d0 2 2 c0t0d0s0 c0t1d0s0 -i 16b 1 c0t3d0s0\nok\n";

const GONE: &str = "ok\n";

// Whether a run with these drives away finds the volume gone; none where it finds something else.
fn finds_gone(story: &mut Story, away: &[u32]) -> Result<Option<bool>, Fail> {
    story.lose(away)?;
    story.run("alpha", "metastat -p\n")?;
    let told = story.news()?;
    story.bring_back(away)?;
    Ok(if told.as_str() == GONE {
        Some(true)
    } else if told.as_str() == THERE {
        Some(false)
    } else {
        None
    })
}

// The volume of both stripes, with blocks that were written.
fn written(alloc: Global) -> Result<(Story, Volume), Fail> {
    let stripes = stripes_of(alloc)?;
    let (mut story, mut volume) = begun(alloc, &stripes, None)?.ok_or("no volume")?;
    story.run("alpha", FRONT.line(alloc)?.as_str())?;
    story.news()?;
    volume.write(&FRONT);
    Ok((story, volume))
}

// Whether a run with these drives away finds the volume gone, or, where that wasn't told, there and as it was, and the next one too, with all drives;
// and no block is touched.
fn is_gone_or_as_it_was(
    alloc: Global,
    story: &mut Story,
    volume: &mut Volume,
    is_told: bool,
    away: &[u32],
) -> Result<bool, Fail> {
    let found = finds_gone(story, away)?;
    let is_so = match found {
        Some(true) => true,
        Some(false) => !is_told && reads_all(alloc, story, volume)?,
        None => false,
    };
    let is_settled = finds_gone(story, &[])? == found;
    Ok(is_so && is_settled && volume.first_wrong(story, None)?.is_none())
}

// A run clears the volume, and is stopped behind so many calls, and then crashes: whether the line was told `ok`, and whether runs behind that, of
// which the first has these drives away, find what they may.
fn clear(alloc: Global, calls: u64, choice: &[u32], away: &[u32]) -> Result<(bool, bool), Fail> {
    let (mut story, mut volume) = written(alloc)?;
    story.shelf.stop_after(calls);
    story.run("alpha", "metaclear d0\n")?;
    let whole = story.news()?.as_str() == "ok\n";
    story.shelf.crash(choice);
    let kept = is_gone_or_as_it_was(alloc, &mut story, &mut volume, whole, away)?;
    Ok((whole, kept))
}

// The drives that are away behind the crash: none, or one with a replica.
const AWAY: &[&[u32]] = &[&[], &[0], &[1], &[2]];

#[test]
fn a_metaclear_is_stopped_at_each_call(rt: HostRuntime) -> Result<(), Fail> {
    for calls in 0..201 {
        let mut is_told = true;
        for choice in CHOICES {
            for away in AWAY {
                let (whole, kept) = clear(rt.alloc(), calls, choice, away)?;
                assert!(rt; kept, "{calls} {choice:?} {away:?}");
                is_told = is_told && whole;
            }
        }
        if is_told {
            return Ok(());
        }
    }
    Err(Fail::from("a line that isn't answered"))
}

// Three drives, of which one has two slices for volumes.
const LONG: (&str, &[u64]) = (
    "host alpha
drive c0t0d0 2038 alpha d0.img
drive c0t1d0 1000 alpha d1.img
drive c0t2d0 1000 alpha d2.img
slice c0t0d0s0 0 1000
slice c0t0d0s1 1000 990
slice c0t0d0s7 1990 48 db
slice c0t1d0s1 5 990
slice c0t2d0s0 0 1000
",
    &[2038, 1000, 1000],
);

// A slice and a stripe behind it: 1000 blocks and 61 units of each of its slices. Block 1016 is the first one of c0t1d0s1.
const LONGER: &str = "metadb -a -f -l 16 c0t0d0s7
metainit d1 2 1 c0t0d0s0 2 c0t0d0s1 c0t1d0s1 -i 16b
write d1 1016 ab
read d1 2951 1
read d1 2952 1
metattach d1 c0t2d0s0
metastat -p d1
read d1 3951 1
read d1 3952 1
read d1 1016 1
";

const LONGER_TOLD: &str = "ok
ok
ok
2951 -
ok
refused E22 OutOfRange
ok
d1 3 1 c0t0d0s0 2 c0t0d0s1 c0t1d0s1 -i 16b 1 c0t2d0s0
ok
3951 -
ok
refused E22 OutOfRange
1016 ab
ok
";

#[test]
fn a_volume_gets_longer(rt: HostRuntime) -> Result<(), Fail> {
    let mut story = Story::new(rt.alloc(), LONG.0, LONG.1)?;
    story.run("alpha", LONGER)?;
    let told = story.news()?;
    assert!(rt; told.as_str() == LONGER_TOLD, "{told:?}");
    assert!(rt; story.has_block(1, 5, &[0xab])?);
    Ok(())
}

// A drawn life's state, and what it draws from.
#[derive(Drop)]
struct Draw {
    alloc: Global,
    state: u64,
}

impl Draw {
    // A number below that one, which is at most 2^16.
    fn below(&mut self, bound: u64) -> u64 {
        self.state = next(self.state);
        let top = self.state >> 33;
        match top.checked_rem(bound) {
            Some(rest) => rest,
            None => 0,
        }
    }

    // A stripe on so many of the slices, from that one on, each third one.
    fn stripe(&mut self, first: u64, width: u64) -> Result<Stripe, AllocError> {
        let mut numbers = Vec::new(self.alloc);
        for place in first..first.saturating_add(width) {
            numbers.push((place.wrapping_mul(3) % 10) as usize)?;
        }
        let interlace = self.below(17).saturating_add(16);
        Stripe::on(self.alloc, numbers.as_slice(), interlace)
    }

    // One to three stripes on one to three slices each.
    fn stripes(&mut self) -> Result<Vec<Stripe>, AllocError> {
        let mut stripes = Vec::new(self.alloc);
        let mut first = self.below(10);
        for _ in 0..self.below(3).saturating_add(1) {
            let width = self.below(3).saturating_add(1);
            stripes.push(self.stripe(first, width)?)?;
            first = first.saturating_add(width);
        }
        Ok(stripes)
    }

    // A write of a block, or a fill.
    fn writing(&mut self, blocks: u64) -> Writing {
        let at = self.below(blocks);
        let byte = ((self.below(255) % 255) as u8).saturating_add(1);
        let room = blocks.saturating_sub(at);
        match self.below(3) {
            0 => Writing {
                at,
                count: 1,
                value: Value::Front(byte),
            },
            _ => Writing {
                at,
                count: self.below(room).saturating_add(1),
                value: Value::All(byte),
            },
        }
    }
}

// A drawn run: it is stopped, or has a drive away, or neither.
fn drawn_run<R: Abort + AllocGlobal>(
    rt: &R,
    draw: &mut Draw,
    story: &mut Story,
    volume: &mut Volume,
) -> Result<(), Fail> {
    let writing = draw.writing(volume.blocks());
    let choice = drawn(draw.alloc, draw.state, BLOCKS)?;
    let mut lost = None;
    match draw.below(4) {
        0 => {
            let drive = (draw.below(5) % 5) as u32;
            story.lose(&[drive])?;
            lost = Some(drive);
        }
        1 => {}
        _ => story.shelf.stop_after(draw.below(60).saturating_add(30)),
    }
    let (_, kept) = is_kept(draw.alloc, story, volume, &writing, choice.as_slice(), lost)?;
    assert!(rt; kept, "{writing:?} {lost:?}");
    Ok(())
}

#[test]
fn drawn_stripes(rt: HostRuntime) -> Result<(), Fail> {
    for seed in 0..40 {
        let mut draw = Draw {
            alloc: rt.alloc(),
            state: next(seed),
        };
        let stripes = draw.stripes()?;
        let (mut story, mut volume) = begun(rt.alloc(), stripes.as_slice(), None)?.ok_or(
            "no volume",
        )?;
        for _ in 0..8 {
            drawn_run(&rt, &mut draw, &mut story, &mut volume)?;
        }
    }
    Ok(())
}
