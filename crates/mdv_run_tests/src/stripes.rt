// A volume of several stripes, by a plain program: where each of its blocks lies, and what it holds.
use crate::story::Story;
use std::alloc::{AllocError, Global};
use std::test::Fail;

/// Five drives with two slices for volumes each, three of them with one for replicas, and how many blocks they have.
pub const DRIVES: (&str, &[u64]) = (
    "host alpha
drive c0t0d0 136 alpha d0.img
drive c0t1d0 136 alpha d1.img
drive c0t2d0 136 alpha d2.img
drive c0t3d0 136 alpha d3.img
drive c0t4d0 136 alpha d4.img
slice c0t0d0s0 0 40
slice c0t0d0s1 40 56
slice c0t0d0s7 96 40 db
slice c0t1d0s0 0 48
slice c0t1d0s1 48 33
slice c0t1d0s7 96 40 db
slice c0t2d0s0 0 64
slice c0t2d0s1 64 32
slice c0t2d0s7 96 40 db
slice c0t3d0s0 0 35
slice c0t3d0s1 35 47
slice c0t4d0s0 0 90
slice c0t4d0s1 90 34
",
    &[136; 5],
);

/// A slice for volumes: its drive and its number, its first block, and how many it has.
#[derive(Clone, Copy, Debug)]
pub struct Part(u32, u8, u64, u64);

/// Those of the drives above.
pub const PARTS: &[Part] = &[
    Part(0, 0, 0, 40),
    Part(0, 1, 40, 56),
    Part(1, 0, 0, 48),
    Part(1, 1, 48, 33),
    Part(2, 0, 0, 64),
    Part(2, 1, 64, 32),
    Part(3, 0, 0, 35),
    Part(3, 1, 35, 47),
    Part(4, 0, 0, 90),
    Part(4, 1, 90, 34),
];

/// A stripe on these slices.
#[derive(Debug, Drop)]
pub struct Stripe {
    pub parts: Vec<Part>,
    pub interlace: u64,
}

/// What a block holds: what it held before its volume was made, or what a line wrote: this byte at its front and zeros behind, or
/// this byte everywhere.
#[derive(Clone, Copy, Debug, PartialEq, Eq)]
pub enum Value {
    First,
    Front(u8),
    All(u8),
}

/// Blocks that a line writes, from that one on.
#[derive(Clone, Copy, Debug)]
pub struct Writing {
    pub at: u64,
    pub count: u64,
    pub value: Value,
}

/// The blocks of a volume: on which drive and where each lies, and what it holds.
#[derive(Drop)]
pub struct Volume {
    places: Vec<(u32, u64)>,
    values: Vec<Value>,
}

const DIGITS: [&str; 16] = [
    "0", "1", "2", "3", "4", "5", "6", "7", "8", "9", "a", "b", "c", "d", "e", "f",
];

fn push_byte(text: &mut String, byte: u8) -> Result<(), AllocError> {
    text.push_str(DIGITS.get(usize::from(byte >> 4)).copied().unwrap_or(""))?;
    text.push_str(DIGITS.get(usize::from(byte & 15)).copied().unwrap_or(""))
}

// What a block of a drive holds at first.
fn first_bytes((drive, at): (u32, u64)) -> [u8; 2] {
    [
        ((drive % 128) as u8).wrapping_add(16),
        ((at % 255) as u8).wrapping_add(1),
    ]
}

impl Value {
    fn is_at(self, story: &mut Story, place: (u32, u64)) -> Result<bool, Fail> {
        match self {
            Value::First => story.has_block(place.0, place.1, &first_bytes(place)),
            Value::Front(byte) => story.has_block(place.0, place.1, &[byte]),
            Value::All(byte) => story.has_block(place.0, place.1, &[byte; 512]),
        }
    }

    // As a read tells it. No byte is zero.
    fn push_to(self, text: &mut String, place: (u32, u64)) -> Result<(), AllocError> {
        match self {
            Value::First => {
                let [drive, at] = first_bytes(place);
                push_byte(text, drive)?;
                push_byte(text, at)
            }
            Value::Front(byte) => push_byte(text, byte),
            Value::All(byte) => {
                for _ in 0..512 {
                    push_byte(text, byte)?;
                }
                Ok(())
            }
        }
    }
}

impl Writing {
    /// The line that asks for it.
    pub(crate) fn line(&self, alloc: Global) -> Result<String, AllocError> {
        let Writing { at, count, value } = *self;
        let mut line = match value {
            Value::All(_) => format!(in alloc; "fill d0 {at} {count} ")?,
            _ => format!(in alloc; "write d0 {at} ")?,
        };
        match value {
            Value::First => line.push_str("00")?,
            Value::Front(byte) | Value::All(byte) => push_byte(&mut line, byte)?,
        }
        line.push('\n')?;
        Ok(line)
    }

    // What the block holds then, if it is one of these.
    fn value_at(&self, block: u64) -> Option<Value> {
        if block >= self.at && block < self.at.saturating_add(self.count) {
            Some(self.value)
        } else {
            None
        }
    }
}

// So many blocks of the slice, from its block `from` on.
fn push_run(
    places: &mut Vec<(u32, u64)>,
    part: &Part,
    from: u64,
    count: u64,
) -> Result<(), AllocError> {
    let Part(drive, _, start, _) = *part;
    for block in 0..count {
        places.push((drive, start.saturating_add(from).saturating_add(block)))?;
    }
    Ok(())
}

impl Stripe {
    /// On the slices of these numbers among `PARTS`.
    pub(crate) fn on(
        alloc: Global,
        numbers: &[usize],
        interlace: u64,
    ) -> Result<Stripe, AllocError> {
        let mut parts = Vec::new(alloc);
        for number in numbers {
            if let Some(part) = PARTS.get(*number) {
                parts.push(*part)?;
            }
        }
        Ok(Stripe { parts, interlace })
    }

    fn least(&self) -> u64 {
        let mut least = u64::MAX;
        for part in self.parts.as_slice() {
            least = least.min(part.3);
        }
        least
    }

    // A unit of each slice in turn.
    fn push_units(&self, places: &mut Vec<(u32, u64)>, from: u64) -> Result<(), AllocError> {
        for part in self.parts.as_slice() {
            push_run(places, part, from, self.interlace)?;
        }
        Ok(())
    }

    // A lone slice has all its blocks, and several as many whole units as each has room for.
    fn push_places(&self, places: &mut Vec<(u32, u64)>) -> Result<(), AllocError> {
        if let [part] = self.parts.as_slice() {
            return push_run(places, part, 0, part.3);
        }
        let least = self.least();
        for unit in 0..100 {
            let from = self.interlace.saturating_mul(unit);
            if from.saturating_add(self.interlace) > least {
                return Ok(());
            }
            self.push_units(places, from)?;
        }
        Ok(())
    }

    fn push_words(&self, alloc: Global, line: &mut String) -> Result<(), AllocError> {
        let width = self.parts.len();
        line.push_str(format!(in alloc; " {width}")?.as_str())?;
        self.push_slices(alloc, line)
    }

    // Its slices, and its interlace.
    fn push_slices(&self, alloc: Global, line: &mut String) -> Result<(), AllocError> {
        for Part(drive, slice, _, _) in self.parts.as_slice() {
            line.push_str(format!(in alloc; " c0t{drive}d0s{slice}")?.as_str())?;
        }
        let interlace = self.interlace;
        line.push_str(format!(in alloc; " -i {interlace}b")?.as_str())
    }
}

/// The line that makes d0 of these.
pub(crate) fn making(alloc: Global, stripes: &[Stripe]) -> Result<String, AllocError> {
    let count = stripes.len();
    let mut line = format!(in alloc; "metainit d0 {count}")?;
    for stripe in stripes {
        stripe.push_words(alloc, &mut line)?;
    }
    line.push('\n')?;
    Ok(line)
}

/// The line that adds this one to d0.
pub(crate) fn attaching(alloc: Global, stripe: &Stripe) -> Result<String, AllocError> {
    let mut line = String::from_str(alloc, "metattach d0")?;
    stripe.push_slices(alloc, &mut line)?;
    line.push('\n')?;
    Ok(line)
}

impl Volume {
    /// That of these stripes, one behind another.
    pub(crate) fn of(alloc: Global, stripes: &[Stripe]) -> Result<Volume, AllocError> {
        let mut places = Vec::new(alloc);
        for stripe in stripes {
            stripe.push_places(&mut places)?;
        }
        let values = vec![in alloc; Value::First; places.len()]?;
        Ok(Volume { places, values })
    }

    /// The same on these stripes, of which it has the first ones: each block more holds what it held at first.
    pub(crate) fn longer(&self, alloc: Global, stripes: &[Stripe]) -> Result<Volume, AllocError> {
        let mut longer = Volume::of(alloc, stripes)?;
        for (slot, value) in longer.values.iter_mut().zip(self.values.iter()) {
            *slot = *value;
        }
        Ok(longer)
    }

    pub(crate) fn blocks(&self) -> u64 {
        self.places.len() as u64
    }

    /// Puts into each block what it holds at first.
    pub(crate) fn lay(&self, story: &mut Story) -> Result<(), Fail> {
        for place in self.places.as_slice() {
            story.put(place.0, place.1, &first_bytes(*place))?;
        }
        Ok(())
    }

    /// The line was acknowledged.
    pub(crate) fn write(&mut self, writing: &Writing) {
        for block in 0..self.values.len() {
            if let (Some(value), Some(slot)) = (
                writing.value_at(block as u64),
                self.values.get_mut(block),
            ) {
                *slot = value;
            }
        }
    }

    // Whether the block has its value, or the one that the line may have written, which it has from then on.
    fn find(
        &mut self,
        story: &mut Story,
        block: usize,
        writing: Option<&Writing>,
    ) -> Result<bool, Fail> {
        let place = *self.places.get(block).ok_or("no such block")?;
        let slot = self.values.get_mut(block).ok_or("no such block")?;
        if slot.is_at(story, place)? {
            return Ok(true);
        }
        match writing.and_then(|writing| writing.value_at(block as u64)) {
            Some(value) => {
                *slot = value;
                value.is_at(story, place)
            }
            None => Ok(false),
        }
    }

    /// The first block that holds neither its value nor the one that the line may have written.
    pub(crate) fn first_wrong(
        &mut self,
        story: &mut Story,
        writing: Option<&Writing>,
    ) -> Result<Option<usize>, Fail> {
        for block in 0..self.places.len() {
            if !self.find(story, block, writing)? {
                return Ok(Some(block));
            }
        }
        Ok(None)
    }

    /// What a read of all blocks tells.
    pub(crate) fn told(&self, alloc: Global) -> Result<String, AllocError> {
        let mut text = String::new(alloc);
        for (block, (value, place)) in self.values.iter().zip(self.places.iter()).enumerate() {
            text.push_str(format!(in alloc; "{block} ")?.as_str())?;
            value.push_to(&mut text, *place)?;
            text.push('\n')?;
        }
        text.push_str("ok\n")?;
        Ok(text)
    }
}
