// What the first blocks of the volumes d0, d1 and d2 hold, and what their histories allow.
use mdv_base::{Block, ZERO_BLOCK};

/// How many blocks of a volume are followed. Scripts name no later one.
pub const FOLLOWED: u64 = 9;

/// What a block holds: zeros, or one of the texts that lives write.
#[derive(Clone, Copy, Debug, PartialEq, Eq)]
pub enum Value {
    Zeros,
    Ab,
    Cd,
    Long,
}

/// A block: what a read gives, and which values may be there after a crash: that of the last acknowledged write, or
/// the one that a boot found since, and each that was issued later.
#[derive(Clone, Copy)]
pub struct Spot {
    pub newest: Value,
    allowed: [bool; 4],
}

/// The followed blocks of the volumes, those of d0 first.
#[derive(Clone, Copy)]
pub struct Spots([Spot; 27]);

impl Value {
    pub(crate) const ALL: [Value; 4] = [Value::Zeros, Value::Ab, Value::Cd, Value::Long];

    // Its number, the bytes at the block's front, how a line writes it and how a reply tells it.
    fn forms(self) -> (usize, &'static [u8], &'static str, &'static str) {
        match self {
            Value::Zeros => (0, b"", "00", "-"),
            Value::Ab => (1, b"\xab", "ab", "ab"),
            Value::Cd => (2, b"\xcd", "cd", "cd"),
            Value::Long => (3, b"\0\x12\xef", "0012EF00", "0012ef"),
        }
    }

    pub(crate) fn written(self) -> &'static str {
        self.forms().2
    }

    pub(crate) fn read(self) -> &'static str {
        self.forms().3
    }

    /// The value that the block holds.
    pub(crate) fn of(block: &Block) -> Option<Value> {
        Value::ALL.iter().copied().find(|value| value.is_in(block))
    }

    fn is_in(self, block: &Block) -> bool {
        let mut whole = ZERO_BLOCK;
        for (to, byte) in whole.iter_mut().zip(self.forms().1) {
            *to = *byte;
        }
        *block == whole
    }
}

impl Spot {
    pub(crate) fn allow(&mut self, value: Value) {
        if let Some(allowed) = self.allowed.get_mut(value.forms().0) {
            *allowed = true;
        }
    }

    pub(crate) fn allow_only(&mut self, value: Value) {
        self.allowed = [false; 4];
        self.allow(value);
    }

    pub(crate) fn allows(&self, value: Value) -> bool {
        self.allowed.get(value.forms().0) == Some(&true)
    }
}

impl Spots {
    /// Blocks of zeros.
    pub(crate) fn new() -> Spots {
        let spot = Spot {
            newest: Value::Zeros,
            allowed: [true, false, false, false],
        };
        Spots([spot; 27])
    }

    /// The block of the volume, the last followed one for a later one.
    pub(crate) fn spot(&mut self, volume: u8, at: u64) -> &mut Spot {
        let number = u64::from(volume)
            .saturating_mul(FOLLOWED)
            .saturating_add(at.min(FOLLOWED - 1));
        &mut self.0[number.min(26) as usize]
    }

    /// A boot has synced the drive of the volume: each of its blocks has the value that a read gives.
    pub(crate) fn settle(&mut self, volume: u8) {
        for at in 0..FOLLOWED {
            let spot = self.spot(volume, at);
            spot.allow_only(spot.newest);
        }
    }
}
