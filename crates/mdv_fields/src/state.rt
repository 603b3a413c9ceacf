ghost use Rattle.std.specs.Prelude.{◌≡◌, [], ◌∷◌};
ghost use Rattle.mdv_fields.specs.Parts.{AreRegions, state_text, spare_use_text, SpareUseFits, part_status_text, PartStatusFits, spare_state_text, raid_state_text, read_text, write_text};

use crate::fault::RecordError;
use crate::laying::lay;
use crate::part::{Part, Spelled};
use crate::reader::Reader;
use mdv_base::{DriveName, SliceName};
use mdv_plan::{
    PartStatus, RaidState, ReadOption, Regions, Resync, SpareState, SpareUse, State, WriteOption,
};
use std::alloc::Global;

impl Part for State {
    ghost fits = { λ _. Unit {0} };

    ghost text = { state_text };

    fn read(alloc: Global, rest: &mut Reader) -> Result<State, RecordError> {
        let state = u8::read(alloc, rest)?;
        let resync = u8::read(alloc, rest)?;
        match (state, resync) {
            (0, 0) => Ok(State::Okay),
            (1, 1) => Ok(State::Resyncing(Resync::Whole)),
            (1, 2) => Ok(State::Resyncing(Resync::Regions)),
            (2, 0) => Ok(State::Maintenance),
            (3, 0) => Ok(State::LastErred),
            _ => Err(RecordError::NotARecord),
        }
    }
}

impl Spelled for State {
    ghost text = { state_text };

    fn lay(&self, out: &mut [u8], used: usize) -> usize {
        let bytes: [u8; 2] = match self {
            State::Okay => [0, 0],
            State::Resyncing(Resync::Whole) => [1, 1],
            State::Resyncing(Resync::Regions) => [1, 2],
            State::Maintenance => [2, 0],
            State::LastErred => [3, 0],
        };
        lay(out, used, &bytes)
    }
}

// What stands in the place of a spare where there is none.
const NO_SLICE: SliceName = SliceName {
    drive: DriveName {
        controller: 0,
        target: 0,
        disk: 0,
    },
    slice: 0,
};

impl Part for Option<SpareUse> {
    ghost fits = { SpareUseFits };

    ghost text = { spare_use_text };

    fn read(alloc: Global, rest: &mut Reader) -> Result<Option<SpareUse>, RecordError> {
        let flag = u8::read(alloc, rest)?;
        let slice = SliceName::read(alloc, rest)?;
        let start = u64::read(alloc, rest)?;
        match flag {
            0 if slice == NO_SLICE && start == 0 => Ok(None),
            1 => Ok(Some(SpareUse { slice, start })),
            _ => Err(RecordError::NotARecord),
        }
    }
}

impl Spelled for Option<SpareUse> {
    ghost text = { spare_use_text };

    fn lay(&self, out: &mut [u8], used: usize) -> usize {
        match self {
            None => lay(out, used, &[0; 13]),
            Some(spare) => {
                let used = lay(out, used, &[1]);
                let used = spare.slice.lay(out, used);
                spare.start.lay(out, used)
            }
        }
    }
}

impl Part for PartStatus {
    ghost fits = { PartStatusFits };

    ghost text = { part_status_text };

    fn read(alloc: Global, rest: &mut Reader) -> Result<PartStatus, RecordError> {
        let state = State::read(alloc, rest)?;
        let spare = <Option<SpareUse>>::read(alloc, rest)?;
        Ok(PartStatus { state, spare })
    }
}

impl Spelled for PartStatus {
    ghost text = { part_status_text };

    fn lay(&self, out: &mut [u8], used: usize) -> usize {
        let used = self.state.lay(out, used);
        self.spare.lay(out, used)
    }
}

impl Part for SpareState {
    ghost fits = { λ _. Unit {0} };

    ghost text = { spare_state_text };

    fn read(alloc: Global, rest: &mut Reader) -> Result<SpareState, RecordError> {
        match u8::read(alloc, rest)? {
            0 => Ok(SpareState::Available),
            1 => Ok(SpareState::InUse),
            2 => Ok(SpareState::Broken),
            _ => Err(RecordError::NotARecord),
        }
    }
}

impl Spelled for SpareState {
    ghost text = { spare_state_text };

    fn lay(&self, out: &mut [u8], used: usize) -> usize {
        spare_state_code(*self).lay(out, used)
    }
}

fn spare_state_code(state: SpareState) -> u8
    ensures { result ∷ [] ≡ spare_state_text state }
{
    match state {
        SpareState::Available => 0,
        SpareState::InUse => 1,
        SpareState::Broken => 2,
    }
}

impl Part for RaidState {
    ghost fits = { λ _. Unit {0} };

    ghost text = { raid_state_text };

    fn read(alloc: Global, rest: &mut Reader) -> Result<RaidState, RecordError> {
        match u8::read(alloc, rest)? {
            0 => Ok(RaidState::Okay),
            1 => Ok(RaidState::Initializing),
            2 => Ok(RaidState::Keeping),
            _ => Err(RecordError::NotARecord),
        }
    }
}

impl Spelled for RaidState {
    ghost text = { raid_state_text };

    fn lay(&self, out: &mut [u8], used: usize) -> usize {
        let code: u8 = match self {
            RaidState::Okay => 0,
            RaidState::Initializing => 1,
            RaidState::Keeping => 2,
        };
        code.lay(out, used)
    }
}

impl Part for ReadOption {
    ghost fits = { λ _. Unit {0} };

    ghost text = { read_text };

    fn read(alloc: Global, rest: &mut Reader) -> Result<ReadOption, RecordError> {
        match u8::read(alloc, rest)? {
            0 => Ok(ReadOption::InTurn),
            1 => Ok(ReadOption::Geometric),
            2 => Ok(ReadOption::First),
            _ => Err(RecordError::NotARecord),
        }
    }
}

impl Spelled for ReadOption {
    ghost text = { read_text };

    fn lay(&self, out: &mut [u8], used: usize) -> usize {
        let code: u8 = match self {
            ReadOption::InTurn => 0,
            ReadOption::Geometric => 1,
            ReadOption::First => 2,
        };
        code.lay(out, used)
    }
}

impl Part for WriteOption {
    ghost fits = { λ _. Unit {0} };

    ghost text = { write_text };

    fn read(alloc: Global, rest: &mut Reader) -> Result<WriteOption, RecordError> {
        match u8::read(alloc, rest)? {
            0 => Ok(WriteOption::Parallel),
            1 => Ok(WriteOption::Serial),
            _ => Err(RecordError::NotARecord),
        }
    }
}

impl Spelled for WriteOption {
    ghost text = { write_text };

    fn lay(&self, out: &mut [u8], used: usize) -> usize {
        let code: u8 = match self {
            WriteOption::Parallel => 0,
            WriteOption::Serial => 1,
        };
        code.lay(out, used)
    }
}

impl Part for Regions {
    ghost fits = { AreRegions };

    ghost text = { λ bytes. bytes };

    fn read(alloc: Global, rest: &mut Reader) -> Result<Regions, RecordError> {
        let bytes = rest.bytes(128)?;
        Ok(Regions::from_slice(alloc, bytes)?)
    }
}

impl Spelled for Regions {
    ghost text = { λ bytes. bytes };

    fn lay(&self, out: &mut [u8], used: usize) -> usize {
        lay(out, used, self.as_slice())
    }
}
