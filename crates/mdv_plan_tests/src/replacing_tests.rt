//! Components that are enabled or replaced, or that keep their place by the first of several causes.

use crate::drives::*;
use crate::facts::Fact::*;
use crate::steps::Line::{Columns, Held, In, InUse, Is, Lies, Told};
use crate::steps::Step::*;
use crate::steps::{Line, first_wrong};
use mdv_base::StateWord::{
    Absent, Initializing, LastErred, Maintenance, Okay as IsOkay, Resyncing,
};
use mdv_plan::Base::{Slice, Volume};
use mdv_plan::{Resync, SpareState, State};
use std::test::Fail;

const WHOLE: State = State::Resyncing(Resync::Whole);

// No such volume is 4, no such slice 6, a volume of another kind 12, the last copy of a block 14.
const ENABLED: &[Line] = &[
    Told(Stripe(10, &[Slice(S0)], None), 0),
    Told(Stripe(20, &[Slice(S1)], None), 0),
    Told(Mirror(0, &[VOL10, VOL20]), 0),
    Told(Enable(VOL9, Slice(S0)), 4),
    Told(Enable(VOL0, Volume(VOL9)), 4),
    Told(Enable(VOL10, Slice(OTHER)), 6),
    Told(Enable(VOL10, Slice(S0)), 12),
    Told(Enable(VOL0, Volume(VOL10)), 12),
    Held(Enable(VOL0, Slice(S3)), Absent),
    Held(Enable(VOL0, Slice(S1)), Resyncing),
    Held(Enable(VOL0, Slice(S0)), IsOkay),
    In(VOL10, &[State::Maintenance]),
    Told(Enable(VOL0, Slice(S0)), 14),
    Is(Parts(VOL10, &[State::Maintenance])),
    In(VOL20, &[State::LastErred]),
    Told(Enable(VOL0, Slice(S0)), 0),
    Is(Parts(VOL10, &[WHOLE])),
    Is(Parts(VOL20, &[State::LastErred])),
    Is(PartOn(VOL10, Slice(S0), 0, 1000)),
    Told(Enable(VOL0, Slice(S1)), 14),
];

// A component that is Okay on a spare comes back to its own slice; one that is copied to a spare stays.
const ENABLED_FROM_A_SPARE: &[Line] = &[
    Told(NewPool(1, &[S3]), 0),
    Told(Stripe(10, &[Slice(S0)], None), 0),
    Told(Stripe(20, &[Slice(S1)], None), 0),
    Told(Mirror(0, &[VOL10, VOL20]), 0),
    In(VOL20, &[State::Okay]),
    InUse(S3),
    Lies(VOL10, S3, WHOLE),
    Held(Enable(VOL0, Slice(S0)), Resyncing),
    Is(FirstSpare(Some(SpareState::InUse))),
    Lies(VOL10, S3, State::Okay),
    Told(Enable(VOL0, Slice(S0)), 0),
    Is(FirstSpare(Some(SpareState::Available))),
    Is(Parts(VOL10, &[WHOLE])),
    Lies(VOL10, S3, State::LastErred),
    InUse(S3),
    Told(Replace(VOL0, Slice(S0), Slice(S3)), 7),
    Told(Replace(VOL0, Slice(S0), Slice(S7)), 0),
    Is(FirstSpare(Some(SpareState::Available))),
];

// Stripes that follow one another, 1800 blocks: only the blocks of the component count. The first component
// has blocks 0 to 999, and 900 is where the second one of the other submirror begins.
const CONCATENATED: &[Line] = &[
    Told(Stripe(10, &[Slice(S0)], None), 0),
    Told(AddRow(VOL10, &[Slice(S1)], None), 0),
    Told(Stripe(20, &[Slice(S4)], None), 0),
    Told(AddRow(VOL20, &[Slice(S6)], None), 0),
    Told(Mirror(0, &[VOL10, VOL20]), 0),
    In(VOL10, &[State::Maintenance, State::Okay]),
    In(VOL20, &[State::Okay, State::Maintenance]),
    Told(Enable(VOL0, Slice(S0)), 14),
    In(VOL10, &[State::Okay, State::Maintenance]),
    In(VOL20, &[State::Maintenance, State::Okay]),
    Told(Enable(VOL0, Slice(S1)), 0),
    Is(Parts(VOL10, &[State::Okay, WHOLE])),
    Told(Enable(VOL0, Slice(S4)), 0),
    Is(Parts(VOL20, &[WHOLE, State::Okay])),
];

// Units of 16 blocks, each component with one of the other submirror.
const STRIPED: &[Line] = &[
    Told(Stripe(10, &[Slice(S0), Slice(S1)], Some(16)), 0),
    Told(Stripe(20, &[Slice(S4), Slice(S6)], Some(16)), 0),
    Told(Mirror(0, &[VOL10, VOL20]), 0),
    In(VOL10, &[State::Maintenance, State::Okay]),
    In(VOL20, &[State::Okay, State::Maintenance]),
    Told(Enable(VOL0, Slice(S0)), 0),
    Told(Enable(VOL0, Slice(S6)), 0),
    Is(Parts(VOL10, &[WHOLE, State::Okay])),
    Is(Parts(VOL20, &[State::Okay, WHOLE])),
    In(VOL10, &[State::Okay, State::Maintenance]),
    Told(Enable(VOL0, Slice(S1)), 14),
];

// A submirror that is offline has no copy. One that is offline itself has its component replaced.
const BESIDE_OFFLINE: &[Line] = &[
    Told(Stripe(10, &[Slice(S0)], None), 0),
    Told(Stripe(20, &[Slice(S1)], None), 0),
    Told(Mirror(0, &[VOL10, VOL20]), 0),
    In(VOL20, &[State::Okay]),
    Told(Offline(VOL0, VOL20), 0),
    Told(Replace(VOL0, Slice(S0), Slice(S3)), 14),
    Told(Replace(VOL0, Slice(S1), Slice(S3)), 0),
    Is(Flags(VOL0, &[false, true])),
    Is(Parts(VOL20, &[WHOLE])),
    Told(Online(VOL0, VOL20), 0),
    Is(Parts(VOL20, &[WHOLE])),
];

// A slice in use is 7, one that is too small 10, a soft partition in use 11.
const REPLACED: &[Line] = &[
    Told(Stripe(10, &[Slice(S0)], None), 0),
    Told(Stripe(20, &[Slice(S1)], None), 0),
    Told(Mirror(0, &[VOL10, VOL20]), 0),
    Told(Replace(VOL9, Slice(S0), Slice(S3)), 4),
    Told(Replace(VOL0, Slice(S0), Volume(VOL9)), 4),
    Told(Replace(VOL0, Slice(S0), Slice(OTHER)), 6),
    Told(Replace(VOL20, Slice(S1), Slice(S3)), 12),
    Told(Replace(VOL0, Slice(S0), Volume(VOL20)), 12),
    Held(Replace(VOL0, Slice(S4), Slice(S3)), Absent),
    Held(Replace(VOL0, Slice(S1), Slice(S2)), Resyncing),
    Told(Replace(VOL0, Slice(S0), Slice(S2)), 14),
    In(VOL20, &[State::Okay]),
    Told(Replace(VOL0, Slice(S0), Slice(S0)), 7),
    Told(Replace(VOL0, Slice(S0), Slice(S2)), 7),
    Told(Replace(VOL0, Slice(S0), Slice(S4)), 10),
    Told(Replace(VOL0, Slice(S0), Slice(S3)), 0),
    Is(PartOn(VOL10, Slice(S3), 0, 1000)),
    Is(Parts(VOL10, &[WHOLE])),
    Is(Parts(VOL20, &[State::Okay])),
    Is(Submirrors(VOL0, 2, 2, 990)),
    Held(Replace(VOL0, Slice(S0), Slice(S7)), Absent),
    In(VOL10, &[State::Okay]),
    Told(Replace(VOL0, Slice(S3), Slice(S7)), 0),
    Is(PartOn(VOL10, Slice(S7), 8208, 1000)),
];

// Soft partitions as components; one doesn't come below others, which is 16.
const REPLACED_BY_SOFT_PARTITIONS: &[Line] = &[
    Told(Stripe(10, &[Slice(S0)], None), 0),
    Told(Stripe(20, &[Slice(S1)], None), 0),
    Told(Mirror(0, &[VOL10, VOL20]), 0),
    Told(MakeSoft(5, Slice(S3), 1500), 0),
    Told(MakeSoft(6, Slice(S3), 800), 0),
    In(VOL20, &[State::Okay]),
    Told(Replace(VOL0, Slice(S0), Volume(VOL6)), 10),
    Told(Replace(VOL0, Slice(S0), Volume(VOL5)), 0),
    Is(PartOn(VOL10, Volume(VOL5), 0, 1000)),
    In(VOL10, &[State::Okay]),
    Told(Replace(VOL0, Slice(S1), Volume(VOL5)), 11),
    Told(Replace(VOL0, Volume(VOL5), Slice(S0)), 0),
    In(VOL10, &[State::Okay]),
    Told(MakeSoft(9, Volume(VOL0), 10), 0),
    Told(Replace(VOL0, Slice(S1), Volume(VOL5)), 16),
];

// Each column has 984 blocks. The worst of the other columns is told behind the column's own state.
const COLUMNS: &[Line] = &[
    Told(Raid(5, &[Slice(S0), Slice(S1), Slice(S3)], None), 0),
    Held(Enable(VOL5, Slice(S4)), Initializing),
    Held(Replace(VOL5, Slice(S0), Slice(S4)), Initializing),
    Columns(VOL5, &[State::Maintenance, State::LastErred, State::Okay]),
    Held(Enable(VOL5, Slice(S4)), Absent),
    Held(Enable(VOL5, Slice(S0)), LastErred),
    Held(Enable(VOL5, Slice(S1)), Maintenance),
    Held(Enable(VOL5, Slice(S3)), IsOkay),
    Held(Replace(VOL5, Slice(S3), Slice(S7)), LastErred),
    Columns(VOL5, &[State::Okay, State::Maintenance, WHOLE]),
    Held(Enable(VOL5, Slice(S1)), Resyncing),
    Held(Replace(VOL5, Slice(S0), Slice(S7)), Maintenance),
    Columns(VOL5, &[State::Okay, State::Maintenance, State::Okay]),
    Told(Replace(VOL5, Slice(S1), Slice(S4)), 10),
    Told(Replace(VOL5, Slice(S1), Slice(S7)), 0),
    Is(PartOn(VOL5, Slice(S7), 8208, 984)),
    Is(Parts(VOL5, &[State::Okay, WHOLE, State::Okay])),
    Columns(VOL5, &[State::LastErred, State::Okay, State::Okay]),
    Told(Enable(VOL5, Slice(S0)), 0),
    Is(Parts(VOL5, &[WHOLE, State::Okay, State::Okay])),
];

#[test]
fn components_are_enabled(rt: HostRuntime) -> Result<(), Fail> {
    assert_eq!(rt; first_wrong(rt.alloc(), ENABLED)?, None);
    Ok(())
}

#[test]
fn a_spare_comes_free(rt: HostRuntime) -> Result<(), Fail> {
    assert_eq!(rt; first_wrong(rt.alloc(), ENABLED_FROM_A_SPARE)?, None);
    Ok(())
}

#[test]
fn a_component_keeps_the_last_copy_of_its_blocks(rt: HostRuntime) -> Result<(), Fail> {
    assert_eq!(rt; first_wrong(rt.alloc(), CONCATENATED)?, None);
    assert_eq!(rt; first_wrong(rt.alloc(), STRIPED)?, None);
    assert_eq!(rt; first_wrong(rt.alloc(), BESIDE_OFFLINE)?, None);
    Ok(())
}

#[test]
fn components_are_replaced(rt: HostRuntime) -> Result<(), Fail> {
    assert_eq!(rt; first_wrong(rt.alloc(), REPLACED)?, None);
    Ok(())
}

#[test]
fn soft_partitions_become_components(rt: HostRuntime) -> Result<(), Fail> {
    assert_eq!(rt; first_wrong(rt.alloc(), REPLACED_BY_SOFT_PARTITIONS)?, None);
    Ok(())
}

#[test]
fn columns_are_enabled_and_replaced(rt: HostRuntime) -> Result<(), Fail> {
    assert_eq!(rt; first_wrong(rt.alloc(), COLUMNS)?, None);
    Ok(())
}
