//! Changes that are made, or refused by the first of several causes.

use crate::drives::*;
use crate::facts::Fact::*;
use crate::steps::Line::{Broken, Dirty, Held, In, InUse, Is, OnSpare, Replica, Short, Soft, Told};
use crate::steps::Step::*;
use crate::steps::{Line, first_wrong};
use mdv_base::SliceName;
use mdv_base::StateWord::{
    Absent, LastErred, Maintenance, Offline as IsOffline, Online as IsOnline, Resyncing,
};
use mdv_plan::Base::{Slice, Volume};
use mdv_plan::{Resync, SpareState, State};
use mdv_spares::Meant::{All, One};
use std::test::Fail;

const OKAY: Option<State> = Some(State::Okay);

const WHOLE: Option<State> = Some(State::Resyncing(Resync::Whole));

// No such volume is 4, name taken 5, no such slice 6, slice in use 7, a wrong interlace 25.
const STRIPES: &[Line] = &[
    Told(Stripe(1, &[Slice(S0), Slice(S1)], Some(15)), 25),
    Told(Stripe(1, &[Slice(S0), Slice(OTHER)], Some(16)), 6),
    Told(Stripe(1, &[Slice(S0), Slice(S0)], Some(16)), 7),
    Told(Stripe(1, &[Slice(S0), Slice(S1)], Some(16)), 0),
    Told(Stripe(1, &[Slice(S0), Slice(S7)], Some(16)), 5),
    Told(Stripe(2, &[Slice(S0), Slice(S7)], Some(15)), 25),
    Told(Stripe(2, &[Slice(S0), Slice(S7)], Some(16)), 7),
    Told(Stripe(2, &[Volume(VOL9), Slice(S9)], Some(16)), 4),
    Told(Stripe(2, &[Slice(S3), Slice(S7)], Some(16)), 0),
    Is(Volumes(2, 2)),
];

// Fewer than three columns are 8.
const RAIDS: &[Line] = &[
    Told(Raid(5, &[Slice(S0), Slice(S1)], None), 8),
    Told(Raid(5, &[Slice(S0), Slice(S1), Slice(S3)], None), 0),
    Told(Raid(5, &[Slice(S0), Slice(S1), Slice(S3)], None), 5),
];

// No such volume is 4, a name taken 5, too few 8, a parent 11, another kind 12. The stripes have 1000, 990
// and 4000 blocks.
const MIRRORS: &[Line] = &[
    Told(Stripe(10, &[Slice(S0)], None), 0),
    Told(Stripe(20, &[Slice(S1)], None), 0),
    Told(Stripe(30, &[Slice(S3)], None), 0),
    Told(Stripe(40, &[Slice(S7)], None), 0),
    Told(Mirror(0, &[VOL10, VOL9]), 4),
    Told(Mirror(10, &[VOL10]), 5),
    Told(Mirror(0, &[]), 8),
    Told(Mirror(0, &[VOL10, VOL10]), 11),
    Told(Mirror(0, &[VOL10, VOL20]), 0),
    Told(Mirror(1, &[VOL0, VOL20]), 12),
    Told(Mirror(1, &[VOL30, VOL20]), 11),
    Is(Submirrors(VOL0, 2, 2, 990)),
    Is(StripeState(VOL10, OKAY)),
    Is(StripeState(VOL20, WHOLE)),
];

// A submirror that is too small is 10. The last stripe has 19792 blocks.
const SUBMIRRORS: &[Line] = &[
    Told(Stripe(10, &[Slice(S0)], None), 0),
    Told(Stripe(20, &[Slice(S1)], None), 0),
    Told(Stripe(30, &[Slice(S3)], None), 0),
    Told(Stripe(40, &[Slice(S7)], None), 0),
    Told(Mirror(0, &[VOL20]), 0),
    Told(Mirror(1, &[VOL40]), 0),
    Told(Attach(VOL0, VOL9), 4),
    Is(StripeState(VOL9, None)),
    Told(Attach(VOL9, VOL10), 4),
    Is(StripeState(VOL10, OKAY)),
    Told(Attach(VOL30, VOL10), 12),
    Is(StripeState(VOL10, OKAY)),
    Told(Attach(VOL0, VOL1), 12),
    Is(StripeState(VOL1, None)),
    Told(Attach(VOL1, VOL30), 10),
    Is(StripeState(VOL30, OKAY)),
    Told(Attach(VOL0, VOL30), 0),
    Is(StripeState(VOL30, WHOLE)),
    Told(Attach(VOL0, VOL30), 11),
    Is(StripeState(VOL30, WHOLE)),
    Told(Attach(VOL0, VOL10), 0),
    Is(StripeState(VOL10, WHOLE)),
    Is(Submirrors(VOL0, 3, 3, 990)),
    Is(Submirrors(VOL1, 1, 1, 19792)),
];

// A soft partition below others is 16, a submirror that is too small 10. The first stripe has 1000 blocks, the second 2000 of
// a soft partition, the third 900 of one, the last 19792.
const SUBMIRRORS_BELOW_SOFTS: &[Line] = &[
    Told(Stripe(10, &[Slice(S0)], None), 0),
    Told(Mirror(0, &[VOL10]), 0),
    Told(MakeSoft(6, Volume(VOL0), 10), 0),
    Told(MakeSoft(5, Slice(S3), 2000), 0),
    Told(Stripe(20, &[Volume(VOL5)], None), 0),
    Told(Attach(VOL0, VOL20), 16),
    Is(StripeState(VOL20, OKAY)),
    Is(Submirrors(VOL0, 1, 1, 1000)),
    Told(MakeSoft(9, Slice(S3), 900), 0),
    Told(Stripe(30, &[Volume(VOL9)], None), 0),
    Told(Attach(VOL0, VOL30), 16),
    Told(Stripe(40, &[Slice(S7)], None), 0),
    Told(Attach(VOL0, VOL40), 0),
    Told(Clear(&[VOL6], &[]), 0),
    Told(Attach(VOL0, VOL30), 10),
    Told(Attach(VOL0, VOL20), 0),
    Is(StripeState(VOL20, WHOLE)),
    Is(Submirrors(VOL0, 3, 3, 1000)),
    Told(MakeSoft(6, Volume(VOL0), 10), 16),
];

// No such volume is 4, a volume of another kind 12, the last copy of a block 14. The mirror has 990 blocks.
const DETACHED: &[Line] = &[
    Told(Stripe(10, &[Slice(S0)], None), 0),
    Told(Stripe(20, &[Slice(S1)], None), 0),
    Told(Stripe(30, &[Slice(S3)], None), 0),
    Told(Mirror(0, &[VOL10, VOL20]), 0),
    Told(Detach(VOL9, VOL10, true), 4),
    Told(Detach(VOL0, VOL9, true), 4),
    Told(Detach(VOL10, VOL20, true), 12),
    Told(Detach(VOL0, VOL0, true), 12),
    Held(Detach(VOL0, VOL30, true), Absent),
    Held(Detach(VOL0, VOL20, false), Resyncing),
    Told(Detach(VOL0, VOL10, true), 14),
    Told(Detach(VOL0, VOL20, true), 0),
    Is(Submirrors(VOL0, 1, 1, 990)),
    Is(StripeState(VOL20, WHOLE)),
    Told(Detach(VOL0, VOL10, false), 14),
    Told(Attach(VOL0, VOL20), 0),
    In(VOL20, &[State::LastErred]),
    In(VOL10, &[State::Maintenance]),
    Held(Detach(VOL0, VOL20, false), LastErred),
    Told(Detach(VOL0, VOL20, true), 14),
    Held(Detach(VOL0, VOL10, false), Maintenance),
    Told(Detach(VOL0, VOL10, true), 0),
    Is(Submirrors(VOL0, 1, 1, 990)),
    Is(StripeState(VOL10, Some(State::Maintenance))),
];

// The first stripe has its 1000 good blocks in front, the second its good ones from block 900 on. With the
// components of the second in the other order blocks 1000 to 1890 would be lost.
const CONCATENATED: &[Line] = &[
    Told(Stripe(10, &[Slice(S0)], None), 0),
    Told(AddRow(VOL10, &[Slice(S1)], None), 0),
    Told(Stripe(20, &[Slice(S4)], None), 0),
    Told(AddRow(VOL20, &[Slice(S6)], None), 0),
    Told(Stripe(30, &[Slice(S3)], None), 0),
    Told(Mirror(0, &[VOL10, VOL20, VOL30]), 0),
    Is(Submirrors(VOL0, 3, 3, 1800)),
    In(VOL30, &[State::Okay]),
    In(VOL10, &[State::Okay, State::Maintenance]),
    In(VOL20, &[State::Okay, State::Maintenance]),
    Told(Detach(VOL0, VOL30, false), 14),
    In(VOL10, &[State::Maintenance, State::Okay]),
    Told(Detach(VOL0, VOL30, false), 14),
    In(VOL10, &[State::Okay, State::Maintenance]),
    In(VOL20, &[State::Maintenance, State::LastErred]),
    Told(Detach(VOL0, VOL30, false), 0),
    Held(Detach(VOL0, VOL20, false), LastErred),
    Told(Detach(VOL0, VOL20, true), 14),
];

// Units of 16 and of 32 blocks: the second unit of the first stripe lies in the first one of the second.
const STRIPED: &[Line] = &[
    Told(Stripe(10, &[Slice(S0), Slice(S1)], Some(16)), 0),
    Told(Stripe(20, &[Slice(S4), Slice(S6)], Some(32)), 0),
    Told(Stripe(30, &[Slice(S3)], None), 0),
    Told(Mirror(0, &[VOL10, VOL20, VOL30]), 0),
    In(VOL30, &[State::Okay]),
    In(VOL10, &[State::Okay, State::Maintenance]),
    In(VOL20, &[State::Maintenance, State::Okay]),
    Told(Detach(VOL0, VOL30, false), 14),
    In(VOL20, &[State::Okay, State::Okay]),
    Told(Detach(VOL0, VOL30, false), 0),
    In(VOL20, &[State::Maintenance, State::Okay]),
    Told(Detach(VOL0, VOL10, true), 14),
];

// Stripes of one form, each with the half that the other lacks.
const HALVES: &[Line] = &[
    Told(Stripe(10, &[Slice(S0), Slice(S1)], Some(16)), 0),
    Told(Stripe(20, &[Slice(S4), Slice(S6)], Some(16)), 0),
    Told(Stripe(30, &[Slice(S3)], None), 0),
    Told(Mirror(0, &[VOL10, VOL20, VOL30]), 0),
    In(VOL30, &[State::Okay]),
    In(VOL10, &[State::Okay, State::Maintenance]),
    In(VOL20, &[State::Maintenance, State::Okay]),
    Told(Offline(VOL0, VOL30), 0),
    Told(Detach(VOL0, VOL20, true), 14),
    Told(Detach(VOL0, VOL30, true), 0),
    Is(Submirrors(VOL0, 2, 2, 1792)),
    Is(Flags(VOL0, &[false, false])),
];

// One that is offline is no copy, and comes back Okay where nothing is dirty.
const OFFLINE: &[Line] = &[
    Told(Stripe(10, &[Slice(S0)], None), 0),
    Told(Stripe(20, &[Slice(S1)], None), 0),
    Told(Stripe(30, &[Slice(S3)], None), 0),
    Told(Mirror(0, &[VOL10, VOL20]), 0),
    Told(Offline(VOL0, VOL9), 4),
    Told(Offline(VOL10, VOL20), 12),
    Held(Offline(VOL0, VOL30), Absent),
    Held(Offline(VOL0, VOL20), Resyncing),
    Told(Offline(VOL0, VOL10), 14),
    In(VOL20, &[State::Okay]),
    Held(Online(VOL0, VOL20), IsOnline),
    Held(Online(VOL0, VOL30), Absent),
    Told(Offline(VOL0, VOL20), 0),
    Is(Flags(VOL0, &[false, true])),
    Is(StripeState(VOL20, OKAY)),
    Held(Offline(VOL0, VOL20), IsOffline),
    Held(Detach(VOL0, VOL20, false), IsOffline),
    Told(Detach(VOL0, VOL10, false), 14),
    Told(Online(VOL9, VOL20), 4),
    Told(Online(VOL20, VOL20), 12),
    Told(Online(VOL0, VOL20), 0),
    Is(Flags(VOL0, &[false, false])),
    Is(StripeState(VOL20, OKAY)),
    Told(Offline(VOL0, VOL20), 0),
    Dirty(VOL0),
    Told(Online(VOL0, VOL20), 0),
    Is(Flags(VOL0, &[false, false])),
    Is(StripeState(VOL20, Some(State::Resyncing(Resync::Regions)))),
    Dirty(VOL0),
    Told(Online(VOL0, VOL20), 0),
    Is(StripeState(VOL20, WHOLE)),
    Is(StripeState(VOL10, OKAY)),
];

// No such volume is 4, a name taken 5, a slice in use 7, a soft partition over another 16. The base has 1000
// blocks, and the slice of the replica 28000.
const SOFTS: &[Line] = &[
    Told(MakeSoft(5, Slice(S0), 400), 0),
    Told(MakeSoft(6, Slice(S0), 300), 0),
    Is(Extents(VOL6, 0, &[(402, 300)])),
    Told(MakeSoft(9, Volume(VOL9), 10), 4),
    Told(MakeSoft(5, Slice(S0), 10), 5),
    Told(MakeSoft(9, Slice(S2), 10), 7),
    Told(MakeSoft(9, Volume(VOL6), 10), 16),
    Told(Clear(&[VOL5], &[]), 0),
    Short(MakeSoft(9, Slice(S0), 698), 697),
    Told(MakeSoft(9, Slice(S0), 400), 0),
    Is(Extents(VOL9, 0, &[(1, 400)])),
    Short(Grow(VOL6, 298), 297),
    Told(Grow(VOL6, 297), 0),
    Is(Extents(VOL6, 0, &[(402, 300), (703, 297)])),
    Told(MakeSoft(10, Slice(S7), 100), 0),
    Is(Extents(VOL10, 8208, &[(1, 100)])),
    Told(Stripe(20, &[Volume(VOL9)], None), 0),
    Told(MakeSoft(30, Volume(VOL20), 10), 16),
];

// A RAID-5 volume that is Initializing is 13, a volume of another kind 12.
const SOFTS_ON_VOLUMES: &[Line] = &[
    Told(Raid(5, &[Slice(S0), Slice(S1), Slice(S3)], None), 0),
    Told(MakeSoft(6, Volume(VOL5), 10), 13),
    Told(Stripe(10, &[Slice(S4)], None), 0),
    Told(MakeSoft(6, Volume(VOL10), 100), 0),
    Told(Grow(VOL10, 1), 12),
    Told(Mirror(0, &[VOL10]), 11),
    Is(Extents(VOL6, 0, &[(1, 100)])),
];

// No such volume is 4, a slice in use 7, a stripe of nothing 8, a volume in a mirror 11, a wrong interlace 25.
const ROWS: &[Line] = &[
    Told(Stripe(10, &[Slice(S0)], None), 0),
    Told(AddRow(VOL9, &[Slice(S1)], None), 4),
    Told(AddRow(VOL10, &[Slice(S0)], None), 7),
    Told(AddRow(VOL10, &[], None), 8),
    Told(AddRow(VOL10, &[Slice(S1)], Some(15)), 25),
    Told(AddRow(VOL10, &[Slice(S1), Slice(S3)], None), 0),
    Is(Rows(VOL10, 2, 3)),
    Told(Mirror(0, &[VOL10]), 0),
    Told(AddRow(VOL10, &[Slice(S4)], None), 11),
    Is(Rows(VOL10, 2, 3)),
];

// A name taken is 5, no such slice 6, a slice in use 7.
const POOLS: &[Line] = &[
    Told(NewPool(1, &[S0]), 0),
    Told(NewPool(1, &[S1]), 5),
    Told(NewPool(1, &[OTHER]), 6),
    Told(Spares(1, &[S0]), 7),
    Told(Spares(1, &[S2]), 7),
    Told(Spares(1, &[S3, S3]), 7),
    Told(Spares(2, &[S0, S1]), 0),
    Told(Spares(2, &[S7]), 0),
    Is(SpareStates(3, 3)),
    Is(LastStart(HSP1, 0)),
    Is(LastStart(HSP2, 8208)),
];

// A spare that is in use stays so in a further pool.
const SPARE_IN_USE: &[Line] = &[
    Told(NewPool(1, &[S3]), 0),
    InUse(S3),
    Told(NewPool(2, &[S3, S7]), 0),
    Is(SpareStates(2, 1)),
];

// No such volume is 4, no such pool 26, and a use by what stays 11. Two pools have the spare.
const CLEARED: &[Line] = &[
    Told(NewPool(1, &[S7]), 0),
    Told(NewPool(2, &[S7]), 0),
    Told(Raid(5, &[Slice(S0), Slice(S1), Slice(S3)], Some(HSP1)), 0),
    OnSpare(5, S7),
    InUse(S7),
    Soft(6, VOL5),
    Told(Clear(&[VOL5, VOL9], &[HSP9]), 4),
    Is(FirstSpare(Some(SpareState::InUse))),
    Told(Clear(&[VOL5], &[HSP9]), 26),
    Is(FirstSpare(Some(SpareState::InUse))),
    Told(Clear(&[VOL5], &[]), 11),
    Is(FirstSpare(Some(SpareState::InUse))),
    Told(Clear(&[], &[HSP1]), 11),
    Is(FirstSpare(Some(SpareState::InUse))),
    Told(Clear(&[VOL6], &[HSP1]), 11),
    Is(FirstSpare(Some(SpareState::InUse))),
    Told(Clear(&[VOL5, VOL6], &[HSP1]), 0),
    Is(FirstSpare(Some(SpareState::Available))),
    Told(Clear(&[VOL5], &[]), 4),
    Is(FirstSpare(Some(SpareState::Available))),
    Told(Clear(&[], &[HSP2]), 0),
    Is(FirstSpare(None)),
    Is(Volumes(0, 0)),
    Is(Pools(0)),
];

// A spare in use is 27. The volume takes its spares from no pool, and two pools have the one on which it lies.
const SPARES_STAY: &[Line] = &[
    Told(NewPool(1, &[S7]), 0),
    Told(NewPool(2, &[S4, S7]), 0),
    Told(Raid(5, &[Slice(S0), Slice(S1), Slice(S3)], None), 0),
    OnSpare(5, S7),
    InUse(S7),
    Told(Clear(&[], &[HSP1, HSP2]), 27),
    Is(SpareStates(2, 1)),
    Is(Pools(2)),
    Told(Clear(&[], &[HSP1]), 0),
    Told(Clear(&[], &[HSP2]), 27),
    Is(SpareStates(2, 1)),
    Is(Pools(1)),
    Told(Clear(&[VOL5], &[HSP2]), 0),
    Is(SpareStates(0, 0)),
    Is(Volumes(0, 0)),
    Is(Pools(0)),
];

// No such slice is 6, a spare that isn't in the pool, or isn't Broken, 13, no such pool 26, a spare in use 27.
const SPARES_LEAVE: &[Line] = &[
    Told(NewPool(1, &[S0, S1]), 0),
    Told(NewPool(2, &[S0]), 0),
    InUse(S1),
    Told(DeleteSpares(One(HSP9), &[S0]), 26),
    Told(DeleteSpares(One(HSP1), &[OTHER]), 6),
    Told(DeleteSpares(One(HSP2), &[S1]), 13),
    Told(DeleteSpares(One(HSP1), &[S1]), 27),
    Told(DeleteSpares(One(HSP2), &[S0]), 0),
    Is(SpareStates(2, 1)),
    Told(DeleteSpares(All, &[S0]), 0),
    Is(SpareStates(1, 0)),
    Told(EnableSpares(&[S1]), 13),
    Broken(S1),
    Told(EnableSpares(&[S1]), 0),
    Is(SpareStates(1, 1)),
];

// One more than a pool can have.
const MANY: &[SliceName] = &[S0; 101];

// No such slice is 6, a slice in use 7, too many spares 9, a slice without room 10. A replica of 27984 blocks
// has all of its slice.
const SPARES_FOR_ALL: &[Line] = &[
    Told(SparesToAll(&[S0]), 0),
    Is(Pools(0)),
    Is(SpareStates(0, 0)),
    Told(SparesToAll(&[OTHER]), 6),
    Told(NewPool(1, &[S0]), 0),
    Told(NewPool(2, &[S1]), 0),
    Told(SparesToAll(&[S4, S1]), 7),
    Told(SparesToAll(&[S2]), 7),
    Told(SparesToAll(&[S3, S3]), 7),
    Told(SparesToAll(MANY), 9),
    Told(SparesToAll(&[S3, S7]), 0),
    Is(HasSpares(HSP1, &[S0, S3, S7])),
    Is(HasSpares(HSP2, &[S1, S3, S7])),
    Is(LastStart(HSP1, 8208)),
    Is(SpareStates(4, 4)),
    Told(DeleteSpares(All, &[S7]), 0),
    Replica(27984),
    Told(SparesToAll(&[S7]), 10),
];

// A spare that isn't there is 13, no such pool 26, a spare in use 27.
const SPARES_REPLACED: &[Line] = &[
    Told(NewPool(1, &[S0, S1]), 0),
    Told(NewPool(2, &[S1, S3]), 0),
    InUse(S3),
    Told(ReplaceSpare(One(HSP9), S0, S4), 26),
    Told(ReplaceSpare(One(HSP1), S0, OTHER), 6),
    Told(ReplaceSpare(One(HSP1), OTHER, S4), 6),
    Told(ReplaceSpare(One(HSP1), S3, S4), 13),
    Told(ReplaceSpare(All, S4, S6), 13),
    Told(ReplaceSpare(One(HSP1), S0, S2), 7),
    Told(ReplaceSpare(One(HSP1), S0, S0), 7),
    Told(ReplaceSpare(All, S0, S1), 7),
    Told(ReplaceSpare(All, S3, S4), 27),
    Told(ReplaceSpare(One(HSP1), S1, S4), 0),
    Is(HasSpares(HSP1, &[S0, S4])),
    Is(HasSpares(HSP2, &[S1, S3])),
    Is(SpareStates(4, 3)),
    Told(ReplaceSpare(One(HSP1), S0, S3), 0),
    Is(HasSpares(HSP1, &[S3, S4])),
    Is(SpareStates(3, 2)),
    Told(Spares(1, &[S1]), 0),
    Told(ReplaceSpare(All, S1, S7), 0),
    Is(HasSpares(HSP1, &[S3, S4, S7])),
    Is(HasSpares(HSP2, &[S7, S3])),
    Is(LastStart(HSP1, 8208)),
    Is(SpareStates(3, 2)),
    Told(DeleteSpares(All, &[S7]), 0),
    Replica(27984),
    Told(ReplaceSpare(One(HSP1), S4, S7), 10),
];

// A base that another soft partition has stays.
const CLEARED_BELOW: &[Line] = &[
    Told(MakeSoft(5, Slice(S0), 100), 0),
    Told(Stripe(10, &[Volume(VOL5)], None), 0),
    Told(Mirror(0, &[VOL10]), 0),
    Told(Stripe(20, &[Slice(S1)], None), 0),
    Told(MakeSoft(6, Volume(VOL20), 100), 0),
    Told(MakeSoft(9, Volume(VOL20), 100), 0),
    Told(ClearBelow(&[VOL0, VOL6]), 0),
    Is(Volumes(2, 2)),
    Told(ClearBelow(&[VOL9]), 0),
    Is(Volumes(0, 0)),
];

const ALL_CLEARED: &[Line] = &[
    Told(NewPool(1, &[S7]), 0),
    Told(NewPool(2, &[S7]), 0),
    Told(Raid(5, &[Slice(S0), Slice(S1), Slice(S3)], Some(HSP1)), 0),
    OnSpare(5, S7),
    InUse(S7),
    Told(ClearAll, 0),
    Is(FirstSpare(None)),
    Is(Volumes(0, 0)),
    Is(Pools(0)),
];

#[test]
fn stripes_are_refused_in_one_order(rt: HostRuntime) -> Result<(), Fail> {
    assert_eq!(rt; first_wrong(rt.alloc(), STRIPES)?, None);
    Ok(())
}

#[test]
fn raids_are_made(rt: HostRuntime) -> Result<(), Fail> {
    assert_eq!(rt; first_wrong(rt.alloc(), RAIDS)?, None);
    Ok(())
}

#[test]
fn mirrors_are_made(rt: HostRuntime) -> Result<(), Fail> {
    assert_eq!(rt; first_wrong(rt.alloc(), MIRRORS)?, None);
    Ok(())
}

#[test]
fn submirrors_are_attached(rt: HostRuntime) -> Result<(), Fail> {
    assert_eq!(rt; first_wrong(rt.alloc(), SUBMIRRORS)?, None);
    assert_eq!(rt; first_wrong(rt.alloc(), SUBMIRRORS_BELOW_SOFTS)?, None);
    Ok(())
}

#[test]
fn submirrors_are_detached(rt: HostRuntime) -> Result<(), Fail> {
    assert_eq!(rt; first_wrong(rt.alloc(), DETACHED)?, None);
    Ok(())
}

#[test]
fn concatenations_are_detached(rt: HostRuntime) -> Result<(), Fail> {
    assert_eq!(rt; first_wrong(rt.alloc(), CONCATENATED)?, None);
    Ok(())
}

#[test]
fn stripes_are_detached(rt: HostRuntime) -> Result<(), Fail> {
    assert_eq!(rt; first_wrong(rt.alloc(), STRIPED)?, None);
    assert_eq!(rt; first_wrong(rt.alloc(), HALVES)?, None);
    Ok(())
}

#[test]
fn submirrors_go_offline(rt: HostRuntime) -> Result<(), Fail> {
    assert_eq!(rt; first_wrong(rt.alloc(), OFFLINE)?, None);
    Ok(())
}

#[test]
fn soft_partitions_are_made_and_grow(rt: HostRuntime) -> Result<(), Fail> {
    assert_eq!(rt; first_wrong(rt.alloc(), SOFTS)?, None);
    Ok(())
}

#[test]
fn soft_partitions_lie_on_volumes(rt: HostRuntime) -> Result<(), Fail> {
    assert_eq!(rt; first_wrong(rt.alloc(), SOFTS_ON_VOLUMES)?, None);
    Ok(())
}

#[test]
fn stripes_come_to_a_volume(rt: HostRuntime) -> Result<(), Fail> {
    assert_eq!(rt; first_wrong(rt.alloc(), ROWS)?, None);
    Ok(())
}

#[test]
fn spares_come_into_pools(rt: HostRuntime) -> Result<(), Fail> {
    assert_eq!(rt; first_wrong(rt.alloc(), POOLS)?, None);
    Ok(())
}

#[test]
fn a_spare_keeps_its_state(rt: HostRuntime) -> Result<(), Fail> {
    assert_eq!(rt; first_wrong(rt.alloc(), SPARE_IN_USE)?, None);
    Ok(())
}

#[test]
fn volumes_and_pools_are_cleared(rt: HostRuntime) -> Result<(), Fail> {
    assert_eq!(rt; first_wrong(rt.alloc(), CLEARED)?, None);
    assert_eq!(rt; first_wrong(rt.alloc(), SPARES_STAY)?, None);
    Ok(())
}

#[test]
fn spares_leave_pools(rt: HostRuntime) -> Result<(), Fail> {
    assert_eq!(rt; first_wrong(rt.alloc(), SPARES_LEAVE)?, None);
    Ok(())
}

#[test]
fn spares_come_into_all_pools(rt: HostRuntime) -> Result<(), Fail> {
    assert_eq!(rt; first_wrong(rt.alloc(), SPARES_FOR_ALL)?, None);
    Ok(())
}

#[test]
fn spares_are_replaced(rt: HostRuntime) -> Result<(), Fail> {
    assert_eq!(rt; first_wrong(rt.alloc(), SPARES_REPLACED)?, None);
    Ok(())
}

#[test]
fn volumes_below_are_cleared(rt: HostRuntime) -> Result<(), Fail> {
    assert_eq!(rt; first_wrong(rt.alloc(), CLEARED_BELOW)?, None);
    Ok(())
}

#[test]
fn all_is_cleared(rt: HostRuntime) -> Result<(), Fail> {
    assert_eq!(rt; first_wrong(rt.alloc(), ALL_CLEARED)?, None);
    Ok(())
}
