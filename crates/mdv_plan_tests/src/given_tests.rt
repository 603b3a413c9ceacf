//! Soft partitions whose extents are given.

use crate::drives::*;
use crate::facts::Fact::*;
use crate::steps::Line::{Is, Short, Told};
use crate::steps::Step::*;
use crate::steps::{Line, first_wrong};
use mdv_extent::Run;
use mdv_plan::Base::{Slice, Volume};
use std::test::Fail;

// One more than a soft partition can have.
const MANY: &[Run] = &[Run { at: 500, blocks: 1 }; 17];

const LAST: u64 = u64::MAX;

// No such volume is 4, a name taken 5, no such slice 6, a slice in use 7, too many 9, extents that don't fit 10,
// a soft partition over another 16. The base has 1000 blocks; of the first extent block 400 is the last.
const GIVEN: &[Line] = &[
    Told(GiveSoft(5, Slice(S0), &[Run { at: 1, blocks: 400 }]), 0),
    Is(Extents(VOL5, 0, &[(1, 400)])),
    Told(GiveSoft(6, Volume(VOL9), &[]), 4),
    Told(GiveSoft(5, Slice(OTHER), &[]), 6),
    Told(GiveSoft(5, Slice(S0), MANY), 5),
    Told(GiveSoft(6, Slice(S2), MANY), 9),
    Told(GiveSoft(6, Slice(S2), &[Run { at: 0, blocks: 9 }]), 7),
    Told(GiveSoft(6, Volume(VOL5), &[Run { at: 0, blocks: 9 }]), 16),
    Told(GiveSoft(6, Slice(S0), &[]), 10),
    Told(GiveSoft(6, Slice(S0), &[Run { at: 0, blocks: 9 }]), 10),
    Told(GiveSoft(6, Slice(S0), &[Run { at: 402, blocks: 0 }]), 10),
    Told(GiveSoft(6, Slice(S0), &[Run { at: 401, blocks: 9 }]), 10),
    Told(
        GiveSoft(
            6,
            Slice(S0),
            &[Run {
                at: 402,
                blocks: 599,
            }],
        ),
        10,
    ),
    Told(
        GiveSoft(
            6,
            Slice(S0),
            &[Run {
                at: LAST,
                blocks: LAST,
            }],
        ),
        10,
    ),
];

// The header of the extent in front is block 599. What is between is one block too short.
const GIVEN_IN_TURN: &[Line] = &[
    Told(MakeSoft(5, Slice(S0), 400), 0),
    Told(
        GiveSoft(
            6,
            Slice(S0),
            &[
                Run {
                    at: 600,
                    blocks: 400,
                },
                Run {
                    at: 402,
                    blocks: 198,
                },
            ],
        ),
        10,
    ),
    Told(
        GiveSoft(
            6,
            Slice(S0),
            &[
                Run {
                    at: 600,
                    blocks: 400,
                },
                Run {
                    at: 402,
                    blocks: 100,
                },
            ],
        ),
        0,
    ),
    Is(Extents(VOL6, 0, &[(600, 400), (402, 100)])),
    Short(MakeSoft(9, Slice(S0), 97), 96),
    Told(MakeSoft(9, Slice(S0), 96), 0),
    Is(Extents(VOL9, 0, &[(503, 96)])),
    Told(GiveSoft(10, Slice(S7), &[Run { at: 7, blocks: 100 }]), 0),
    Is(Extents(VOL10, 8208, &[(7, 100)])),
];

#[test]
fn extents_are_given(rt: HostRuntime) -> Result<(), Fail> {
    assert_eq!(rt; first_wrong(rt.alloc(), GIVEN)?, None);
    assert_eq!(rt; first_wrong(rt.alloc(), GIVEN_IN_TURN)?, None);
    Ok(())
}
