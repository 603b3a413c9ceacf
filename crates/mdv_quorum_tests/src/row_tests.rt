use crate::row::first_wrong;
use std::test::Fail;

// A place on each of three drives, and a creation there that was told.
const CREATED: &str = "list 111
    format 111
    write 111
    tell";

// A commit that was stopped after its first place.
const STOPPED: &str = "list 111
    write 1
    crash";

// Places on two drives, and mediators on two others, which came one by one.
const MEDIATED: &str = "list 11
    format 11
    write 11
    tell
    format 10000
    list 10011
    write 10011
    tell
    format 100000
    list 110011
    write 110011
    tell";

// One mediator more.
const THIRD: &str = "format 1000000
    list 1110011
    write 1110011
    tell";

const NO_BEGINNING: &str = "no read 11
    no claim 11
    no format 11
    no write 11
    no tell
    no list 1
    no list 10";

// The place of drive 2 was dropped while drive 1 was lost, and wasn't blanked.
const DROPPED: &str = "lose 1
    move 111 11
    write 101
    tell
    list 11
    write 1
    tell";

// Whether it is the database of a set, and the rows of its life.
const CASES: &[(bool, &[&str])] = &[
    // A change at a lost place alone is struck.
    (
        false,
        &[
            CREATED,
            STOPPED,
            "lose 0
        boot 110
        adopts 1 0
        crash
        back 0
        boot 111
        adopts 2 0",
        ],
    ),
    // A change at a place that is read is adopted.
    (
        false,
        &[
            CREATED,
            STOPPED,
            "boot 111
        adopts 1 1
        boot 110
        adopts 2 0",
        ],
    ),
    // A number is drawn again where its claim is lost.
    (
        false,
        &[
            CREATED,
            "crash
        read 111
        claim 1
        crash
        lose 0
        boot 110
        adopts 1 0",
            "list 111
        write 110
        tell
        crash
        back 0
        boot 111
        adopts 2 1
        boot 111
        adopts 3 0",
        ],
    ),
    // A new list of places has its own quorum.
    // To three places of drive 0 come four of drive 1; three of those seven aren't enough, four are.
    (
        false,
        &[
            "list 7
        format 7
        write 7
        tell
        move 7 f7
        format f0
        write 1
        crash
        lose 1
        read 7
        no claim f7",
            "back 1
        read 10
        claim 17
        write 17
        tell
        adopts 1 1
        list f7
        write f7
        tell
        boot f0
        adopts 2 1",
        ],
    ),
    // Half of the places needs a majority of the mediators.
    (true, &[MEDIATED, "lose 1", "boot 110001\nadopts 1 2"]),
    (
        true,
        &[
            MEDIATED,
            "lose 1\nlose 5",
            "crash\nread 10001\nno claim 10001",
        ],
    ),
    (
        true,
        &[MEDIATED, THIRD, "lose 1\nlose 5\nboot 1010001\nadopts 1 3"],
    ),
    (
        true,
        &[
            MEDIATED,
            THIRD,
            "lose 1\ncrash\nread 100001\nno claim 100001",
        ],
    ),
    (
        true,
        &[CREATED, "lose 1\nlose 2", "crash\nread 1\nno claim 111"],
    ),
    // A mediator that knows a greater mark stands against half.
    // A change was told at one place of two and at both mediators, while the other drive was lost.
    (
        true,
        &[
            MEDIATED,
            "lose 0
        list 110011
        write 110010
        tell
        crash
        back 0
        lose 1
        read 110001
        no claim 110001",
            "crash
        back 1
        lose 0
        boot 110010
        adopts 1 3",
        ],
    ),
    // A deleted database stays deleted.
    (
        false,
        &[
            "list 1
        format 1
        write 1
        tell
        wipe 1",
            NO_BEGINNING,
            "crash",
            NO_BEGINNING,
        ],
    ),
    // A listed place is blanked only where it is the last.
    (
        false,
        &[
            "list 11
        format 11
        write 11
        tell
        no wipe 11
        move 11 1
        write 11
        tell
        no wipe 11
        list 1
        write 1
        tell
        wipe 10
        wipe 1",
            NO_BEGINNING,
        ],
    ),
    // Half of the claims suffices for a local database.
    // Without mediators half of the claims suffices for a local database, and not for that of a set.
    (
        false,
        &[
            "list 11
        format 11
        write 11
        tell
        crash
        read 11
        claim 1",
            "write 1
        tell
        adopts 1 0",
        ],
    ),
    (
        true,
        &[
            "list 11
        format 11
        write 11
        tell
        crash
        read 11
        claim 1",
            "no write 11
        claim 10
        write 11
        tell
        adopts 1 0",
        ],
    ),
    // A creation is begun anew until a place is formatted.
    (
        false,
        &[
            "list 1
        list 11
        crash
        list 1
        format 1
        no list 1
        crash
        no list 1
        no list 10
        read 1
        no claim 1",
        ],
    ),
    // A place that was dropped and not blanked is formatted again beside an older table.
    // The places of drives 2 and 3 were dropped together, and the last missed that.
    (
        false,
        &[
            "list 1111
        format 1111
        write 1111
        tell
        move 1111 11
        write 111
        tell
        list 11
        write 11
        tell",
            "move 11 111
        format 100
        crash
        lose 0
        read 1110
        no claim 1110",
            "crash
        back 0
        boot 11
        adopts 1 2
        move 11 111
        format 100
        write 111
        tell
        boot 111
        adopts 2 1",
        ],
    ),
    // A place that was formatted again has no vote for a table from before its drop.
    // Drive 1 missed the drop. Until the place has a table, no boot goes on with these two alone.
    (
        false,
        &[
            CREATED,
            DROPPED,
            "move 11 111
        format 100
        crash
        lose 0
        back 1
        read 110
        no claim 110",
            "crash
        back 0
        read 111
        claim 11
        write 11
        tell
        adopts 1 2",
        ],
    ),
    // The same, where the place has a table by then: it shows the greater one.
    (
        false,
        &[
            CREATED,
            DROPPED,
            "move 11 111
        format 100
        write 101
        crash
        lose 0
        back 1
        read 110
        no claim 110",
            "crash
        back 0
        boot 111
        adopts 1 3",
        ],
    ),
    // A dropped place may be formatted again while another replica is away that missed the drop, and
    // is back for the next boot.
    (
        false,
        &[
            CREATED,
            DROPPED,
            "move 11 111
        format 100
        write 101
        tell
        list 111
        write 101
        tell",
            "crash
        back 1
        boot 111
        adopts 1 4
        boot 110
        adopts 2 0",
        ],
    ),
];

#[test]
fn boots_adopt_as_worked(rt: HostRuntime) -> Result<(), Fail> {
    for (set, rows) in CASES {
        let wrong = first_wrong(rt.alloc(), *set, rows)?;
        assert!(rt; wrong.is_none(), "{wrong:?}");
    }
    Ok(())
}
