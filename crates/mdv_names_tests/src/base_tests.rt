use mdv_base::{Mark, Name, Refusal, StateWord};

fn is_told(refusal: &Refusal, want: &str) -> bool {
    refusal.text().as_str() == want
}

#[test]
fn tells_a_refusal(rt: HostRuntime) {
    let full = Refusal::ReplicaFull {
        bytes: 3312,
        room: 3072,
    };
    let down = Refusal::WrongState(StateWord::Down);
    assert!(rt; is_told(&Refusal::NeedForce, "refused E3 NeedForce"));
    assert!(rt; is_told(&down, "refused E13 WrongState Down"));
    assert!(rt; is_told(&full, "refused E17 ReplicaFull 3312 3072"));
}

// Boot and count of two marks, and whether the second is the newer one.
const MARKS: &[(u64, u64, u64, u64, bool)] = &[
    (1, 5, 1, 5, false),
    (1, 5, 1, 6, true),
    (1, 6, 1, 5, false),
    (1, 900, 2, 0, true),
    (2, 0, 1, 900, false),
];

fn is_below(boot: u64, count: u64, other_boot: u64, other_count: u64) -> bool {
    Mark { boot, count }.is_below(Mark {
        boot: other_boot,
        count: other_count,
    })
}

#[test]
fn orders_marks(rt: HostRuntime) {
    for (boot, count, other_boot, other_count, want) in MARKS {
        let below = is_below(*boot, *count, *other_boot, *other_count);
        assert!(rt;
            below == *want,
            "{boot} {count} and {other_boot} {other_count}"
        );
    }
}

const LETTERS: &[u8] = b"aaaaaaaaaaaaaaaaaaaaaaaaaaaaaaaaa";

// So many letters, and whether they are a name.
const NAMES: &[(usize, bool)] = &[(0, false), (1, true), (32, true), (33, false)];

#[test]
fn takes_names_of_32_letters(rt: HostRuntime) {
    for (letters, want) in NAMES {
        let front = LETTERS.get(..*letters).unwrap_or(&[]);
        assert!(rt; Name::new(front).is_some() == *want, "{letters} letters");
    }
}
