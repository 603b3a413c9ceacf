// What the head of a replica says of its tables.
ghost use Rattle.std.specs.Prelude.{◌≡◌};
ghost use Rattle.mdv_replica.specs.Form.{IsSpareSlot, boot_of, gate_of, greatest, other_slot as spec_other_slot, shows as spec_shows, is_open};

use mdv_replica::{Gate, Head, Slot};

/// Whether it shows a table.
pub(crate) fn shows(head: &Head) -> bool
    ensures { result ≡ spec_shows head.now }
{
    is_gate_open(&head.first) || is_gate_open(&head.second)
}

fn is_gate_open(gate: &Gate) -> bool
    ensures { result ≡ is_open gate.now }
{
    matches!(gate, Gate::Open { .. })
}

pub(crate) fn gate_of_slot(head: &Head, slot: Slot) -> Gate
    ensures { result ≡ gate_of head.now slot }
{
    match slot {
        Slot::First => head.first,
        Slot::Second => head.second,
    }
}

pub(crate) fn other_slot(slot: Slot) -> Slot
    ensures { result ≡ spec_other_slot slot }
{
    match slot {
        Slot::First => Slot::Second,
        Slot::Second => Slot::First,
    }
}

/// The slot that doesn't hold the newest table; the first, where both hold it.
pub fn spare_slot(head: &Head) -> Slot
    ensures spare { IsSpareSlot head.now result }
    ensures tie { result ≡ Slot.Second → IsSpareSlot head.now Slot.First → ⊥ }
{
    match (head.first, head.second) {
        (Gate::Open { .. }, Gate::Closed) => Slot::Second,
        (Gate::Open { mark: first, .. }, Gate::Open { mark: second, .. })
            if second.is_below(first) => Slot::Second,
        _ => Slot::First,
    }
}

/// The greatest claim or boot number that the replica has.
pub fn greatest_of(head: &Head) -> u64
    ensures { result ≡ greatest head.now }
{
    head.claim
        .max(boot_number(&head.first).max(boot_number(&head.second)))
}

fn boot_number(gate: &Gate) -> u64
    ensures { result ≡ boot_of gate.now }
{
    match gate {
        Gate::Closed => 0,
        Gate::Open { mark, .. } => mark.boot,
    }
}
