// How places are formatted.
ghost use Rattle.std.specs.Prelude.{◌<◌, ◌^◌, [], ◌∷◌, OnErr, OnOk};
ghost use Rattle.mdv_replica.specs.Replica.{IsPlaced, master_of};
ghost use Rattle.mdv_acts.specs.Acts.{ArePlaced, Forms, HaveGone, HaveStopped, forms_asked, forms_on};
ghost use Rattle.mdv_acts.specs.Asked.{AreAsked, drives_asked};

use crate::place::place_at;
use mdv_base::{Failed, Identity, Key};
use mdv_name::SliceLine;
use mdv_replica::{PlaceAt, format};
use mdv_shelf::Shelf;

/// Whose replicas places get, and the number that these claim.
#[derive(Clone, Copy)]
pub struct Owner {
    pub key: Key,
    pub identity: Identity,
    pub claim: u64,
}

/// Formats these places, slice after slice, and of each slice the first place first. Behind a failed call none is formatted.
pub fn format_all<S: Shelf>(
    shelf: &mut S,
    owner: &Owner,
    lines: &[SliceLine],
    count: u8,
    blocks: u32,
) -> Result<(), Failed>
    requires number { owner.now.claim < 2 ^ 63 }
    requires asked { AreAsked (S.sizes shelf.old) lines.now count blocks }
    ensures gone { OnOk result (HaveGone S.Shelf shelf.old shelf.new (drives_asked lines.now) (forms_asked owner.now.key owner.now.identity owner.now.claim lines.now count blocks)) }
    ensures stopped { OnErr result (HaveStopped S.Shelf shelf.old shelf.new (drives_asked lines.now) (forms_asked owner.now.key owner.now.identity owner.now.claim lines.now count blocks)) }
{
    for line in lines {
        format_slice(shelf, owner, *line, count, blocks)?;
    }
    Ok(())
}

fn format_slice<S: Shelf>(
    shelf: &mut S,
    owner: &Owner,
    line: SliceLine,
    count: u8,
    blocks: u32,
) -> Result<(), Failed>
    requires number { owner.now.claim < 2 ^ 63 }
    requires placed { ArePlaced (S.sizes shelf.old) line count blocks }
    ensures gone { OnOk result (HaveGone S.Shelf shelf.old shelf.new (line.at.drive ∷ []) (forms_on owner.now.key owner.now.identity owner.now.claim count blocks line)) }
    ensures stopped { OnErr result (HaveStopped S.Shelf shelf.old shelf.new (line.at.drive ∷ []) (forms_on owner.now.key owner.now.identity owner.now.claim count blocks line)) }
{
    for number in 0..count {
        form(shelf, owner, place_at(line, blocks, count, number))?;
    }
    Ok(())
}

fn form<S: Shelf>(shelf: &mut S, owner: &Owner, at: PlaceAt) -> Result<(), Failed>
    requires number { owner.now.claim < 2 ^ 63 }
    requires placed { IsPlaced (S.sizes shelf.old) at }
    ensures gone { OnOk result (HaveGone S.Shelf shelf.old shelf.new (at.drive ∷ []) (Forms at (master_of at owner.now.key owner.now.identity) owner.now.claim ∷ [])) }
    ensures stopped { OnErr result (HaveStopped S.Shelf shelf.old shelf.new (at.drive ∷ []) (Forms at (master_of at owner.now.key owner.now.identity) owner.now.claim ∷ [])) }
{
    format(shelf, at, &owner.key, owner.identity, owner.claim)?;
    Ok(())
}
