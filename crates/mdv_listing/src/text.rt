ghost use Rattle.std.specs.Prelude.{◌≡◌, None, IfOk};
ghost use Rattle.mdv_listing.specs.Listing.{listing_of};
ghost use Rattle.mdv_print.specs.Text.{set_of};

use mdv_base::{Key, Name, Named};
use mdv_plan::Table;
use mdv_print::{print_named, print_tab};
use std::alloc::{AllocError, Global};

// The print of a local database names no host.
const HOST: &[u8] = b"local";

/// The volumes of the table as the text of an md.tab, a line for each: all of them in ascending order
/// where no name is given, and else those of these names, in their order. A name that the table
/// doesn't have has no line. It fails only where memory is refused.
pub fn listing(alloc: Global, table: &Table, names: &[Named]) -> Result<Vec<u8>, AllocError>
    ensures { IfOk result (λ text. text.items ≡ listing_of table.now.plan names.now) }
{
    let key = local();
    let mut text = Vec::new(alloc);
    if names.is_empty() {
        print_tab(&key, table, &mut text)?;
    } else {
        print_named(&key, table, names, &mut text)?;
    }
    Ok(text)
}

fn local() -> Key
    ensures { set_of result ≡ None }
{
    match Name::new(HOST) {
        Some(host) => Key::Local(host),
        None => unreachable!(),
    }
}
