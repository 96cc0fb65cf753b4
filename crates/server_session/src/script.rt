//! A client's script, as it stands in the net and by its numbers.
ghost use Rattle.std.specs.Prelude.{◌≡◌, ◌<◌, ◌+◌, length, Some, slice_get};
ghost use Rattle.net_model.specs.Parts.{ClientParts};
ghost use Rattle.net_tables.specs.Numbered.{catalogued, AreNumbered};

use net_model::Command;
use net_tables::{NumberedCommand, Tables};

/// The script of the client at a place.
pub(crate) fn script_at<'a>(tables: &'a Tables<'a>, place: usize) -> &'a [(u32, Command)]
    requires { place < length tables.now.clients }
    ensures { (c : ClientParts) → slice_get tables.now.clients place ≡ Some c → result.now ≡ c.script }
{
    let client = &tables.net().clients[place];
    &client.script
}

/// Its commands by numbers.
pub(crate) fn steps_at<'a>(tables: &'a Tables<'a>, place: usize) -> &'a [(u32, NumberedCommand)]
    requires { place < length tables.now.clients }
    ensures { (c : ClientParts) → slice_get tables.now.clients place ≡ Some c
        → AreNumbered (catalogued tables.now.clients) (1 + place) 0 result.now c.script }
{
    tables.catalogue().lemma_sound();
    let scripts = tables.catalogue().scripts();
    scripts[place].as_slice()
}
