//! Names of nets in texts.
ghost use Rattle.std.specs.Prelude.{◌≡◌, ◌<◌, ◌++◌, length, All, OnOk};
ghost use Rattle.netlist.specs.Text.{names_behind};

use crate::netlist::Netlist;
use std::alloc::AllocError;

/// Adds the names of these nets to a text, with a space before each.
///
/// # Errors
///
/// `AllocError` if an allocation fails; a prefix of the names may have been added.
pub fn push_names(text: &mut Vec<u8>, netlist: &Netlist, nets: &[u32]) -> Result<(), AllocError>
    requires { All (λ net. net < length netlist.now.nets) nets.now }
    ensures { OnOk result (text.new.items ≡ text.old.items ++ names_behind netlist.now nets.now) }
{
    for net in nets {
        text.push(b' ')?;
        text.extend_from_slice(netlist.name(*net))?;
    }
    Ok(())
}
