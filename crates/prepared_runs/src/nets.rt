//! The nets of a run by name, those that its dump shows, and marks of nets.
ghost use Rattle.std.specs.Prelude.{◌≡◌, ℕ, ◌<◌, false, length, slice_index_or, All, IfOk, IfErr, IsTrue, OnOk};
ghost use Rattle.design.specs.Design.{IsDesign};
ghost use Rattle.prepared_runs.specs.Ends.{IsRefusal};
ghost use Rattle.prepared_runs.specs.Marked.{is_among};
ghost use Rattle.prepared_runs.specs.Source.{if_known, knows_shown, net_or_unknown, shown_nets};

use crate::fault::SimFault;
use crate::view::Selection;
use design::Design;
use net_words::nets_of_words;
use netlist::without_repeats;
use std::alloc::{AllocError, Global};

/// Returns the numbers of the nets that are shown, in their order.
///
/// # Errors
/// [`SimFault::UnknownNet`] if one of the words means no net.
pub fn shown_nets(
    alloc: Global,
    design: &Design,
    show: &Selection<'_>,
) -> Result<Vec<u32>, SimFault>
    ensures nets { IfOk result (λ nets. nets.items ≡ shown_nets show.now design.now.netlist) }
    ensures known { OnOk result (IsTrue (knows_shown show.now design.now.netlist)) }
    ensures err { IfErr result
        (IsRefusal (if_known show.now design.now.netlist (shown_nets show.now design.now.netlist))) }
    ensures well_formed { IsDesign design.now }
{
    let nets = design.nets();
    match show {
        Selection::All => Ok((0..nets).collect(alloc)?),
        Selection::Outputs => Ok(Vec::from_slice(alloc, design.netlist().outputs())?),
        Selection::Named(words) => {
            let meant = nets_of_words(alloc, design.netlist(), words.as_slice())?;
            let meant = meant.ok_or(SimFault::UnknownNet)?;
            Ok(without_repeats(alloc, meant.as_slice(), nets as usize)?)
        }
    }
}

/// Returns the number of the net of this name.
///
/// # Errors
/// [`SimFault::UnknownNet`] if there is none.
pub fn net_named(design: &Design, name: &[u8]) -> Result<u32, SimFault>
    ensures { result ≡ net_or_unknown design.now name.now }
{
    design.find(name).ok_or(SimFault::UnknownNet)
}

/// Returns for each of this number of nets whether it is among these.
///
/// # Errors
/// An allocation failed.
pub fn marks_of(alloc: Global, nets: u32, among: &[u32]) -> Result<Vec<bool>, AllocError>
    requires { All (λ net. net < nets) among.now }
    ensures size { IfOk result (λ marks. length marks.items ≡ nets) }
    ensures marks { IfOk result (λ marks.
        (net : ℕ) → slice_index_or marks.items net false ≡ is_among among.now net) }
{
    let mut marks = vec![in alloc; false; nets as usize]?;
    for net in among {
        marks[*net as usize] = true;
    }
    Ok(marks)
}
