//! The stimuli of each net, from a stimulus text.
ghost use Rattle.std.specs.Prelude.{◌≡◌, ◌≢◌, ◌<◌, ◌-◌, ◌^◌, [], length, map, min, replicate, nat_lt, true, option_map, slice_get, IfOk};
ghost use Rattle.std.specs.Option.{option_map_or};
ghost use Rattle.std.specs.Result.{result_map_both};
ghost use Rattle.logic3.specs.declared.change.Change.{Change};
ghost use Rattle.texts.specs.Text.{longest_text};
ghost use Rattle.netlist.specs.Netlist.{net_at};
ghost use Rattle.timing_text.specs.Stimuli.{StimulusLine, stimuli_by_net, stimulus_in, stimulus_or_fault};

use crate::fault::StimulusFault;
use crate::limits::MOST_TICKS;
use crate::words::value_of;
use flat_lists::FlatLists;
use logic3::Change;
use netlist::Netlist;
use std::alloc::{AllocError, Global};
use texts::{LONGEST_TEXT, code_lines, is_plain, number, words_of};

/// The change that a line gives a net.
#[derive(Clone, Copy)]
struct NetChange {
    net: u32,
    change: Change,
}

/// Returns the stimuli of each net, by net number. Only inputs have any.
///
/// # Errors
/// The first fault of the text, in the order of [`StimulusFault`], or [`StimulusFault::Memory`] if an
/// allocation fails. A text that is too long is refused before anything is allocated.
pub fn read_stimuli(
    alloc: Global,
    netlist: &Netlist,
    text: &[u8],
) -> Result<FlatLists<Change>, StimulusFault>
    ensures stimuli { result ≢ Err StimulusFault.Memory → result ≡ stimuli_by_net netlist.now text.now }
    ensures at_once { longest_text < length text.now → result ≡ Err StimulusFault.TooLong }
{
    if text.len() > LONGEST_TEXT {
        return Err(StimulusFault::TooLong);
    }
    let mut stimuli = no_changes(alloc, netlist.nets())?;
    for (line, code) in code_lines(text) {
        let given = net_change(netlist, line, code)?;
        let changes = &mut stimuli[given.net as usize];
        if !is_after(given.change.tick, changes) {
            return Err(StimulusFault::NotRising { line });
        }
        changes.push(given.change)?;
    }
    Ok(FlatLists::of_lists(alloc, stimuli.as_slice())?)
}

/// Returns an empty list of changes for each of `nets` nets.
fn no_changes(alloc: Global, nets: u32) -> Result<Vec<Vec<Change>>, AllocError>
    ensures { IfOk result (λ stimuli.
        map (λ changes. changes.items) stimuli.items ≡ replicate nets []) }
{
    let mut stimuli = Vec::with_capacity(alloc, nets as usize)?;
    for _net in 0..nets {
        stimuli.push(Vec::new(alloc))?;
    }
    Ok(stimuli)
}

/// Returns whether the tick is above that of the last change.
fn is_after(tick: u64, changes: &[Change]) -> bool
    ensures { result
        ≡ option_map_or (λ (last : Change). nat_lt last.tick tick) (slice_get changes.now (length changes.now - 1)) true }
{
    changes.last().is_none_or(|last| last.tick < tick)
}

/// Returns the change on the line with this number, or its first fault. `code` is the line without its
/// comment.
fn net_change(netlist: &Netlist, line: u64, code: &[u8]) -> Result<NetChange, StimulusFault>
    ensures net { IfOk result (λ given. given.net < length netlist.now.nets) }
    ensures change { result_map_both (λ given. record { name = (net_at netlist.now given.net).name; change = given.change })
        (λ fault. fault) result
        ≡ stimulus_or_fault netlist.now (line, code.now) }
{
    let Some((tick, name, word)) = tick_name_and_word(code) else {
        return Err(StimulusFault::BadLine { line });
    };
    let Some(net) = netlist.find(name) else {
        return Err(StimulusFault::UnknownNet { line });
    };
    if !netlist.part(net).is_input() {
        return Err(StimulusFault::NotAnInput { line });
    }
    if tick > MOST_TICKS {
        return Err(StimulusFault::TickTooLarge { line });
    }
    let Some(value) = value_of(word) else {
        return Err(StimulusFault::BadValue { line });
    };
    Ok(NetChange {
        net,
        change: Change { tick, value },
    })
}

/// Returns the number, the name and the word for a value on a line, if the line consists of these.
fn tick_name_and_word(code: &[u8]) -> Option<(u64, &[u8], &[u8])>
    ensures { option_map (λ found. record { tick = found.0; name = found.1.now; value = found.2.now }) result
        ≡ option_map (λ (s : StimulusLine). record s { tick = min (2 ^ 64 - 1) s.tick })
        (stimulus_in code.now) }
{
    if !is_plain(code) {
        return None;
    }
    let mut words = words_of(code);
    let (Some(tick), Some(name), Some(value), None) = (
        words.next(),
        words.next(),
        words.next(),
        words.next(),
    ) else {
        return None;
    };
    Some((number(tick)?, name, value))
}
