//! The lines of a trace, as text.
ghost use Rattle.std.specs.Prelude.{◌≡◌, ◌↔◌, ◌++◌, flat_map, IsTrue, OnOk};
ghost use Rattle.cmb_channels.specs.declared.message.Message.TheVariants.{Change as Changes};
ghost use Rattle.event_trace.specs.Lines.{spaced_text, messages_text, advance_text, deliver_text, round_text, counts_line};
ghost use Rattle.event_trace.specs.Told.{told_by, told_to};

use cmb_kernel::Counts;
use logic3::Change;
use std::alloc::AllocError;
use texts::push_numbered;

fn push_change(text: &mut Vec<u8>, change: Change) -> Result<(), AllocError>
    ensures { OnOk result (text.new.items ≡ text.old.items ++ spaced_text (Changes change)) }
{
    text.push(b' ')?;
    text.extend_from_slice(change.value.text().as_bytes())?;
    push_numbered(text, b"@", change.tick)
}

fn push_changes(text: &mut Vec<u8>, changes: &[Change]) -> Result<(), AllocError>
    ensures { OnOk result (text.new.items ≡
        text.old.items ++ flat_map (λ change. spaced_text (Changes change)) changes.now) }
{
    for change in changes {
        push_change(text, *change)?;
    }
    Ok(())
}

// Returns whether some changes make a net known up to the tick `to`, if it is known up to `from`.
fn tell_up_to(changes: &[Change], from: u64, to: u64) -> bool
    ensures { IsTrue result ↔ (told_to from changes.now ≡ to) }
{
    match changes.last() {
        Some(change) => change.tick < to && to - change.tick == 1,
        None => from == to,
    }
}

// Adds the messages that make a net known from one tick up to another, between which it has these changes.
fn push_messages(
    text: &mut Vec<u8>,
    changes: &[Change],
    from: u64,
    to: u64,
) -> Result<(), AllocError>
    ensures { OnOk result (text.new.items ≡
        text.old.items ++ messages_text (told_by changes.now from to)) }
{
    if to == from {
        text.extend_from_slice(b" idle")?;
        return Ok(());
    }
    push_changes(text, changes)?;
    if tell_up_to(changes, from, to) {
        return Ok(());
    }
    push_numbered(text, b" null ", to)
}

/// Adds the line of an advance from one frontier to another, between which the net has these changes.
pub fn push_advance(
    text: &mut Vec<u8>,
    name: &[u8],
    from: u64,
    to: u64,
    changes: &[Change],
) -> Result<(), AllocError>
    ensures { OnOk result (text.new.items ≡
        text.old.items ++ advance_text name.now from to (told_by changes.now from to)) }
{
    text.extend_from_slice(b"advance ")?;
    text.extend_from_slice(name)?;
    push_numbered(text, b" ", from)?;
    push_numbered(text, b" -> ", to)?;
    text.push(b':')?;
    push_messages(text, changes, from, to)?;
    text.push(b'\n')?;
    Ok(())
}

/// Adds the line of a delivery that raises the pin's frontier from one tick to another, between which its
/// source has these changes.
pub fn push_delivery(
    text: &mut Vec<u8>,
    name: &[u8],
    place: u32,
    from: u64,
    to: u64,
    changes: &[Change],
) -> Result<(), AllocError>
    ensures { OnOk result (text.new.items ≡
        text.old.items ++ deliver_text name.now place (told_by changes.now from to)) }
{
    text.extend_from_slice(b"deliver ")?;
    text.extend_from_slice(name)?;
    push_numbered(text, b" ", u64::from(place))?;
    text.push(b':')?;
    push_messages(text, changes, from, to)?;
    text.push(b'\n')?;
    Ok(())
}

/// Adds the line before the events of a round.
pub fn push_round(text: &mut Vec<u8>, number: u64) -> Result<(), AllocError>
    ensures { OnOk result (text.new.items ≡ text.old.items ++ round_text number) }
{
    push_numbered(text, b"round ", number)?;
    text.push(b'\n')?;
    Ok(())
}

/// Adds the line of counts.
pub fn push_counts(text: &mut Vec<u8>, counts: Counts) -> Result<(), AllocError>
    ensures { OnOk result (text.new.items ≡ text.old.items ++ counts_line counts) }
{
    push_numbered(text, b"events ", counts.events)?;
    push_numbered(text, b" changes ", counts.changes)?;
    push_numbered(text, b" nulls ", counts.nulls)?;
    push_numbered(text, b" rounds ", counts.rounds)?;
    text.push(b'\n')?;
    Ok(())
}
