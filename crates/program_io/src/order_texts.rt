//! The texts of an order's files.
ghost use Rattle.std.specs.Prelude.{◌≡◌, IfErr, IfOk, OnOk};
ghost use Rattle.program_io.specs.Options.{IsRead, ReadsFiles, ReadsOrder, text_named, texts_on};
ghost use Rattle.program_io.specs.Readings.{ReadsAll, StopsBy, files_of, if_named, names_in};

use crate::ProgramFault;
use crate::input::MOST_READ;
use crate::named_texts::Texts;
use command_line::{Files, Order, ReadTexts};
use prepared_runs::RunTexts;
use std::alloc::Global;
use wave_diff::Side;

/// The texts of an order's files as they were read: each text whole, or its first 16,777,217 bytes. The text of a
/// file that isn't named is empty.
#[derive(Debug, Drop)]
pub struct OrderTexts {
    /// Those of the first run, or of the only one, or a netlist alone.
    pub first: ReadTexts,
    /// Those of the second run, if there are two.
    pub second: ReadTexts,
}

impl OrderTexts {
    /// Returns the texts of the run on a side.
    pub fn on(&self, side: Side) -> &ReadTexts
        ensures { result.now ≡ texts_on self.now side }
    {
        match side {
            Side::First => &self.first,
            Side::Second => &self.second,
        }
    }
}

/// Reads the order's files: netlist, delays, stimuli and schedule, those of a first run before those of a
/// second. Checks neither the settings nor the texts.
///
/// # Errors
/// `Read` for the first file that can't be read, `Memory` if an allocation fails. The files after it aren't
/// requested.
pub fn read_texts<'a, T: Texts>(
    alloc: Global,
    order: &Order<'a>,
    texts: &mut T,
) -> Result<OrderTexts, ProgramFault<'a>>
    ensures ok { IfOk result (ReadsOrder (T.known texts.old) order.now) }
    ensures read { OnOk result
        (ReadsAll (files_of order.now) (T.readings texts.old) (T.readings texts.new)) }
    ensures err { IfErr result
        (StopsBy (files_of order.now) (T.readings texts.old) (T.readings texts.new)) }
{
    let first = read_files(alloc, order.files(Side::First), texts)?;
    let second = read_files(alloc, order.files(Side::Second), texts)?;
    Ok(OrderTexts { first, second })
}

/// Reads these files in the order netlist, delays, stimuli, schedule.
fn read_files<'a, T: Texts>(
    alloc: Global,
    files: Files<'a>,
    texts: &mut T,
) -> Result<ReadTexts, ProgramFault<'a>>
    ensures ok { IfOk result (ReadsFiles (T.known texts.old) files.entry) }
    ensures read { OnOk result
        (ReadsAll (names_in files.entry) (T.readings texts.old) (T.readings texts.new)) }
    ensures err { IfErr result
        (StopsBy (names_in files.entry) (T.readings texts.old) (T.readings texts.new)) }
    ensures stays { T.known texts.new ≡ T.known texts.old }
{
    let bench = file_text(alloc, texts, files.bench)?;
    let delays = file_text(alloc, texts, files.delays)?;
    let stimuli = file_text(alloc, texts, files.stimuli)?;
    let schedule = file_text(alloc, texts, files.schedule)?;
    Ok(RunTexts {
        bench,
        delays,
        stimuli,
        schedule,
    })
}

/// Returns the text of a file, or the empty text if none is named. Of a text that is too long to be accepted,
/// it keeps one byte more than the longest accepted text has.
fn file_text<'a, T: Texts>(
    alloc: Global,
    texts: &mut T,
    name: Option<&'a str>,
) -> Result<Vec<u8>, ProgramFault<'a>>
    ensures ok { IfOk result (λ text. IsRead (text_named (T.known texts.old) name.entry) text.items) }
    ensures read { OnOk result
        (ReadsAll (if_named name.entry) (T.readings texts.old) (T.readings texts.new)) }
    ensures err { IfErr result
        (StopsBy (if_named name.entry) (T.readings texts.old) (T.readings texts.new)) }
    ensures stays { T.known texts.new ≡ T.known texts.old }
{
    let Some(name) = name else {
        return Ok(Vec::new(alloc));
    };
    match texts.text(name) {
        Ok(mut text) => {
            text.truncate(MOST_READ);
            Ok(text)
        }
        Err(fault) => Err(ProgramFault::of_read(fault, name)),
    }
}
