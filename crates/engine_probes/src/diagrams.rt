//! Timing diagrams: one that isn't drawn leaves the output unchanged.

use crate::circuit_texts::inverter;
use crate::following::Follower;
use crate::telling::Teller;
use Form::{Svg, Text, WaveJson};
use design::{Design, plain_waves};
use logic3::Waveform;
use std::alloc::Global;
use std::io::Write;
use timing_diagram::{Bus, Columns, Form, draw};
use timing_text::Horizon;
use vcd_dump::DumpFault;

/// What an inverter and its input show at ticks 2 and 3, each alone and both as a bus.
const LINES: &[u8] = b"    2.........\na   _/\ny   --\nay  13\n";

/// The same as a picture.
const PICTURE: &[u8] =
    b"<svg xmlns=\"http://www.w3.org/2000/svg\" width=\"132\" height=\"130\" viewBox=\"0 0 132 130\" role=\"img\" class=\"nullsim\" color=\"black\" fill=\"currentColor\" font-family=\"monospace\" font-size=\"12\">\n\
      <title>Timing diagram by nullsim</title>\n\
      <style>@media screen and (prefers-color-scheme: dark) { .nullsim { color: #ddd } .nullsim rect { fill: #111 } }</style>\n\
      <rect width=\"100%\" height=\"100%\" fill=\"white\"/>\n\
      <path d=\"M32 20V130\" stroke=\"currentColor\" stroke-opacity=\"0.2\"/><text y=\"14\" x=\"32\">2</text>\n\
      <text x=\"8\" y=\"44\">a</text><path transform=\"translate(32 30)\" d=\"M0 16h10M10 16v-16h10\" fill=\"none\" stroke=\"currentColor\"/>\n\
      <text x=\"8\" y=\"74\">y</text><path transform=\"translate(32 60)\" d=\"M0 0h10M10 0h10\" fill=\"none\" stroke=\"currentColor\"/>\n\
      <text x=\"8\" y=\"104\">ay</text><path transform=\"translate(32 90)\" d=\"M0 0h10v16h-10zM10 0h10v16h-10z\" fill=\"none\" stroke=\"currentColor\"/>\n\
      <text x=\"34\" y=\"102\">1</text>\n\
      <text x=\"44\" y=\"102\">3</text>\n\
      </svg>\n";

/// The same as WaveJSON.
const WAVES: &[u8] = b"{\"foot\":{\"tick\":[\"2\",\"\",\"\",\"\",\"\",\"\",\"\",\"\",\"\",\"\"]},\
      \"signal\":[{\"name\":\"a\",\"wave\":\"01\"},{\"name\":\"y\",\"wave\":\"1.\"},\
      {\"data\":[\"1\",\"3\"],\"name\":\"ay\",\"wave\":\"==\"}]}\n";

/// Probes all forms.
pub(crate) fn probe<W: Write>(alloc: Global, teller: &mut Teller<W>) -> Option<()> {
    let design = inverter(alloc, teller)?;
    let waves = plain_waves(alloc, &design, Horizon::new(5).ok()?);
    let waves = teller.told("plain_waves", waves)?;
    let bits = plain_waves(alloc, &design, Horizon::new(5).ok()?);
    let bits = teller.told("plain_waves", bits)?;
    let buses = [Bus { name: b"ay", bits }];
    drawn(
        alloc,
        teller,
        &design,
        waves.as_slice(),
        &buses,
        Text,
        LINES,
    )?;
    drawn(
        alloc,
        teller,
        &design,
        waves.as_slice(),
        &buses,
        Svg,
        PICTURE,
    )?;
    drawn(
        alloc,
        teller,
        &design,
        waves.as_slice(),
        &buses,
        WaveJson,
        WAVES,
    )
}

/// Draws both nets, and these buses.
fn drawn<W: Write>(
    alloc: Global,
    teller: &mut Teller<W>,
    design: &Design,
    waves: &[Waveform],
    buses: &[Bus<'_>],
    form: Form,
    text: &'static [u8],
) -> Option<()> {
    if design.nets() < 2 || waves.len() != 2 {
        return None;
    }
    let columns = Columns::new(2, 3, 1, false, Horizon::new(5).ok()?).ok()?;
    let mut out = Follower::of(text);
    let Err(fault) = draw(
        alloc,
        &mut out,
        design,
        &[0, 1],
        waves,
        buses,
        columns,
        form,
    ) else {
        return teller.fine("timing_diagram::draw", out.is_whole());
    };
    let same = fault == DumpFault::Memory && out.follows() && out.left() == text.len();
    let again = same
        && draw(
            alloc,
            &mut out,
            design,
            &[0, 1],
            waves,
            buses,
            columns,
            form,
        )
        .is_ok();
    teller.refused("timing_diagram::draw", again && out.is_whole());
    None
}
