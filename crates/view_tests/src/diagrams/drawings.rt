//! The worked circuits, drawn.
use crate::diagrams::circuits::{CROSSING, Circuit, HAZARD, INVERTER, MARKED, S27, SAMPLER};
use Form::{Svg, Text, WaveJson};
use design::{Design, plain_waves};
use logic3::Waveform;
use std::alloc::Global;
use std::process::Abort;
use std::test::Fail;
use timing_diagram::{Bus, Columns, Form, draw};
use timing_text::Horizon;

// A circuit, its horizon, the ticks from one to another by a step, a form, and what is drawn.
type Row = (Circuit, u64, (u64, u64, u64), Form, &'static [u8]);

const INVERTER_SVG: &[u8] =
    b"<svg xmlns=\"http://www.w3.org/2000/svg\" width=\"164\" height=\"100\" viewBox=\"0 0 164 100\" role=\"img\" class=\"nullsim\" color=\"black\" fill=\"currentColor\" font-family=\"monospace\" font-size=\"12\">\n\
      <title>Timing diagram by nullsim</title>\n\
      <style>@media screen and (prefers-color-scheme: dark) { .nullsim { color: #ddd } .nullsim rect { fill: #111 } }</style>\n\
      <rect width=\"100%\" height=\"100%\" fill=\"white\"/>\n\
      <path d=\"M24 20V100\" stroke=\"currentColor\" stroke-opacity=\"0.2\"/><text y=\"14\" x=\"24\">0</text>\n\
      <text x=\"8\" y=\"44\">a</text><path transform=\"translate(24 30)\" d=\"M0 16h10M10 16h10M20 16h10M30 16v-16h10M40 0h10M50 0h10\" fill=\"none\" stroke=\"currentColor\"/>\n\
      <text x=\"8\" y=\"74\">y</text><path transform=\"translate(24 60)\" d=\"M0 0h10m-10 16h10m-10 0l10-16M10 16v-16h10M20 0h10M30 0h10M40 0v16h10M50 16h10\" fill=\"none\" stroke=\"currentColor\"/>\n\
      </svg>\n";

// The line of the grid is at tick 10, not at the first column.
const ROUND_SVG: &[u8] =
    b"<svg xmlns=\"http://www.w3.org/2000/svg\" width=\"224\" height=\"100\" viewBox=\"0 0 224 100\" role=\"img\" class=\"nullsim\" color=\"black\" fill=\"currentColor\" font-family=\"monospace\" font-size=\"12\">\n\
      <title>Timing diagram by nullsim</title>\n\
      <style>@media screen and (prefers-color-scheme: dark) { .nullsim { color: #ddd } .nullsim rect { fill: #111 } }</style>\n\
      <rect width=\"100%\" height=\"100%\" fill=\"white\"/>\n\
      <path d=\"M94 20V100\" stroke=\"currentColor\" stroke-opacity=\"0.2\"/><text y=\"14\" x=\"94\">10</text>\n\
      <text x=\"8\" y=\"44\">a</text><path transform=\"translate(24 30)\" d=\"M0 0h10M10 0h10M20 0h10M30 0h10M40 0h10M50 0h10M60 0h10M70 0h10M80 0h10M90 0h10M100 0h10M110 0h10\" fill=\"none\" stroke=\"currentColor\"/>\n\
      <text x=\"8\" y=\"74\">y</text><path transform=\"translate(24 60)\" d=\"M0 0h10M10 0v16h10M20 16h10M30 16h10M40 16h10M50 16h10M60 16h10M70 16h10M80 16h10M90 16h10M100 16h10M110 16h10\" fill=\"none\" stroke=\"currentColor\"/>\n\
      </svg>\n";

// If a net changes within a column, there is a cross.
const HAZARD_SVG: &[u8] =
    b"<svg xmlns=\"http://www.w3.org/2000/svg\" width=\"134\" height=\"130\" viewBox=\"0 0 134 130\" role=\"img\" class=\"nullsim\" color=\"black\" fill=\"currentColor\" font-family=\"monospace\" font-size=\"12\">\n\
      <title>Timing diagram by nullsim</title>\n\
      <style>@media screen and (prefers-color-scheme: dark) { .nullsim { color: #ddd } .nullsim rect { fill: #111 } }</style>\n\
      <rect width=\"100%\" height=\"100%\" fill=\"white\"/>\n\
      <path d=\"M24 20V130\" stroke=\"currentColor\" stroke-opacity=\"0.2\"/><text y=\"14\" x=\"24\">4</text>\n\
      <text x=\"8\" y=\"44\">a</text><path transform=\"translate(24 30)\" d=\"M0 0l10 16m-10 0l10-16M10 0h10M20 0h10\" fill=\"none\" stroke=\"currentColor\"/>\n\
      <text x=\"8\" y=\"74\">b</text><path transform=\"translate(24 60)\" d=\"M0 16h10M10 16v-16h10M20 0h10\" fill=\"none\" stroke=\"currentColor\"/>\n\
      <text x=\"8\" y=\"104\">y</text><path transform=\"translate(24 90)\" d=\"M0 16h10M10 0l10 16m-10 0l10-16M20 16h10\" fill=\"none\" stroke=\"currentColor\"/>\n\
      </svg>\n";

const MARKED_SVG: &[u8] =
    b"<svg xmlns=\"http://www.w3.org/2000/svg\" width=\"154\" height=\"70\" viewBox=\"0 0 154 70\" role=\"img\" class=\"nullsim\" color=\"black\" fill=\"currentColor\" font-family=\"monospace\" font-size=\"12\">\n\
      <title>Timing diagram by nullsim</title>\n\
      <style>@media screen and (prefers-color-scheme: dark) { .nullsim { color: #ddd } .nullsim rect { fill: #111 } }</style>\n\
      <rect width=\"100%\" height=\"100%\" fill=\"white\"/>\n\
      <path d=\"M64 20V70\" stroke=\"currentColor\" stroke-opacity=\"0.2\"/><text y=\"14\" x=\"64\">7</text>\n\
      <text x=\"8\" y=\"44\">a&lt;b&amp;c&gt;</text><path transform=\"translate(64 30)\" d=\"M0 0h10m-10 16h10m-10 0l10-16\" fill=\"none\" stroke=\"currentColor\"/>\n\
      </svg>\n";

const S27_TEXT: &[u8] = b"     0.........10........20........30........\n\
      G0   ------------\\_______________________\n\
      G1   ----------------------\\_____________\n\
      G2   ____________/-----------------------\n\
      G3   ______________________/-------------\n\
      G5   xxxxxxxxxxx/---------\\______________\n\
      G6   xxxxxxxxxxx\\___________________/----\n\
      G7   xxxxxxxxxxx/---------\\______________\n\
      G14  x\\___________/----------------------\n\
      G17  xxxxxx/--------------------\\________\n\
      G8   xx\\_____________________________/---\n\
      G15  xxx\\____________________/-----------\n\
      G16  xxx\\___________________/------------\n\
      G9   xxxx/--------------------\\__________\n\
      G10  xxxxxx/-------\\_____________________\n\
      G11  xxxxx\\____________________/---------\n\
      G12  x\\_____________________/------------\n\
      G13  xx/----------\\______________________\n";

// A tick above each column that has one in the text, and the characters of the columns.
const INVERTER_WAVES: &[u8] =
    b"{\"foot\":{\"tick\":[\"0\",\"\",\"\",\"\",\"\",\"\",\"\",\"\",\"\",\"\"]},\
      \"signal\":[{\"name\":\"a\",\"wave\":\"0..1..\"},{\"name\":\"y\",\"wave\":\"x1..0.\"}]}\n";

const HAZARD_WAVES: &[u8] =
    b"{\"foot\":{\"tick\":[\"0\",\"\",\"\",\"\",\"\",\"\",\"\",\"\",\"\",\"\"]},\
      \"signal\":[{\"name\":\"a\",\"wave\":\"0.|1.\"},{\"name\":\"b\",\"wave\":\"|0.1.\"},\
      {\"name\":\"y\",\"wave\":\"x0.|0\"}]}\n";

static DRAWN: [Row; 15] = [
    (
        INVERTER,
        5,
        (0, 5, 1),
        Text,
        b"   0.........\na  ___/--\ny  x/--\\_\n",
    ),
    (INVERTER, 5, (5, 5, 7), Text, b"   5.........\na  -\ny  _\n"),
    // Round ticks, whatever the first one: 10, and 30 in the column from 28 on.
    (
        INVERTER,
        14,
        (3, 14, 1),
        Text,
        b"   .......10........\na  ------------\ny  -\\__________\n",
    ),
    (
        INVERTER,
        41,
        (1, 41, 3),
        Text,
        b"   .........30........\na  |-------------\ny  -\\____________\n",
    ),
    (
        HAZARD,
        8,
        (0, 8, 1),
        Text,
        b"   0.........\na  _____/---\nb  x\\____/--\ny  xx\\___/\\_\n",
    ),
    (
        HAZARD,
        8,
        (0, 8, 2),
        Text,
        b"   0.........\na  __|--\nb  |__/-\ny  x\\_|_\n",
    ),
    (
        CROSSING,
        6,
        (0, 6, 1),
        Text,
        b"   0.........\na  ----\\__\nb  ____/--\ny  x\\_____\n",
    ),
    (
        SAMPLER,
        12,
        (0, 12, 1),
        Text,
        b"   0.........10........\nd  xxxx/\\_______\nq  xxxxx/---\\___\n",
    ),
    (S27, 35, (0, 35, 1), Text, S27_TEXT),
    (INVERTER, 5, (0, 5, 1), Svg, INVERTER_SVG),
    (INVERTER, 5, (0, 5, 1), WaveJson, INVERTER_WAVES),
    (HAZARD, 8, (0, 8, 2), WaveJson, HAZARD_WAVES),
    (INVERTER, 14, (3, 14, 1), Svg, ROUND_SVG),
    (HAZARD, 8, (4, 8, 2), Svg, HAZARD_SVG),
    (MARKED, 7, (7, 7, 1), Svg, MARKED_SVG),
];

const HAZARD_ENDS_SVG: &[u8] =
    b"<svg xmlns=\"http://www.w3.org/2000/svg\" width=\"134\" height=\"130\" viewBox=\"0 0 134 130\" role=\"img\" class=\"nullsim\" color=\"black\" fill=\"currentColor\" font-family=\"monospace\" font-size=\"12\">\n\
      <title>Timing diagram by nullsim</title>\n\
      <style>@media screen and (prefers-color-scheme: dark) { .nullsim { color: #ddd } .nullsim rect { fill: #111 } }</style>\n\
      <rect width=\"100%\" height=\"100%\" fill=\"white\"/>\n\
      <path d=\"M24 20V130\" stroke=\"currentColor\" stroke-opacity=\"0.2\"/><text y=\"14\" x=\"24\">4</text>\n\
      <text x=\"8\" y=\"44\">a</text><path transform=\"translate(24 30)\" d=\"M0 0h10M10 0h10M20 0h10\" fill=\"none\" stroke=\"currentColor\"/>\n\
      <text x=\"8\" y=\"74\">b</text><path transform=\"translate(24 60)\" d=\"M0 16h10M10 16v-16h10M20 0h10\" fill=\"none\" stroke=\"currentColor\"/>\n\
      <text x=\"8\" y=\"104\">y</text><path transform=\"translate(24 90)\" d=\"M0 16h10M10 16h10M20 16h10\" fill=\"none\" stroke=\"currentColor\"/>\n\
      </svg>\n";

// Columns that show the value at their last ticks: no column of theirs has a cross.
static ENDS: [Row; 3] = [
    (
        HAZARD,
        8,
        (0, 8, 2),
        Text,
        b"   0.........\na  __/--\nb  ___/-\ny  x\\___\n",
    ),
    (
        SAMPLER,
        12,
        (0, 12, 4),
        Text,
        b"   0.........\nd  x\\__\nq  x/\\_\n",
    ),
    (HAZARD, 8, (4, 8, 2), Svg, HAZARD_ENDS_SVG),
];

const BUS_SVG: &[u8] =
    b"<svg xmlns=\"http://www.w3.org/2000/svg\" width=\"180\" height=\"70\" viewBox=\"0 0 180 70\" role=\"img\" class=\"nullsim\" color=\"black\" fill=\"currentColor\" font-family=\"monospace\" font-size=\"12\">\n\
      <title>Timing diagram by nullsim</title>\n\
      <style>@media screen and (prefers-color-scheme: dark) { .nullsim { color: #ddd } .nullsim rect { fill: #111 } }</style>\n\
      <rect width=\"100%\" height=\"100%\" fill=\"white\"/>\n\
      <path d=\"M40 20V70\" stroke=\"currentColor\" stroke-opacity=\"0.2\"/><text y=\"14\" x=\"40\">0</text>\n\
      <text x=\"8\" y=\"44\">all</text><path transform=\"translate(40 30)\" d=\"M0 0h10v16h-10zM10 0h20v16h-20zM30 0h10v16h-10zM40 0h20v16h-20z\" fill=\"none\" stroke=\"currentColor\"/>\n\
      <text x=\"42\" y=\"42\">x</text>\n\
      <text x=\"52\" y=\"42\">1</text>\n\
      <text x=\"72\" y=\"42\">3</text>\n\
      <text x=\"82\" y=\"42\">2</text>\n\
      </svg>\n";

// All nets of a circuit as one bus. Seventeen bits have five digits, for which one column isn't enough.
const BUS_WAVES: &[u8] =
    b"{\"foot\":{\"tick\":[\"0\",\"\",\"\",\"\",\"\",\"\",\"\",\"\",\"\",\"\"]},\
      \"signal\":[{\"data\":[\"0\",\"6\"],\"name\":\"all\",\"wave\":\"|=||=\"}]}\n";

static BUSES: [Row; 5] = [
    (
        INVERTER,
        5,
        (0, 5, 1),
        Text,
        b"     0.........\nall  x1.32.\n",
    ),
    (HAZARD, 8, (0, 8, 2), Text, b"     0.........\nall  |0||6\n"),
    (S27, 4, (0, 4, 1), Text, b"     0.........\nall  #####\n"),
    (INVERTER, 5, (0, 5, 1), Svg, BUS_SVG),
    (HAZARD, 8, (0, 8, 2), WaveJson, BUS_WAVES),
];

// The diagram of these nets and buses is this text.
fn is_drawn(
    rt: &impl Abort,
    alloc: Global,
    design: &Design,
    shown: &[u32],
    waves: &[Waveform],
    buses: &[Bus<'_>],
    columns: Columns,
    form: Form,
    text: &[u8],
) {
    let nets = design.nets();
    assert!(rt; shown.iter().all(|net| *net < nets));
    assert!(rt; waves.len() == shown.len());
    assert!(rt; shown.len() as u64 <= u64::from(nets));
    let mut out = Vec::new(alloc);
    let answer = draw(alloc, &mut out, design, shown, waves, buses, columns, form);
    assert!(rt; answer == Ok(()));
    assert!(rt; out.as_slice() == text);
}

// The diagram of all nets. Its columns may show their ends.
fn shows(rt: &impl Abort, alloc: Global, row: &Row, at_end: bool) -> Result<(), Fail> {
    let (circuit, horizon, (from, to, step), form, text) = *row;
    let design = circuit.build(alloc)?;
    let horizon = Horizon::new(horizon)?;
    let waves = plain_waves(alloc, &design, horizon)?;
    let mut shown = Vec::new(alloc);
    for net in 0..design.nets() {
        shown.push(net)?;
    }
    let columns = Columns::new(from, to, step, at_end, horizon)?;
    is_drawn(
        rt,
        alloc,
        &design,
        shown.as_slice(),
        waves.as_slice(),
        &[],
        columns,
        form,
        text,
    );
    Ok(())
}

// The diagram of one bus, whose bits are all nets in their order.
fn shows_bus(rt: &impl Abort, alloc: Global, row: &Row) -> Result<(), Fail> {
    let (circuit, horizon, (from, to, step), form, text) = *row;
    let design = circuit.build(alloc)?;
    let horizon = Horizon::new(horizon)?;
    let bits = plain_waves(alloc, &design, horizon)?;
    let columns = Columns::new(from, to, step, false, horizon)?;
    let buses = [Bus { name: b"all", bits }];
    is_drawn(rt, alloc, &design, &[], &[], &buses, columns, form, text);
    Ok(())
}

#[test]
fn worked_circuits(rt: HostRuntime) -> Result<(), Fail> {
    for row in &DRAWN {
        shows(&rt, rt.alloc(), row, false)?;
    }
    Ok(())
}

#[test]
fn buses(rt: HostRuntime) -> Result<(), Fail> {
    for row in &BUSES {
        shows_bus(&rt, rt.alloc(), row)?;
    }
    Ok(())
}

#[test]
fn ends_of_columns(rt: HostRuntime) -> Result<(), Fail> {
    for row in &ENDS {
        shows(&rt, rt.alloc(), row, true)?;
    }
    Ok(())
}

#[test]
fn no_net(rt: HostRuntime) -> Result<(), Fail> {
    let design = INVERTER.build(rt.alloc())?;
    let columns = Columns::new(3, 14, 1, false, Horizon::new(14)?)?;
    let text = b"  .......10........\n";
    is_drawn(&rt, rt.alloc(), &design, &[], &[], &[], columns, Text, text);
    Ok(())
}
