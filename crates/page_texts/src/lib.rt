//! The texts of pages. `tools/page_texts.py` writes this file from the folder `page/`.
#![tactic(auto)]

/// What is before the data of a page of waveforms.
pub const WAVES_HEAD: &[u8] = br##"<!doctype html>
<html lang="en">
<head>
<meta charset="utf-8">
<meta http-equiv="Content-Security-Policy" content="default-src 'none'; script-src 'sha256-W9L4yeZQ5Nl28LDPuIIdz6/P1EbnsZdp0KnGzZLYEYU='; style-src 'sha256-C98vUZhn/P3Bfr/eb+FrX9iBy9lNYyj6K7+DPcRQPnU='; base-uri 'none'; form-action 'none'">
<meta name="viewport" content="width=device-width, initial-scale=1">
<meta name="color-scheme" content="light dark">
<title>Waveforms by nullsim</title>
<style>
/* What all pages share: colours, light and dark, and controls. */
:root {
  color-scheme: light dark;
  --paper: #ffffff; --room: #f4f6f8; --ink: #1d2733; --soft: #5a6775; --line: #d5dce3; --channel: #b3bec8;
  --wave: #1f5f8b; --one: #dcebf5; --x: #b0642a; --xpaper: #fbefe4;
  --cursor: #0f766e; --chosen: #edf5f4; --a: #8b3f8f; --b: #96690a;
  --accent: #0f766e; --accentpaper: #d9f0ed; --unknown: #e9edf1;
}
@media (prefers-color-scheme: dark) {
  :root {
    --paper: #171d24; --room: #10151b; --ink: #e7ecf1; --soft: #9dabb9; --line: #323d49; --channel: #4d5a68;
    --wave: #7cbbe6; --one: #20384b; --x: #e5a06a; --xpaper: #33271d;
    --cursor: #4fc3b6; --chosen: #1b2a2d; --a: #d795da; --b: #dfb350;
    --accent: #4fc3b6; --accentpaper: #1c3b3a; --unknown: #262f38;
  }
}
* { box-sizing: border-box; }
[hidden] { display: none !important; }
html, body { height: 100%; margin: 0; }
body { display: flex; flex-direction: column; background: var(--room); color: var(--ink); font: 15px/1.4 system-ui, "Segoe UI", "DejaVu Sans", sans-serif; }
header { display: flex; flex-wrap: wrap; align-items: center; gap: 8px 16px; padding: 8px 14px; background: var(--paper); border-bottom: 1px solid var(--line); }
h1 { margin: 0; font-size: 18px; font-weight: 650; }
.group { display: flex; align-items: center; gap: 4px; }
label { display: flex; align-items: center; gap: 6px; color: var(--soft); }
button, input, select, summary { font: inherit; color: var(--ink); }
button, summary { padding: 3px 10px; min-height: 32px; background: var(--paper); border: 1px solid var(--line); border-radius: 6px; cursor: pointer; white-space: nowrap; }
button:hover, summary:hover { border-color: var(--accent); }
button.main { min-width: 64px; background: var(--accent); border-color: var(--accent); color: var(--paper); }
button.a { color: var(--a); font-weight: 650; }
button.b { color: var(--b); font-weight: 650; }
input[type="number"], input[type="search"], select { padding: 3px 8px; height: 32px; background: var(--paper); border: 1px solid var(--line); border-radius: 6px; }
input[type="number"] { width: 88px; font-variant-numeric: tabular-nums; }
input[type="search"] { width: 130px; }
:focus-visible { outline: 3px solid var(--accent); outline-offset: 1px; }
output { color: var(--soft); padding-left: 6px; font-variant-numeric: tabular-nums; }
details { position: relative; display: flex; }
summary { display: flex; align-items: center; gap: 6px; list-style: none; }
.menu { position: absolute; z-index: 3; right: 0; top: 38px; padding: 10px; min-width: 180px; max-height: 60vh; overflow: auto; display: flex; flex-direction: column; gap: 4px; background: var(--paper); border: 1px solid var(--line); border-radius: 8px; box-shadow: 0 6px 24px #0003; color: var(--soft); }
.menu th { padding: 2px 14px 2px 2px; text-align: left; font-weight: 650; color: var(--ink); white-space: nowrap; }
.menu td { white-space: nowrap; }
.help { margin-left: auto; }
#fault { margin: 0; padding: 10px 14px; background: var(--xpaper); color: var(--ink); border-bottom: 2px solid var(--x); }
.unseen { position: absolute; width: 1px; height: 1px; overflow: hidden; clip-path: inset(50%); white-space: nowrap; }
table { border-spacing: 0; font-variant-numeric: tabular-nums; }
/* The page of waveforms: a row is as high as a lane of the picture, its head as the ruler. */
#view { flex: 1; min-height: 0; overflow-y: auto; background: var(--paper); }
#lanes { display: flex; align-items: flex-start; min-height: 100%; }
#values { flex: none; max-width: 34vw; background: var(--paper); border-right: 1px solid var(--line); }
#values tr { height: 30px; }
#values thead th { position: sticky; top: 0; height: 40px; z-index: 1; padding: 0 14px; background: var(--paper); border-bottom: 1px solid var(--line); color: var(--soft); font-weight: 400; text-align: left; vertical-align: bottom; }
#values tbody th { padding: 0 14px; max-width: 26vw; overflow: hidden; text-overflow: ellipsis; white-space: nowrap; text-align: left; font-weight: 500; cursor: pointer; }
#values td { padding: 0 14px; min-width: 64px; font-weight: 650; color: var(--wave); }
#values td.vX { color: var(--x); }
#values tr.chosen > * { background: var(--chosen); }
#values tr.chosen th { box-shadow: inset 4px 0 var(--accent); }
#picture { flex: 1; min-width: 0; width: 0; position: sticky; top: 0; cursor: crosshair; touch-action: none; }
footer { line-height: 1.5; display: flex; justify-content: space-between; gap: 20px; padding: 5px 14px; border-top: 1px solid var(--line); color: var(--soft); }
#view:focus-visible { outline: 0; }
#view:focus-visible #picture { outline: 2px solid var(--accent); outline-offset: -2px; }

/* a name is a button, for keyboards and screen readers */
#values button { padding: 0; min-height: 0; max-width: 100%; overflow: hidden; text-overflow: ellipsis; background: none; border: 0; border-radius: 0; font-weight: 500; text-align: left; }
#values td.bus { font-family: ui-monospace, "DejaVu Sans Mono", monospace; }

@media print {
  :root {
    --paper: #fff; --room: #fff; --ink: #000; --soft: #444; --line: #bbb; --channel: #888; --wave: #003a66; --one: #e8eef3;
    --x: #7a3d10; --xpaper: #fff; --cursor: #0b5c55; --chosen: #fff; --a: #6d2a70; --b: #6b4a00; --accent: #0b5c55;
  }
  html, body { height: auto; display: block; }
  .group, header details, #status { display: none; }
  #view, #picture { outline: 0 !important; }
  #view { overflow: visible; border: 0; }
  #picture { display: none; }
  #lanes { display: block; }
  #values { width: 100%; max-width: none; border: 0; }
  #values tr { break-inside: avoid; }
  #values thead th { position: static; }
  #values .onPaper { width: 75%; padding: 0; }
  .onPaper canvas { display: block; width: 100%; height: 30px; }
  thead .onPaper canvas { height: 40px; }
}
</style>
</head>
<body class="waves">
<header>
<h1>Waveforms</h1>
<div class="group" role="group" aria-label="Cursor">
<label>Tick <input id="tick" type="number" min="0" step="1"></label>
<button id="before" title="To the previous change of the chosen net (p)">&#9664; change</button>
<button id="after" title="To the next change of the chosen net (n)">change &#9654;</button>
</div>
<div class="group" role="group" aria-label="Zoom">
<button id="out" aria-label="Zoom out" title="Zoom out (-)">&minus;</button>
<button id="in" aria-label="Zoom in" title="Zoom in (+)">+</button>
<button id="all" title="Show all ticks (0)">all</button>
</div>
<div class="group" role="group" aria-label="Markers">
<button id="markA" class="a" title="Set marker A at the cursor, or remove it (a)">A</button>
<button id="markB" class="b" title="Set marker B at the cursor, or remove it (b)">B</button>
<output id="difference"></output>
</div>
<div class="group" role="group" aria-label="Nets">
<input id="find" type="search" aria-label="Find nets by name" placeholder="find nets" spellcheck="false" autocomplete="off">
<button id="up" aria-label="Move the chosen net up" title="Move the chosen net up (Alt+&uarr;)">&uarr;</button>
<button id="down" aria-label="Move the chosen net down" title="Move the chosen net down (Alt+&darr;)">&darr;</button>
<button id="hide" title="Hide the chosen net (h)">hide</button>
<details id="hidden"><summary>hidden <span id="hiddenCount">0</span></summary><div id="hiddenList" class="menu"></div></details>
</div>
<details class="help"><summary>keys</summary><div class="menu"><table>
<tr><th>&larr; &rarr;</th><td>pan; with Shift, the cursor by a tick</td></tr>
<tr><th>&uarr; &darr;</th><td>choose a net; with Alt, move it</td></tr>
<tr><th>+ &minus; 0</th><td>zoom in, out, show all</td></tr>
<tr><th>n p</th><td>next, previous change of the chosen net</td></tr>
<tr><th>a b</th><td>set markers at the cursor, or remove them</td></tr>
<tr><th>h /</th><td>hide the chosen net, find a net</td></tr>
<tr><th>wheel</th><td>zoom; with Shift, pan; over the names, scroll</td></tr>
<tr><th>drag, click</th><td>pan; set the cursor</td></tr>
</table></div></details>
</header>
<p id="fault" role="alert" hidden></p>
<main id="view" tabindex="0" aria-label="Waveforms of the nets; the table has their values at the cursor">
<div id="lanes">
<table id="values">
<caption class="unseen">Values at tick <span id="captionTick"></span></caption>
<thead><tr><th scope="col">net</th><th scope="col" id="atTick"></th></tr></thead>
<tbody id="rows"></tbody>
</table>
<canvas id="picture" role="img" aria-label="The waveforms, drawn"></canvas>
</div>
</main>
<footer><span id="note"></span><span id="status" role="status"></span></footer>
<script type="application/json" id="data">"##;

/// What is after it.
pub const WAVES_TAIL: &[u8] = br##"</script>
<script>
"use strict";
// What all pages use. Text of the data becomes text of the page by textContent
// or as a text node, never as HTML.

const byId = (id) => document.getElementById(id);

// A fault of the data or of this script is shown in the page, and not only in
// the console.
window.addEventListener("error", (event) => {
  byId("fault").hidden = false;
  byId("fault").textContent = "This page stopped: " + event.message;
});

function readData(form) {
  const data = JSON.parse(byId("data").textContent);
  if (data.form !== form) throw new Error("the data doesn't have the form " + form);
  return data;
}

// element("td", {class: "value"}, "1", otherElement): strings become text.
function element(tag, attributes = {}, ...children) {
  return filled(document.createElement(tag), attributes, children);
}

function svg(tag, attributes = {}, ...children) {
  return filled(document.createElementNS("http://www.w3.org/2000/svg", tag), attributes, children);
}

function filled(made, attributes, children) {
  for (const [name, value] of Object.entries(attributes)) made.setAttribute(name, value);
  made.append(...children);
  return made;
}

function setText(node, text) {
  if (node.textContent !== text) node.textContent = text;
}

function setClass(node, names) {
  if (node.className !== names) node.className = names;
}

function setChosen(row, yes) {
  if ((row.className === "chosen") === yes) return;
  row.className = yes ? "chosen" : "";
  row.setAttribute("aria-current", String(yes));
}

const within = (number, low, high) => Math.min(high, Math.max(low, number));

// The place of the last of the first `count` numbers that is at most `limit`,
// or -1. The numbers rise.
function lastUpTo(numbers, limit, count = numbers.length) {
  let low = 0;
  let high = count;
  while (low < high) {
    const middle = (low + high) >>> 1;
    if (numbers[middle] <= limit) low = middle + 1;
    else high = middle;
  }
  return low - 1;
}

// Cuts the first `count` changes of a waveform into stretches between the
// ticks `from` and `until`, drawn `width` wide: part(left, right, value), where
// the value is "busy" if changes are less than LEAST pixels apart.
// The time depends on the width, not on the number of changes.
const LEAST = 2;
function stretches(ticks, values, count, from, until, width, part) {
  const scale = width / (until - from);
  let at = Math.max(0, lastUpTo(ticks, from, count));
  let left = 0;
  let busyFrom = -1;
  while (left < width && at < count) {
    const next = at + 1 < count ? ticks[at + 1] : Infinity;
    const right = Math.min(width, (next - from) * scale);
    if (right - left >= LEAST || right >= width) {
      if (busyFrom >= 0) part(busyFrom, left, "busy");
      busyFrom = -1;
      part(left, right, values[at]);
      left = right;
      at += 1;
    } else {
      if (busyFrom < 0) busyFrom = left;
      left = Math.min(width, left + LEAST);
      at = lastUpTo(ticks, from + left / scale, count);
    }
  }
  if (busyFrom >= 0) part(busyFrom, left, "busy");
}

// The state in the address, such as #tick=14&from=0&until=40. Only numbers of
// these names are taken, and anything else is ignored.
function readAddress(names) {
  const said = new URLSearchParams(location.hash.slice(1));
  const state = {};
  for (const name of names) {
    const word = said.get(name);
    if (word !== null && /^\d{1,9}(\.\d{1,6})?$/.test(word)) state[name] = Number(word);
  }
  return state;
}

// Browsers allow few changes of the address in a second, so it follows late.
let addressTimer = 0;
function writeAddress(state) {
  clearTimeout(addressTimer);
  addressTimer = setTimeout(() => {
    const words = Object.entries(state)
      .filter(([, value]) => value !== null)
      .map(([name, value]) => name + "=" + (typeof value === "number" ? Number(value.toFixed(3)) : value));
    history.replaceState(null, "", "#" + words.join("&"));
  }, 300);
}

// Calls work once before the next frame, after any number of requests.
function onceAFrame(work) {
  let asked = false;
  return () => {
    if (asked) return;
    asked = true;
    requestAnimationFrame(() => {
      asked = false;
      work();
    });
  };
}

// Keys are taken where the focus isn't in a field or on a button that needs them.
function typing(event) {
  return event.ctrlKey || event.metaKey || /^(INPUT|SELECT|TEXTAREA)$/.test(event.target.tagName);
}
// The picture of the waveforms: only what is in view is drawn.

function readPaint() {
  const style = getComputedStyle(document.body);
  paint = {};
  for (const name of ["paper", "ink", "soft", "line", "wave", "one", "x", "xpaper", "cursor", "chosen", "a", "b"]) {
    paint[name] = style.getPropertyValue("--" + name).trim();
  }
  const tile = element("canvas", { width: 8, height: 8 });
  const brush = tile.getContext("2d");
  brush.fillStyle = paint.xpaper;
  brush.fillRect(0, 0, 8, 8);
  brush.strokeStyle = paint.x;
  brush.lineWidth = 1.4;
  brush.beginPath();
  for (const shift of [-8, 0, 8]) {
    brush.moveTo(shift - 1, 9);
    brush.lineTo(shift + 9, -1);
  }
  brush.stroke();
  paint.hatch = pen.createPattern(tile, "repeat");
}

function measure() {
  size = { width: picture.clientWidth, height: picture.clientHeight, ratio: devicePixelRatio || 1 };
  const { width, height, ratio } = size;
  picture.width = Math.round(width * ratio);
  picture.height = Math.round(height * ratio);
}

function draw() {
  if (!paint) readPaint();
  pen.setTransform(size.ratio, 0, 0, size.ratio, 0, 0);
  pen.fillStyle = paint.paper;
  pen.fillRect(0, 0, size.width, size.height);
  const top = RULER - view.scrollTop;
  const first = Math.max(0, Math.floor(view.scrollTop / LANE));
  const last = Math.min(lanes.length - 1, Math.floor((view.scrollTop + size.height - RULER) / LANE));
  const bottom = Math.min(size.height, top + lanes.length * LANE);
  pen.save();
  pen.beginPath();
  pen.rect(0, RULER, size.width, size.height - RULER);
  pen.clip();
  const place = lanes.indexOf(chosen);
  if (place >= first && place <= last) {
    pen.fillStyle = paint.chosen;
    pen.fillRect(0, top + place * LANE, size.width, LANE);
  }
  pen.restore();
  drawRuler(bottom);
  pen.save();
  pen.beginPath();
  pen.rect(0, RULER, size.width, size.height - RULER);
  pen.clip();
  for (let at = first; at <= last; at += 1) drawLane(lanes[at], top + at * LANE);
  pen.restore();
  drawMark(state.a, paint.a, "A", bottom);
  drawMark(state.b, paint.b, "B", bottom);
  drawCursor(bottom);
}

// The step between numbers of the ruler: 1, 2 or 5 times a power of ten.
function rulerStep(room) {
  const ticks = ((state.until - state.from) * room) / size.width;
  const power = 10 ** Math.floor(Math.log10(Math.max(1, ticks)));
  return Math.max(1, [1, 2, 5, 10].find((factor) => factor * power >= ticks) * power);
}

function drawRuler(bottom) {
  const step = rulerStep(76);
  pen.font = "13px system-ui, sans-serif";
  pen.textBaseline = "middle";
  pen.textAlign = "left";
  pen.strokeStyle = paint.line;
  pen.fillStyle = paint.soft;
  pen.lineWidth = 1;
  pen.beginPath();
  for (let tick = Math.ceil(state.from / step) * step; tick <= state.until; tick += step) {
    const x = Math.round(xOf(tick)) + 0.5;
    pen.moveTo(x, 22);
    pen.lineTo(x, bottom);
    pen.fillText(String(tick), x + 4, 29);
  }
  pen.moveTo(0, RULER - 0.5);
  pen.lineTo(size.width, RULER - 0.5);
  pen.stroke();
}

// Draws a net by rectangles of whole pixels, which are painted many times faster
// than a stroked path. All of one colour come together, since setting a colour
// takes longer than filling.
function drawNet(lane, top) {
  const high = top + 6;
  const low = top + LANE - 8;
  const tall = low - high + 2;
  const boxes = { 1: [], x: [], busy: [] };
  const lines = [];
  let level = null; // where the line is; null after a box
  stretches(lane.ticks, lane.values, lane.ticks.length, state.from, state.until, size.width, (from, to, value) => {
    const left = Math.round(from);
    const wide = Math.round(to) - left;
    const boxed = value === "x" || value === "busy";
    if (value !== "0") boxes[value].push(left, wide);
    if (left > 0 && value !== "busy" && !(boxed && level === null)) lines.push(left - 1, high, 2, tall);
    if (!boxed) lines.push(left, value === "1" ? high : low, wide, 2);
    level = boxed ? null : value;
  });
  fillBoxes(paint.one, boxes[1], high, tall);
  fillBoxes(paint.hatch, boxes.x, high, tall);
  pen.globalAlpha = 0.5;
  fillBoxes(paint.wave, boxes.busy, high, tall);
  pen.globalAlpha = 1;
  pen.fillStyle = paint.wave;
  for (let at = 0; at < lines.length; at += 4) pen.fillRect(lines[at], lines[at + 1], lines[at + 2], lines[at + 3]);
}

function drawCursor(bottom) {
  const x = xOf(state.tick);
  const wide = Math.max(1, xOf(state.tick + 1) - x);
  if (x + wide < 0 || x > size.width) return;
  pen.globalAlpha = wide > 3 ? 0.16 : 1;
  pen.fillStyle = paint.cursor;
  pen.fillRect(x, RULER, wide > 3 ? wide : 1.5, bottom - RULER);
  pen.globalAlpha = 1;
  flag(x + wide / 2, String(state.tick), paint.cursor);
}

function drawMark(tick, colour, name, bottom) {
  if (tick === null) return;
  const x = Math.round(xOf(tick)) + 0.5;
  if (x < 0 || x > size.width) return;
  pen.strokeStyle = colour;
  pen.lineWidth = 2;
  pen.setLineDash([5, 4]);
  pen.beginPath();
  pen.moveTo(x, 18);
  pen.lineTo(x, bottom);
  pen.stroke();
  pen.setLineDash([]);
  flag(x, name, colour);
}

function flag(x, text, colour) {
  pen.font = "bold 13px system-ui, sans-serif";
  const wide = pen.measureText(text).width + 12;
  const left = within(x - wide / 2, 0, size.width - wide);
  pen.fillStyle = colour;
  pen.beginPath();
  pen.roundRect(left, 1, wide, 18, 4);
  pen.fill();
  pen.fillStyle = paint.paper;
  pen.textAlign = "center";
  pen.textBaseline = "middle";
  pen.fillText(text, left + wide / 2, 10.5);
}

// Draws a bus as boxes, with the digits of its value where they fit.
function drawBus(lane, top) {
  const high = top + 6;
  const low = top + LANE - 8;
  const tall = low - high + 2;
  const busy = [];
  const unknown = [];
  const lines = [];
  const labels = [];
  stretches(lane.ticks, lane.values, lane.ticks.length, state.from, state.until, size.width, (from, to, value) => {
    const left = Math.round(from);
    const wide = Math.round(to) - left;
    if (value === "busy") {
      busy.push(left, wide);
      return;
    }
    if (value.includes("x")) unknown.push(left, wide);
    lines.push([left, high, wide, 2], [left, low, wide, 2]);
    if (left > 0) lines.push([left - 1, high, 2, tall]);
    if (wide > 8 * value.length + 8) labels.push([value, left + 5]);
  });
  fillBoxes(paint.hatch, unknown, high, tall);
  pen.globalAlpha = 0.5;
  fillBoxes(paint.wave, busy, high, tall);
  pen.globalAlpha = 1;
  pen.fillStyle = paint.wave;
  for (const line of lines) pen.fillRect(...line);
  pen.fillStyle = paint.ink;
  pen.font = "13px ui-monospace, \"DejaVu Sans Mono\", monospace";
  pen.textAlign = "left";
  pen.textBaseline = "middle";
  for (const [value, left] of labels) pen.fillText(value, left, high + tall / 2);
}

function fillBoxes(colour, boxes, high, tall) {
  pen.fillStyle = colour;
  for (let at = 0; at < boxes.length; at += 2) pen.fillRect(boxes[at], high, boxes[at + 1], tall);
}

function drawLane(lane, top) {
  if (lane.isBus) drawBus(lane, top);
  else drawNet(lane, top);
}
// The page of waveforms: a table of names and values, and the picture beside it.

const RULER = 40; // heights in pixels, also in style.css
const LANE = 30;
const MOST_LANES = 2000; // rows of the table; a search finds the others
const MOST_PRINTED = 400;

const data = readData("nullsim waves 1");
const start = data.from;
const end = data.to + 1; // tick t has the room from t to t + 1
const leastSpan = Math.min(end - start, 4);

// The digit of four bits or fewer: x if one of them is X.
const digitOf = (bits) => (bits.includes("x") ? "x" : parseInt(bits, 2).toString(16));

// The hexadecimal digits of bits, of which the first digit has those left over.
function digitsOf(bits) {
  const digits = [];
  for (let end = bits.length; end > 0; end -= 4) digits.unshift(digitOf(bits.slice(Math.max(0, end - 4), end)));
  return digits.join("");
}

// The values of a bus, which begin where one of its bits changes.
function busWave(bits) {
  const ticks = [...new Set(bits.flatMap((bit) => bit.ticks))].sort((one, other) => one - other);
  const places = bits.map(() => 0);
  const values = ticks.map((tick) => {
    bits.forEach((bit, at) => {
      if (bit.ticks[places[at] + 1] === tick) places[at] += 1;
    });
    return digitsOf(bits.map((bit, at) => bit.values[places[at]]).join(""));
  });
  return { ticks, values };
}

const laneOf = (name, wave, isBus, place) => ({
  name,
  ticks: Int32Array.from(wave.ticks),
  values: wave.values,
  isBus,
  place, // in the data
  hidden: false,
  row: null,
  cell: null,
});
const all = [
  ...data.nets.map((net, place) => laneOf(net.name, net, false, place)),
  ...data.buses.map((bus, place) => laneOf(bus.name, busWave(bus.bits), true, data.nets.length + place)),
];
let order = [...all];
let lanes = []; // those of `order` that are listed now
let chosen = order[0] || null;
const state = { tick: start, from: start, until: end, a: null, b: null, lanes: null };

const view = byId("view");
const picture = byId("picture");
let pen = picture.getContext("2d"); // another one for a printer
let size = { width: 0, height: 0, ratio: 1 };
let paint = null; // colours and the hatch, read from the style when they may be new

// The value of a lane at a tick: of a net 0, 1 or X, of a bus its digits.
function valueAt(lane, tick) {
  const value = lane.values[Math.max(0, lastUpTo(lane.ticks, tick))];
  return lane.isBus ? value : value.toUpperCase();
}
const xOf = (tick) => ((tick - state.from) * size.width) / (state.until - state.from);
const tickOf = (x) => state.from + (x * (state.until - state.from)) / size.width;

// --- the table

function listLanes() {
  const wanted = byId("find").value.trim().toLowerCase().split(/\s+/);
  const fits = order.filter((lane) => !lane.hidden && wanted.some((word) => lane.name.toLowerCase().includes(word)));
  lanes = fits.slice(0, MOST_LANES);
  if (!lanes.includes(chosen)) chosen = lanes[0] || null;
  for (const lane of lanes) {
    if (lane.row) continue;
    lane.cell = element("td");
    const name = element("button", { title: lane.name }, lane.name);
    lane.row = element("tr", {}, element("th", { scope: "row" }, name), lane.cell);
    lane.row.lane = lane;
  }
  byId("rows").replaceChildren(...lanes.map((lane) => lane.row));
  lanesToAddress();
  const hidden = order.filter((lane) => lane.hidden);
  setText(byId("hiddenCount"), String(hidden.length));
  byId("hiddenList").replaceChildren(
    ...(hidden.length > 1 ? [showButton("show all", hidden)] : []),
    ...hidden.slice(0, 200).map((lane) => showButton(lane.name, [lane])),
    ...(hidden.length === 0 ? ["no net is hidden"] : []),
  );
  const cut = fits.length > lanes.length ? " (more fit: narrow the search)" : "";
  setText(byId("note"), `${lanes.length} of ${order.length} nets${cut}, ticks ${data.from} to ${data.to}`);
  update();
}

function showButton(text, which) {
  const button = element("button", {}, text);
  button.addEventListener("click", () => {
    for (const lane of which) lane.hidden = false;
    listLanes();
  });
  return button;
}

function fillTable() {
  setText(byId("captionTick"), String(state.tick));
  setText(byId("atTick"), "@" + state.tick);
  for (const lane of lanes) {
    const value = valueAt(lane, state.tick);
    setText(lane.cell, value);
    setClass(lane.cell, (lane.isBus ? "bus " : "") + (value.toUpperCase().includes("X") ? "vX" : ""));
    setChosen(lane.row, lane === chosen);
  }
  if (document.activeElement !== byId("tick")) byId("tick").value = state.tick;
  const marks = [];
  if (state.a !== null) marks.push("A " + state.a);
  if (state.b !== null) marks.push("B " + state.b);
  if (marks.length === 2) marks.push(`difference ${Math.abs(state.b - state.a)} ticks`);
  setText(byId("difference"), marks.join(", "));
  setText(byId("status"), chosen ? `tick ${state.tick}: ${chosen.name} is ${valueAt(chosen, state.tick)}` : "no net fits");
}

const redraw = onceAFrame(draw);

function update() {
  fillTable();
  redraw();
  writeAddress(state);
}

// --- moving about

function show(from, until) {
  const span = within(until - from, leastSpan, end - start);
  state.from = within(from, start, end - span);
  state.until = state.from + span;
  redraw();
  writeAddress(state);
}

function zoom(factor, around) {
  const at = within(around, state.from, state.until);
  show(at - (at - state.from) * factor, at + (state.until - at) * factor);
}

const pan = (part) => {
  const span = state.until - state.from;
  show(state.from + part * span, state.until + part * span);
};

function setTick(tick, follow = true) {
  state.tick = within(Math.floor(tick), data.from, data.to);
  const span = state.until - state.from;
  if (follow && (state.tick < state.from || state.tick + 1 > state.until)) show(state.tick + 0.5 - span / 2, state.tick + 0.5 + span / 2);
  update();
}

function toChange(direction) {
  if (!chosen) return;
  const at = lastUpTo(chosen.ticks, direction > 0 ? state.tick : state.tick - 1);
  const to = direction > 0 ? at + 1 : at;
  if (to >= 0 && to < chosen.ticks.length) setTick(chosen.ticks[to]);
}

function mark(name) {
  state[name] = state[name] === state.tick ? null : state.tick;
  update();
}

function choose(lane) {
  chosen = lane;
  const top = lanes.indexOf(lane) * LANE;
  const room = view.clientHeight - RULER - LANE;
  view.scrollTop = within(view.scrollTop, top - room, top);
  update();
}

function chooseBy(steps) {
  const at = within(lanes.indexOf(chosen) + steps, 0, lanes.length - 1);
  if (lanes[at]) choose(lanes[at]);
}

function moveLane(steps) {
  const other = lanes[lanes.indexOf(chosen) + steps];
  if (!chosen || !other) return;
  const one = order.indexOf(chosen);
  const two = order.indexOf(other);
  order.splice(one, 1);
  order.splice(two, 0, chosen);
  listLanes();
  choose(chosen);
}

function hideLane() {
  if (!chosen) return;
  const next = lanes[lanes.indexOf(chosen) + 1] || lanes[lanes.indexOf(chosen) - 1];
  chosen.hidden = true;
  chosen = next || null;
  listLanes();
}

// --- what the user does

const keys = {
  ArrowLeft: (event) => (event.shiftKey ? setTick(state.tick - 1) : pan(-0.1)),
  ArrowRight: (event) => (event.shiftKey ? setTick(state.tick + 1) : pan(0.1)),
  ArrowUp: (event) => (event.altKey ? moveLane(-1) : chooseBy(-1)),
  ArrowDown: (event) => (event.altKey ? moveLane(1) : chooseBy(1)),
  PageUp: () => chooseBy(-10),
  PageDown: () => chooseBy(10),
  Home: () => setTick(data.from),
  End: () => setTick(data.to),
  "+": () => zoom(1 / 1.5, state.tick + 0.5),
  "=": () => zoom(1 / 1.5, state.tick + 0.5),
  "-": () => zoom(1.5, state.tick + 0.5),
  0: () => show(start, end),
  n: () => toChange(1),
  p: () => toChange(-1),
  a: () => mark("a"),
  b: () => mark("b"),
  h: hideLane,
  "/": () => byId("find").focus(),
};
view.addEventListener("keydown", (event) => {
  if (typing(event) || !Object.hasOwn(keys, event.key)) return;
  event.preventDefault();
  keys[event.key](event);
});
byId("find").addEventListener("keydown", (event) => {
  if (event.key !== "Enter" && event.key !== "Escape") return;
  if (event.key === "Escape") byId("find").value = "";
  listLanes();
  view.focus();
});
byId("find").addEventListener("input", listLanes);
byId("tick").addEventListener("input", () => {
  if (byId("tick").value !== "") setTick(Number(byId("tick").value));
});
const buttons = {
  before: () => toChange(-1),
  after: () => toChange(1),
  in: keys["+"],
  out: keys["-"],
  all: keys[0],
  markA: keys.a,
  markB: keys.b,
  up: () => moveLane(-1),
  down: () => moveLane(1),
  hide: hideLane,
};
for (const [id, work] of Object.entries(buttons)) byId(id).addEventListener("click", work);
byId("rows").addEventListener("click", (event) => choose(event.target.closest("tr").lane));
view.addEventListener("scroll", redraw);

picture.addEventListener("wheel", (event) => {
  event.preventDefault();
  const pixels = event.deltaMode === 0 ? 1 : 30;
  if (event.shiftKey || Math.abs(event.deltaX) > Math.abs(event.deltaY)) {
    pan(((event.deltaX || event.deltaY) * pixels) / size.width);
  } else {
    zoom(Math.exp(event.deltaY * pixels * 0.002), tickOf(event.offsetX));
  }
}, { passive: false });

let drag = null;
picture.addEventListener("pointerdown", (event) => {
  if (event.button !== 0) return;
  drag = { x: event.clientX, y: event.clientY, from: state.from, until: state.until, top: view.scrollTop, moved: false };
  picture.setPointerCapture(event.pointerId);
});
picture.addEventListener("pointermove", (event) => {
  if (!drag) return;
  const right = event.clientX - drag.x;
  const down = event.clientY - drag.y;
  if (Math.hypot(right, down) > 4) drag.moved = true;
  if (!drag.moved) return;
  const shift = (right * (drag.until - drag.from)) / size.width;
  show(drag.from - shift, drag.until - shift);
  view.scrollTop = drag.top - down;
});
picture.addEventListener("pointerup", (event) => {
  if (drag && !drag.moved) {
    const at = Math.floor((event.offsetY - RULER + view.scrollTop) / LANE);
    if (event.offsetY > RULER && lanes[at]) chosen = lanes[at];
    setTick(tickOf(event.offsetX), false);
  }
  drag = null;
});
picture.addEventListener("pointercancel", () => (drag = null));

// --- the size, the colours, the printer, the address

// The picture is as high as its view and stays there while the table scrolls.
function settle() {
  picture.style.height = view.clientHeight + "px";
  measure();
  draw();
}
const sizes = new ResizeObserver(onceAFrame(settle)); // at once, it would call itself again
sizes.observe(view);
sizes.observe(byId("values"));
matchMedia("(prefers-color-scheme: dark)").addEventListener("change", () => {
  readPaint();
  redraw();
});
// On paper each row has a picture of its own, so that pages break between rows
// and the ruler comes again on each page.
function paperCell(lane, ratio) {
  const high = lane ? LANE : RULER;
  const canvas = element("canvas", { width: size.width * ratio, height: high * ratio });
  pen = canvas.getContext("2d");
  pen.setTransform(ratio, 0, 0, ratio, 0, lane ? -RULER * ratio : 0);
  pen.fillStyle = paint.paper;
  pen.fillRect(0, 0, size.width, RULER + LANE);
  drawRuler(RULER + LANE);
  if (lane) drawLane(lane, RULER);
  drawMark(state.a, paint.a, "A", RULER + LANE);
  drawMark(state.b, paint.b, "B", RULER + LANE);
  drawCursor(RULER + LANE);
  return element("td", { class: "onPaper" }, canvas);
}

addEventListener("beforeprint", () => {
  readPaint();
  size.width = 800;
  const ratio = lanes.length > 100 ? 1 : 2;
  byId("atTick").parentNode.append(paperCell(null, ratio));
  lanes.slice(0, MOST_PRINTED).forEach((lane) => lane.row.append(paperCell(lane, ratio)));
  lanes.slice(MOST_PRINTED).forEach((lane) => (lane.row.hidden = true));
});
addEventListener("afterprint", () => {
  document.querySelectorAll(".onPaper").forEach((cell) => cell.remove());
  for (const lane of lanes) lane.row.hidden = false;
  pen = picture.getContext("2d");
  paint = null;
  settle();
});

// Hidden and moved lanes are in the address too: the places of those shown, in
// order, such as lanes=2.0.5.
const MOST_IN_ADDRESS = 200;
function lanesToAddress() {
  const shown = order.filter((lane) => !lane.hidden).map((lane) => lane.place);
  const changed = shown.length < all.length || shown.some((place, at) => place !== at);
  state.lanes = changed && shown.length <= MOST_IN_ADDRESS ? shown.join(".") || "none" : null;
}

function lanesFromAddress() {
  const said = new URLSearchParams(location.hash.slice(1)).get("lanes");
  if (said === null || !/^(none|\d{1,7}(\.\d{1,7})*)$/.test(said)) return;
  const places = said === "none" ? [] : said.split(".").map(Number);
  const shown = [...new Set(places)].filter((place) => place < all.length).map((place) => all[place]);
  const chosenOnes = new Set(shown);
  for (const lane of all) lane.hidden = !chosenOnes.has(lane);
  order = [...shown, ...all.filter((lane) => lane.hidden)];
  listLanes();
}

function fromAddress() {
  lanesFromAddress();
  const said = readAddress(["tick", "from", "until", "a", "b"]);
  for (const name of ["a", "b"]) state[name] = said[name] === undefined ? null : within(Math.floor(said[name]), data.from, data.to);
  const from = said.from === undefined ? start : said.from;
  const until = said.until === undefined ? end : said.until;
  if (until > from) show(from, until);
  setTick(said.tick === undefined ? start : said.tick, said.from === undefined);
}
addEventListener("hashchange", fromAddress);

byId("tick").min = data.from;
byId("tick").max = data.to;
listLanes();
settle();
fromAddress();
draw();
view.focus({ preventScroll: true });
</script>
</body>
</html>
"##;
