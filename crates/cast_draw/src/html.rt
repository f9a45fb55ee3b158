//! The HTML page that steps through a run: the picture, the steps, and what is around them, which is its look, its buttons
//! and its program. Nothing around them comes from a script, and the page asks no network.
ghost use Rattle.std.specs.Prelude.{◌≡◌, true, false, OnOk, OnErr};

use crate::page::{Drawing, write_drawing};
use cast_record::{Meter, Written, write_bytes};
use std::io::Write;

/// Writes the page: the picture, and the steps that `Steps` gathered as lines.
pub fn write_page<W: Write>(drawing: &Drawing, steps: &[u8], writer: &mut Meter<W>) -> Written
    requires { writer.old.failed ≡ false }
    ensures ok { OnOk result (writer.new.failed ≡ false) }
    ensures err { OnErr result (writer.new.failed ≡ true) }
{
    write_bytes(BEFORE_PICTURE, writer)?;
    write_drawing(drawing, writer)?;
    write_bytes(AFTER_PICTURE, writer)?;
    write_bytes(steps, writer)?;
    write_bytes(AFTER_STEPS, writer)
}

// The page up to the picture.
const BEFORE_PICTURE: &[u8] = br##"<!DOCTYPE html>
<html lang="en">
<head>
<meta charset="utf-8">
<meta http-equiv="Content-Security-Policy" content="default-src 'none'; style-src 'unsafe-inline'; script-src 'unsafe-inline'">
<meta name="viewport" content="width=device-width">
<title>A run, step by step</title>
<style>
body{margin:0;font:15px/1.4 sans-serif;color:#222;background:#fff}
header{padding:10px 14px;border-bottom:1px solid #ccc}
header button{font:inherit;min-width:44px;min-height:32px}
#place{width:min(420px,40vw);vertical-align:middle}
#count{margin-left:10px}
#words{margin:8px 0 0;min-height:2.8em;font-size:17px}
#picture{max-height:58vh;overflow:auto;border-bottom:1px solid #ccc}
#picture svg{display:block}
#nodes{border-collapse:collapse;margin:10px 14px}
#nodes th,#nodes td{border:1px solid #ccc;padding:3px 8px;text-align:left;vertical-align:top}
#nodes td:first-child{white-space:nowrap}
#nodes tr.acts{background:#eef4fb}
#nodes tr.gone{color:#777}
#nodes tr.gone td:first-child{text-decoration:line-through}
.chip{display:inline-block;margin:1px 4px 1px 0;padding:0 5px;border-left:5px solid #888;background:#f4f4f4}
.chip.changed{background:#ffe9a8;font-weight:bold}
</style>
</head>
<body>
<header>
<button id="first" title="before the first event (Home)">|&#9664;</button>
<button id="back" title="one event back (arrow left)">&#9664;</button>
<button id="next" title="one event on (arrow right)">&#9654;</button>
<button id="last" title="after the last event (End)">&#9654;|</button>
<input id="place" type="range" min="0" value="0" aria-label="step">
<span id="count"></span>
<p id="words" aria-live="polite">This page steps through a run by a script of the browser.</p>
</header>
<div id="picture">
"##;

// What is between the picture and the steps.
const AFTER_PICTURE: &[u8] = br##"</div>
<table id="nodes">
<thead><tr><th>node</th><th>delivered, by sender</th><th>decided (instance:value)</th><th>owes, not yet acknowledged</th></tr></thead>
<tbody></tbody>
</table>
<script type="text/plain" id="steps">
"##;

// The page from the end of the steps.
const AFTER_STEPS: &[u8] = br##"</script>
<script>
"use strict";
const COLOURS = ["#0072b2", "#d55e00", "#009e73", "#cc79a7", "#e69f00", "#56b4e9", "#7a5195", "#6b6b00"];
const MOST_LETTERS = 40;
const find = (id) => document.getElementById(id);
const svg = document.querySelector("#picture svg");

// ---- what the lines say

// The group before the first step, each step with what it changes, and by its code what a refusal means.
const group = [];
const refusals = [];
const steps = [{ deliveries: [], decisions: [] }];

const READERS = {
  g(count) {
    for (let node = 0; node < count; node += 1) {
      group.push({ isLive: true, delivered: new Array(count).fill(0), decided: [], owed: [] });
    }
  },
  n(node, ...counts) { group[node].delivered = counts; },
  c(node) { group[node].isLive = false; },
  v(node, instance, value) {
    const decision = `${instance}:${value}`;
    if (steps.length === 1) group[node].decided.push(decision);
    else steps.at(-1).decisions.push([node, decision]);
  },
  d(node, sender, number) { steps.at(-1).deliveries.push([node, sender, number]); },
};

// What a node owes is kept with what it owed before, so that a step can be taken back.
function readOwed(row, owed, node) {
  if (steps.length === 1) group[node].owed = row;
  else steps.at(-1).owed = { node, row, before: owed[node] };
  owed[node] = row;
}

function readStep(words) {
  const [index, x, kind, ...rest] = words;
  const sign = rest.findIndex((word) => word === "=" || word === "!");
  const step = {
    index, x: Number(x), kind, places: rest.slice(0, sign),
    isRefused: rest[sign] === "!", reply: Number(rest[sign + 1]), deliveries: [], decisions: [],
  };
  step.node = kind === "arrive" ? (step.isRefused ? undefined : step.reply) : Number(step.places[0]);
  steps.push(step);
}

function readLines(text) {
  const owed = [];
  for (const line of text.split("\n")) {
    const [kind, ...words] = line.split(" ");
    if (kind === "e") readStep(words);
    else if (kind === "w") readOwed(words.slice(1).map(Number), owed, Number(words[0]));
    else if (kind === "v") READERS.v(Number(words[0]), words[1], words[2]);
    else if (kind === "r") refusals[Number(words[0])] = words.slice(1).join(" ");
    else if (READERS[kind]) READERS[kind](...words.map(Number));
  }
}

// What a frame carries, and which events are settles, the picture says.
const frames = new Map();
const settles = new Set();

function readTitles() {
  const frame = /^frame (\d+) of node (\d+) to node (\d+): (?:slot (\d+), message ([\d.]+)|acknowledges slot (\d+)),/;
  const settle = /^settle, event (\d+)$/;
  for (const title of svg.querySelectorAll("path > title, g > title")) {
    const made = frame.exec(title.textContent);
    const begun = settle.exec(title.textContent);
    if (made) frames.set(`${made[2]} ${made[1]}`, { to: made[3], slot: made[4] ?? made[6], message: made[5] });
    if (begun) settles.add(begun[1]);
  }
}

// ---- a step in words

function shownItem(word) {
  const [kind, first, second] = word.split(":");
  if (kind === "close") return "its last item, the close";
  if (kind === "prop") return `the proposal of ${second} in instance ${first}`;
  const bytes = (first.match(/../g) ?? []).map((digits) => parseInt(digits, 16));
  const isText = bytes.every((byte) => byte >= 32 && byte < 127);
  const letters = isText ? String.fromCharCode(...bytes) : first;
  const cut = letters.length > MOST_LETTERS ? `${letters.slice(0, MOST_LETTERS)}\u2026` : letters;
  return isText ? `the item "${cut}"` : `the item of bytes ${cut}`;
}

const TRIED = {
  order: (step, [node, item]) => `node ${node} would broadcast ${shownItem(item)}`,
  send: (step, [node, to, slot]) => `node ${node} would send slot ${slot} to node ${to}`,
  ack: (step, [node, to, slot]) => `node ${node} would acknowledge slot ${slot} to node ${to}`,
  arrive: (step, [node, seq]) => `frame ${seq} of node ${node} would arrive`,
  crash: (step, [node]) => `node ${node} would crash`,
};

const DONE = {
  order: (step, [node, item]) => `node ${node} broadcasts ${node}.${step.reply}, ${shownItem(item)}`,
  send(step, [node, to, slot]) {
    const message = frames.get(`${node} ${step.reply}`)?.message;
    return `node ${node} sends ${message ?? "a message"} to node ${to} (frame ${step.reply}, slot ${slot})`;
  },
  ack: (step, [node, to, slot]) => `node ${node} acknowledges slot ${slot} to node ${to} (frame ${step.reply})`,
  arrive(step, [node, seq]) {
    const frame = frames.get(`${node} ${seq}`);
    const cargo = frame?.message ?? `the acknowledgement of slot ${frame?.slot}`;
    return `${cargo} from node ${node} arrives at node ${step.reply} (frame ${seq})`;
  },
  crash: (step, [node]) => `node ${node} crashes`,
};

function carriesMessage(step) {
  return step.kind === "arrive" && frames.get(step.places.join(" "))?.message !== undefined;
}

function wordsOf(step) {
  if (!step.kind) return "Before the first event.";
  const event = `Event ${step.index}${settles.has(step.index) ? " (settle)" : ""}: `;
  if (step.isRefused) {
    return `${event}${TRIED[step.kind](step, step.places)}; refused with code ${step.reply}: ${refusals[step.reply]}.`;
  }
  const parts = [DONE[step.kind](step, step.places)];
  const delivered = step.deliveries.map(([, sender, number]) => `${sender}.${number}`);
  if (delivered.length) parts.push(`node ${step.node} delivers ${delivered.join(", ")}`);
  else if (carriesMessage(step)) parts.push("nothing is delivered by it");
  for (const [node, decision] of step.decisions) {
    const [instance, value] = decision.split(":");
    parts.push(`node ${node} decides ${value} in instance ${instance}`);
  }
  return `${event}${parts.join("; ")}.`;
}

// ---- steps on and back

let at = 0;

function stepOn(step) {
  for (const [node, sender] of step.deliveries) group[node].delivered[sender] += 1;
  for (const [node, decision] of step.decisions) group[node].decided.push(decision);
  if (step.owed) group[step.owed.node].owed = step.owed.row;
  if (step.kind === "crash" && !step.isRefused) group[step.node].isLive = false;
}

function stepBack(step) {
  for (const [node, sender] of step.deliveries) group[node].delivered[sender] -= 1;
  for (const [node] of step.decisions) group[node].decided.pop();
  if (step.owed) group[step.owed.node].owed = step.owed.before;
  if (step.kind === "crash" && !step.isRefused) group[step.node].isLive = true;
}

function go(wanted) {
  const to = Math.max(0, Math.min(steps.length - 1, wanted));
  while (at < to) stepOn(steps[at += 1]);
  while (at > to) { stepBack(steps[at]); at -= 1; }
  show();
}

// ---- what is shown

function chip(words, sender, hasChanged) {
  const made = document.createElement("span");
  made.className = hasChanged ? "chip changed" : "chip";
  made.style.borderLeftColor = sender === undefined ? "#222" : COLOURS[sender % 8];
  made.textContent = words;
  return made;
}

// Of each sender a prefix of its items is delivered: the first and the last.
function deliveredChips(node, step) {
  const news = new Set(step.deliveries.filter(([at]) => at === node).map(([, sender]) => sender));
  return group[node].delivered.flatMap((count, sender) => {
    if (!count) return [];
    const words = count === 1 ? `${sender}.0` : `${sender}.0\u2013${sender}.${count - 1}`;
    return [chip(words, sender, news.has(sender))];
  });
}

function decidedChips(node, step) {
  const news = new Set(step.decisions.filter(([at]) => at === node).map(([, decision]) => decision));
  return group[node].decided.map((decision) => chip(decision, undefined, news.has(decision)));
}

function owedChips(node, step) {
  const before = step.owed?.node === node ? step.owed.before : group[node].owed;
  return group[node].owed.flatMap((count, other) => {
    return count ? [chip(`${count} to node ${other}`, other, count !== before[other])] : [];
  });
}

function spaced(chips) {
  return chips.flatMap((one) => [one, " "]);
}

// By node, what its row was made of: most rows stay as they are.
const madeOf = [];

function showNode(node, step) {
  const { isLive, delivered, decided, owed } = group[node];
  const parts = [isLive, delivered, decided.length, owed, step.node === node ? at : ""].join(" ");
  if (madeOf[node] === parts) return;
  madeOf[node] = parts;
  const row = find("nodes").tBodies[0].rows[node];
  const isGone = !isLive;
  row.className = isGone ? "gone" : step.node === node ? "acts" : "";
  row.cells[0].textContent = `node ${node}${isGone ? ", crashed" : ""}`;
  row.cells[1].replaceChildren(...spaced(deliveredChips(node, step)));
  row.cells[2].replaceChildren(...spaced(decidedChips(node, step)));
  row.cells[3].replaceChildren(...spaced(owedChips(node, step)));
}

function rectangle(fill, opacity) {
  const made = document.createElementNS("http://www.w3.org/2000/svg", "rect");
  const bottom = svg.querySelector(".legend").transform.baseVal[0].matrix.f;
  const looks = { y: 28, height: bottom - 28, fill, "fill-opacity": opacity, "pointer-events": "none" };
  for (const [name, value] of Object.entries(looks)) made.setAttribute(name, value);
  return svg.appendChild(made);
}

// What is to come lies behind a curtain; the column of the step has a tint.
const curtain = rectangle("#fff", 0.82);
const tint = rectangle("#0072b2", 0.12);

function showPlace() {
  const width = svg.viewBox.baseVal.width;
  const from = at === 0 ? undefined : steps[at].x - 8;
  const end = at + 1 < steps.length ? steps[at + 1].x - 8 : width;
  const to = from === undefined ? end : Math.max(end, from + 16);
  const columns = from === undefined ? 0 : Math.min(to, from + 200) - from;
  tint.setAttribute("x", from ?? 0);
  tint.setAttribute("width", columns);
  curtain.setAttribute("x", at + 1 < steps.length ? to : width);
  curtain.setAttribute("width", at + 1 < steps.length ? Math.max(0, width - to) : 0);
}

// Where the picture scrolls to is asked once a frame, since the answer wants all of it laid out.
let isToScroll = false;

function scrollToStep() {
  isToScroll = false;
  const box = find("picture");
  const place = at === 0 ? 0 : steps[at].x;
  if (place < box.scrollLeft + 60 || place > box.scrollLeft + box.clientWidth - 120) {
    box.scrollLeft = place - box.clientWidth / 2;
  }
}

function scrollSoon() {
  if (!isToScroll) requestAnimationFrame(scrollToStep);
  isToScroll = true;
}

function show() {
  const step = steps[at];
  find("words").textContent = wordsOf(step);
  find("count").textContent = `step ${at} of ${steps.length - 1}`;
  find("place").value = at;
  for (const node of group.keys()) showNode(node, step);
  showPlace();
  scrollSoon();
}

// ---- the page begins

function addRows() {
  for (const node of group) {
    const row = find("nodes").tBodies[0].insertRow();
    for (let place = 0; place < 4; place += 1) row.insertCell();
  }
}

function listen() {
  const goals = { first: () => 0, back: () => at - 1, next: () => at + 1, last: () => steps.length - 1 };
  const keys = { Home: "first", ArrowLeft: "back", ArrowRight: "next", End: "last" };
  for (const [id, goal] of Object.entries(goals)) find(id).addEventListener("click", () => go(goal()));
  find("place").addEventListener("input", () => go(Number(find("place").value)));
  document.addEventListener("keydown", (pressed) => {
    const id = keys[pressed.key];
    if (!id || pressed.altKey || pressed.ctrlKey || pressed.metaKey || pressed.shiftKey) return;
    pressed.preventDefault();
    go(goals[id]());
  });
  window.addEventListener("hashchange", () => go(Number(location.hash.slice(1)) || 0));
}

readLines(find("steps").textContent);
readTitles();
addRows();
find("place").max = steps.length - 1;
listen();
go(Number(location.hash.slice(1)) || 0);
</script>
</body>
</html>
"##;
