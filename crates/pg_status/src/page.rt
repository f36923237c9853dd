//! The page.

/// The page at `/`: one text of HTML without outside parts. It asks for `/state` each second, and shows where the
/// gateway is out of reach.
pub fn page_text() -> &'static str {
    PAGE
}

const PAGE: &str = r#"<!DOCTYPE html>
<html lang="en">
<head>
<meta charset="utf-8">
<meta name="viewport" content="width=device-width, initial-scale=1">
<title>pdcgw</title>
<link rel="icon" href="data:,">
<style>
:root {
  --ground: #12161b; --panel: #1a2027; --rule: #2b343e; --text: #e4e8ec; --muted: #97a3ae;
  --good: #4fbf8b; --warn: #e3a63c; --bad: #ff6b66; --bad-ground: #3a1c1f; --data: #4b82b8;
}
@media (prefers-color-scheme: light) {
  :root {
    --ground: #f2f4f6; --panel: #ffffff; --rule: #d8dee4; --text: #1b2127; --muted: #5a6671;
    --good: #1b7f4f; --warn: #94620a; --bad: #c0262d; --bad-ground: #fbe3e4; --data: #6fa3d6;
  }
}
* { box-sizing: border-box; }
body {
  margin: 0; background: var(--ground); color: var(--text);
  font: 16px/1.45 system-ui, "Segoe UI", Roboto, "Helvetica Neue", Arial, sans-serif;
  font-variant-numeric: tabular-nums;
}
header {
  display: flex; align-items: baseline; gap: .8rem; padding: .9rem 1.5rem; border-bottom: 1px solid var(--rule);
}
h1 { margin: 0; font-size: 1.25rem; font-weight: 650; }
header p { margin: 0; color: var(--muted); }
header output { margin-left: auto; color: var(--muted); white-space: nowrap; }
main { max-width: 110rem; margin: 0 auto; padding: 1rem 1.5rem 2rem; display: grid; gap: 1rem; }
main > * { min-width: 0; }
.lost { margin: 0; padding: .7rem 1rem; border: 1px solid var(--bad); border-radius: 6px; background: var(--bad-ground); font-weight: 600; }
.stale section, .stale .tiles { opacity: .45; }
.tiles { display: grid; grid-template-columns: repeat(5, 1fr); gap: 1rem; }
.tiles div, section { background: var(--panel); border: 1px solid var(--rule); border-radius: 6px; }
.tiles div { padding: .7rem 1rem; }
.tiles b { display: block; font-size: 1.9rem; font-weight: 600; line-height: 1.2; }
.tiles span, h2 small { color: var(--muted); font-size: .875rem; font-weight: 400; }
section { padding: .8rem 1rem 1rem; overflow-x: auto; }
h2 { margin: 0 0 .6rem; font-size: 1.05rem; font-weight: 600; }
h2 small { display: inline-block; margin-left: .6rem; }
table { width: 100%; border-collapse: collapse; }
#sources th, #sources tbody tr, #subscribers tbody tr, #streams-head { cursor: pointer; }
#sources th.sorted { color: var(--text); font-weight: 600; }
tr.part td { border-top-style: dotted; }
tr.part td:first-child { padding-left: 1.6rem; }
.bar { display: inline-block; width: 2.4rem; height: .55rem; margin-left: .5rem; border: 1px solid var(--rule); border-radius: 2px; }
td.line svg { display: inline-block; width: 5rem; height: 1.2rem; margin-right: .6rem; vertical-align: middle; }
td.line span { display: inline-block; min-width: 5.2rem; }
.trace { fill: none; stroke: var(--data); stroke-width: 1.5; vector-effect: non-scaling-stroke; }
th, td { padding: .45rem 1.4rem .45rem 0; text-align: left; border-top: 1px solid var(--rule); white-space: nowrap; }
th:last-child, td:last-child { padding-right: 0; }
th { border-top: 0; padding-top: 0; color: var(--muted); font-size: .875rem; font-weight: 500; }
td.wide { white-space: normal; }
.num { text-align: right; }
.good { color: var(--good); } .warn { color: var(--warn); } .bad { color: var(--bad); } .off { color: var(--muted); }
.word::before { content: ""; display: inline-block; width: .6em; height: .6em; margin-right: .5em; border-radius: 50%; background: currentColor; }
.word.off::before { background: none; border: 2px solid currentColor; }
tr.marked td { background: var(--bad-ground); }
tr.marked td:first-child { box-shadow: inset 4px 0 var(--bad); padding-left: .8rem; }
#attention { margin: 0; padding: 0; list-style: none; display: grid; grid-template-columns: repeat(auto-fill, minmax(min(30rem, 100%), 1fr)); gap: .1rem 2rem; }
#attention li { padding: .35rem 0; border-top: 1px solid var(--rule); }
#attention small { color: var(--muted); font-size: .875rem; margin-left: .5rem; }
svg { display: block; width: 100%; overflow: visible; }
.frames { fill: var(--data); fill-opacity: .5; }
.drops { fill: var(--bad); }
.base { stroke: var(--rule); vector-effect: non-scaling-stroke; }
.plot { display: grid; grid-template-columns: 6rem 1fr; column-gap: .8rem; row-gap: .5rem; }
.plot div { display: flex; flex-direction: column; justify-content: space-between; text-align: right; color: var(--muted); font-size: .875rem; line-height: 1.2; }
.plot .large { height: 9rem; } .plot .small { height: 4rem; }
.times { grid-column: 2; display: flex; justify-content: space-between; color: var(--muted); font-size: .875rem; }
.spark { width: 11rem; height: 1.9rem; }
@media (max-width: 1450px) {
  th, td { padding-right: .8rem; }
  .spark { width: 6rem; }
}
@media (max-width: 760px) {
  header { flex-wrap: wrap; gap: 0 .8rem; padding: .8rem 1rem; }
  header p { display: none; }
  main { padding: .8rem; gap: .8rem; }
  .tiles { grid-template-columns: 1fr 1fr; gap: .8rem; }
  .tiles div:last-child { grid-column: 1 / -1; }
  .tiles b { font-size: 1.6rem; }
  .plot { grid-template-columns: 3.6rem 1fr; }
  table, tbody { display: block; }
  #streams { width: 100%; }
  thead { display: none; }
  tr {
    display: grid; grid-template-columns: minmax(0, 1fr) minmax(0, 1fr); gap: .1rem 1.2rem; padding: .6rem 0;
    border-top: 1px solid var(--rule);
  }
  tbody tr:first-child { border-top: 0; padding-top: 0; }
  tr.marked { background: var(--bad-ground); box-shadow: inset 4px 0 var(--bad); padding: .6rem .6rem .6rem .8rem; }
  tr.marked td:first-child { box-shadow: none; padding-left: 0; }
  td, td.num { display: flex; justify-content: space-between; gap: .6rem; padding: .1rem 0; border: 0; text-align: right; }
  td::before { content: attr(data-label); color: var(--muted); text-align: left; }
  td.full, td.wide, td.curve { grid-column: 1 / -1; }
  td.lead { justify-content: flex-start; font-weight: 600; }
  td.state { justify-content: flex-end; }
  td.state::before { content: none; }
  td.full, td.wide { white-space: normal; overflow-wrap: anywhere; }
  td.wide::before { flex: none; }
  h2 small { display: block; margin: 0; }
  .spark { width: 60%; }
}
@media (max-width: 350px) {
  tr { grid-template-columns: minmax(0, 1fr); }
  td.state { justify-content: flex-start; }
}
</style>
</head>
<body>
<header><h1 id="name">pdcgw</h1><p>pdcgw, phasor data concentrator gateway</p><output id="clock">connecting</output></header>
<main id="main">
<p class="lost" id="lost" role="alert" hidden></p>
<section><h2>What needs attention<small id="attention-count"></small></h2><ul id="attention"></ul></section>
<div class="tiles">
<div><b id="sources-up">-</b><span>sources up</span></div>
<div><b id="subscribers-in">-</b><span>subscribers connected</span></div>
<div><b id="streams-on">-</b><span>streams on</span></div>
<div><b id="rate">-</b><span>frames/s sent</span></div>
<div><b id="drops">-</b><span>frames dropped in five minutes</span></div>
</div>
<section>
<h2>Data frames of all subscribers<small>per second</small></h2>
<div class="plot">
<div class="large"><span id="frames-top">0</span><span>sent</span><span>0</span></div>
<svg class="large" viewBox="0 0 300 100" preserveAspectRatio="none" role="img" aria-label="Frames sent"><path class="base" d="M0 100H300"/><path class="frames" id="frames-curve"/></svg>
<div class="small"><span id="drops-top">0</span><span>dropped</span><span>0</span></div>
<svg class="small" viewBox="0 0 300 100" preserveAspectRatio="none" role="img" aria-label="Frames dropped"><path class="base" d="M0 100H300"/><path class="drops" id="drops-curve"/></svg>
<p class="times" style="margin:0"><span>5 min ago</span><span>now</span></p>
</div>
</section>
<section><h2>Sources and their PMUs<small>a click on a source unfolds it, one on a heading sorts</small></h2><table id="sources"></table></section>
<section><h2>Subscribers<small>marked: frames were dropped in the last five minutes</small></h2><table id="subscribers"></table></section>
<section><h2 id="streams-head">Streams<small id="streams-of"></small></h2><table id="streams"></table></section>
</main>
<script>
'use strict';
const SECONDS = 300;
// The last state that came, and the subscriber whose streams are shown; null shows all.
let latest = null;
let chosen = null;
const byId = id => document.getElementById(id);
const tenths = value => value === null ? '–' : (value / 10).toFixed(1) + ' %';
const whole = new Intl.NumberFormat('en-US');
const sum = list => list.reduce((a, b) => a + b, 0);

function span(seconds) {
  const s = Math.max(0, Math.floor(seconds));
  if (s < 60) return s + ' s';
  if (s < 3600) return Math.floor(s / 60) + ' min ' + s % 60 + ' s';
  if (s < 86400) return Math.floor(s / 3600) + ' h ' + Math.floor(s % 3600 / 60) + ' min';
  return Math.floor(s / 86400) + ' d ' + Math.floor(s % 86400 / 3600) + ' h';
}

function size(bytes) {
  const units = ['B', 'kB', 'MB', 'GB', 'TB', 'PB', 'EB'];
  let at = 0;
  while (bytes >= 1000 && at < 6) { bytes /= 1000; at += 1; }
  return (at ? bytes.toFixed(1) : bytes) + ' ' + units[at];
}

// The last seconds of a list, the latest at the right end.
const places = list => list.slice(-SECONDS).map((value, i, all) => [SECONDS - all.length + i, value]);

function curve(list, top) {
  const points = places(list);
  if (!points.length) return '';
  const high = value => (100 - 96 * value / Math.max(top, 1)).toFixed(1);
  return 'M' + points[0][0] + ' 100' + points.map(([x, value]) => 'V' + high(value) + 'H' + (x + 1)).join('') + 'V100Z';
}

function bars(list, top) {
  const tall = value => Math.max(12, 96 * value / Math.max(top, 1)).toFixed(1);
  return places(list).filter(([, value]) => value > 0)
    .map(([x, value]) => 'M' + (x - .5) + ' 100v-' + tall(value) + 'h2v' + tall(value) + 'z').join('');
}

// Adds lists by their right ends.
function added(lists) {
  const length = Math.max(0, ...lists.map(list => list.length));
  const all = new Array(length).fill(0);
  for (const list of lists) list.forEach((value, i) => { all[length - list.length + i] += value; });
  return all;
}

function draw(path, d) { if (path.getAttribute('d') !== d) path.setAttribute('d', d); }

function write(node, text, kind) {
  if (node.textContent !== text) node.textContent = text;
  if (node.className !== kind) node.className = kind;
}

function spark(cell, seconds) {
  if (!cell.firstChild || cell.firstChild.nodeType !== 1) {
    const space = 'http://www.w3.org/2000/svg';
    const svg = document.createElementNS(space, 'svg');
    svg.setAttribute('viewBox', '0 0 300 100');
    svg.setAttribute('preserveAspectRatio', 'none');
    svg.setAttribute('class', 'spark');
    for (const kind of ['frames', 'drops']) {
      const path = document.createElementNS(space, 'path');
      path.setAttribute('class', kind);
      svg.append(path);
    }
    cell.replaceChildren(svg);
  }
  const [frames, drops] = cell.firstChild.children;
  draw(frames, curve(seconds.handed, Math.max(...seconds.handed, 0)));
  draw(drops, bars(seconds.dropped, Math.max(...seconds.dropped, ...seconds.handed, 0)));
}

// A line through numbers of the last five minutes, and the last of them as text; where there is no number the line is broken.
function trace(cell, text, list) {
  if (!cell.firstElementChild || cell.children.length !== 2) {
    const space = 'http://www.w3.org/2000/svg';
    const svg = document.createElementNS(space, 'svg');
    svg.setAttribute('viewBox', '0 0 300 100');
    svg.setAttribute('preserveAspectRatio', 'none');
    const path = document.createElementNS(space, 'path');
    path.setAttribute('class', 'trace');
    svg.append(path);
    cell.replaceChildren(svg, document.createElement('span'));
  }
  const known = list.filter(value => value !== null);
  const [least, most] = [Math.min(...known), Math.max(...known)];
  let pen = 'M';
  const d = places(list).map(([x, value]) => {
    if (value === null) { pen = 'M'; return ''; }
    const at = pen + x + ' ' + (most > least ? 96 - 92 * (value - least) / (most - least) : 50).toFixed(1);
    pen = 'L';
    return at;
  }).join('');
  draw(cell.firstElementChild.firstElementChild, known.length ? d : '');
  write(cell.lastElementChild, text, '');
}

// A number of per cent and a bar of it.
function bar(cell, text, share) {
  if (cell.children.length !== 2) cell.replaceChildren(document.createElement('span'), document.createElement('i'));
  write(cell.firstElementChild, text, '');
  write(cell.lastElementChild, '', 'bar');
  const colour = share >= .99 ? 'var(--good)' : share >= .95 ? 'var(--warn)' : 'var(--bad)';
  const wanted = 'linear-gradient(to right, ' + colour + ' ' + (100 * share).toFixed(0) + '%, transparent 0)';
  if (cell.lastElementChild.dataset.is !== wanted) { cell.lastElementChild.dataset.is = wanted; cell.lastElementChild.style.background = wanted; }
}

// Rows are [marked, cells, class], and a cell is [text, class, drawn], where drawn is the seconds of a subscriber, a line or a share. What is unchanged
// is left as it is.
function fill(id, heads, rows, none) {
  const table = byId(id);
  if (!table.tHead) {
    const head = table.createTHead().insertRow();
    for (const [text, kind] of heads) {
      const cell = document.createElement('th');
      write(cell, text, kind && kind.startsWith('num') ? 'num' : '');
      head.append(cell);
    }
    table.createTBody();
  }
  const body = table.tBodies[0];
  if (!rows.length) {
    body.replaceChildren();
    body.insertRow().insertCell().textContent = none;
    body.rows[0].cells[0].colSpan = heads.length;
    return;
  }
  while (body.rows.length > rows.length) body.deleteRow(-1);
  rows.forEach(([marked, cells, of], i) => {
    const row = body.rows[i] || body.insertRow();
    if (row.cells.length !== heads.length) row.replaceChildren();
    row.className = [marked ? 'marked' : '', of || ''].join(' ').trim();
    cells.forEach(([text, kind, drawn], at) => {
      const cell = row.cells[at] || row.insertCell();
      cell.dataset.label = heads[at][0];
      if (drawn && drawn.handed) { cell.className = 'curve'; spark(cell, drawn); return; }
      if (drawn && drawn.line) { cell.className = 'num line'; trace(cell, text, drawn.line); return; }
      if (drawn && drawn.share !== undefined) { cell.className = 'num'; bar(cell, text, drawn.share); return; }
      if (kind && kind.startsWith('word')) {
        cell.className = 'state';
        if (!cell.firstElementChild) cell.replaceChildren(document.createElement('span'));
        write(cell.firstElementChild, text, kind);
        return;
      }
      write(cell, text, kind || heads[at][1] || '');
    });
  });
}

const dash = value => value === null ? '–' : String(value);

function callOf(source) {
  switch (source.call) {
    case 'up': return ['up', 'word good'];
    case 'connected': return ['connected, no data', 'word warn'];
    case 'calling': return ['calling', 'word warn'];
    case 'pause': return ['pause, ' + span(source.pause), 'word bad'];
    default: return ['not connected', 'word off'];
  }
}

// All that is wrong with a PMU, the worst first: how bad it is, a word, its class, and what to do.
function wrongs(quality, blocks) {
  if (!quality || !blocks) return [[5, 'not announced', 'word warn', 'its source\u2019s configuration does not have it; is its id right?']];
  if (!quality.delay) return [[6, 'silent', 'word bad', 'announced, and no data for a minute']];
  const [error, { median, most }, all] = [blocks.stat >> 14, quality.delay, []];
  const tell = (is, weight, word, kind, hint) => { if (is) all.push([weight, word, kind, hint]); };
  tell(error === 1 || error === 3, 6, 'PMU error', 'word bad', 'it says that its values are not to be used');
  tell(!blocks.sync, 6, 'out of sync', 'word bad', 'it has no UTC time source; see its clock');
  tell(median < -20, 5, 'ahead ' + -median + ' ms', 'word warn', 'its clock or this machine\u2019s is wrong');
  tell(quality.time !== 'locked', 4, 'clock ' + quality.time, 'word warn', 'its clock is not locked');
  tell(quality.minute !== null && quality.minute < 950, 4, 'got ' + tenths(quality.minute), 'word warn', 'frames are missing: its network, or its load');
  tell(error === 2, 3, 'test or absent', 'word warn', 'test mode, or a PDC filled it in');
  tell(median > 100, 3, 'late ' + median + ' ms', 'word warn', '99 % within ' + most + ' ms; a stream\u2019s wait has to be longer');
  tell(blocks.stat & 0x0800, 2, 'trigger', 'word warn', 'it detected a disturbance');
  return all;
}

const stateOf = (quality, blocks) => wrongs(quality, blocks)[0] || [0, 'good', 'word good', ''];

// What was counted a minute ago, or when the page was opened.
const counted = new Map();

function growth(key, value, isNew) {
  const past = counted.get(key) || [];
  if (isNew || !past.length) past.push(value);
  if (past.length > 60) past.shift();
  counted.set(key, past);
  return value - past[0];
}

// What to do about a member that a stream's frames do not carry.
const absentHints = {
  'not registered': 'addpmu, or take it out of the stream',
  'not granted': 'grant it to the subscriber, or take it out of the stream',
  'not announced': 'is its source connected, and is its id right?',
};

// All that is wrong: how bad it is, its class, what it is of, what is wrong, what to do, and the streams that miss something by it.
function troubles({ sources, subscribers, streams }, isNew) {
  const all = [];
  const tell = (weight, kind, of, what, hint) => {
    const item = { weight, kind, of, what, hint, streams: [] };
    all.push(item);
    return item;
  };
  const grew = (key, value) => growth(key, value, isNew);
  const { causes, ahead } = sourceTroubles(sources, tell, grew);
  streamTroubles(streams, causes, ahead, tell, grew);
  subscriberTroubles(subscribers, tell);
  return all.sort((a, b) => b.weight - a.weight);
}

// Those of sources and PMUs; the answer has for each PMU what is wrong with it, and the PMUs whose clocks are ahead.
function sourceTroubles(sources, tell, grew) {
  const [causes, ahead] = [new Map(), new Set()];
  for (const source of sources) {
    const of = 'Source ' + source.source;
    const grown = source.ignored.map(one => [one.reason, grew(of + one.reason, one.count)]).filter(([, count]) => count > 0);
    const ignored = grown.map(([reason, count]) => whole.format(count) + ' frames ignored, ' + reason).join('; ');
    if (source.call === 'rests') continue;
    if (source.call !== 'up') {
      const item = source.call === 'connected' || ignored || source.events
        ? tell(8, 'word bad', of, 'no data that count' + (ignored ? ': ' + ignored : ''), 'silent, or its IDCODE, CHK or clock is wrong: see the log')
        : tell(9, 'word bad', of, 'not connected', 'address, network, firewall, or it is off: see the log');
      for (const pmu of source.pmus) causes.set(source.source + '/' + pmu.pmu, item);
      continue;
    }
    if (ignored) tell(4, 'word warn', of, ignored, 'in the last minute; see the log');
    for (const pmu of source.pmus) {
      const found = wrongs(source.quality, pmu.blocks);
      if (!found.length) continue;
      const [weight, word, kind, hint] = found[0];
      const key = source.source + '/' + pmu.pmu;
      causes.set(key, tell(weight, kind, 'PMU ' + key + (pmu.blocks ? ' ' + pmu.blocks.station : ''), found.map(one => one[1]).join(', '), hint));
      if (word.startsWith('ahead')) ahead.add(key);
    }
  }
  return { causes, ahead };
}

// Those of streams: a member that is missing where nothing is known to be wrong with its PMU. Else its stream stands with the PMU; a member that is late
// since another one's clock is ahead, with that one.
function streamTroubles(streams, causes, ahead, tell, grew) {
  for (const one of streams) {
    const of = 'Stream ' + one.stream + ' of subscriber ' + one.subscriber;
    const early = one.pmus.map(pmu => pmu.source + '/' + pmu.pmu).find(key => ahead.has(key));
    for (const pmu of one.pmus) {
      const key = pmu.source + '/' + pmu.pmu;
      const [missing, late] = ['missing', 'late'].map(which => grew(of + key + which, pmu[which]));
      const cause = causes.get(key) || (late > 0 && early && causes.get(early));
      if (pmu.absent && !(cause && pmu.absent === 'not announced')) tell(4, 'word warn', of + ' PMU ' + key, pmu.absent, absentHints[pmu.absent]);
      else if (cause && (missing || pmu.absent)) cause.streams.push(one.stream + ' of ' + one.subscriber);
      else if (missing && one.on) tell(4, 'word warn', of + ' PMU ' + key, 'missing in ' + whole.format(missing) + ' frames of the last minute' + (late ? ', ' + whole.format(late) + ' blocks late' : ''),
        late ? 'the stream\u2019s wait has to be longer' : 'it does not come: see the PMU');
    }
  }
}

// Those of subscribers. Where more than two are away, they share a line.
function subscriberTroubles(subscribers, tell) {
  for (const one of subscribers) {
    const dropped = sum(one.seconds.dropped);
    if (dropped) tell(7, 'word bad', 'Subscriber ' + one.subscriber, whole.format(dropped) + ' frames dropped in five minutes', 'it or its network is too slow, or its ring is too small');
  }
  const away = subscribers.filter(one => one.waiting !== null && one.port !== null);
  if (away.length > 2) tell(2, 'word warn', 'Subscribers ' + some(away.map(one => one.subscriber), 8), 'not connected', 'their hosts, their network, or a WARN in the log');
  else for (const one of away) tell(2, 'word warn', 'Subscriber ' + one.subscriber, 'not connected for ' + span(one.waiting), 'its host, its network, or a WARN in the log');
}

// The first few of a list.
const some = (list, most) => list.slice(0, most).join(', ') + (list.length > most ? ' and ' + (list.length - most) + ' more' : '');

function showTroubles(all) {
  const list = byId('attention');
  while (list.children.length > Math.max(all.length, 1)) list.lastChild.remove();
  const rows = all.length ? all : [{ kind: 'word good', of: 'Nothing', what: '', hint: 'all sources, PMUs and subscribers are well', streams: [] }];
  rows.forEach(({ kind, of, what, hint, streams }, i) => {
    const item = list.children[i] || list.appendChild(document.createElement('li'));
    if (item.children.length !== 3) item.replaceChildren(document.createElement('span'), document.createElement('b'), document.createElement('small'));
    const [dot, words, after] = item.children;
    write(dot, of, kind);
    write(words, what ? ' ' + what : '', '');
    write(after, hint + (streams.length ? '; fillers in stream ' + some(streams, 2) : ''), '');
  });
  write(byId('attention-count'), all.length ? String(all.length) : '', '');
}

// What was seen in the last five minutes, since the page was opened: a number or null for each second.
const seconds = new Map();

function noted(key, value) {
  const past = seconds.get(key) || [];
  past.push(value);
  if (past.length > SECONDS) past.shift();
  seconds.set(key, past);
  return past;
}

// The sources that are unfolded, and by which heading they are sorted.
const unfolded = new Set();
let sorted = 1;

// Of a source and of each of its PMUs: how bad it is, a word and its class.
function worst(source) {
  const parts = source.pmus.map(pmu => stateOf(source.quality, pmu.blocks));
  const call = callOf(source);
  const weight = { up: 0, rests: 0, connected: 8, calling: 9, pause: 9 }[source.call];
  const worse = source.call === 'up' ? parts.reduce((a, b) => b[0] > a[0] ? b : a, [0, ...call]) : [weight, ...call];
  return { parts, state: worse };
}

const share = tenths => tenths === null ? undefined : tenths / 1000;

function pmuCells(source, pmu, [, word, kind], name) {
  const blocks = source.quality && source.quality.delay && pmu.blocks;
  const freq = blocks && blocks.freq !== null ? blocks.freq / 1000 : null;
  const past = seconds.get(source.source + '/' + pmu.pmu);
  return {
    name: [name], state: [word, kind], station: pmu.blocks ? pmu.blocks.station : '\u2013',
    stat: [blocks ? blocks.stat.toString(16).padStart(4, '0') : '\u2013', blocks && blocks.stat ? 'num warn' : 'num'],
    sync: [blocks ? (blocks.sync ? 'sync' : 'no sync') : '\u2013', blocks && !blocks.sync ? 'bad' : ''],
    frequency: [freq === null ? '\u2013' : freq.toFixed(3) + ' Hz', '', past ? { line: past } : undefined],
  };
}

const sourceHeads = [['Source', 'lead'], ['State'], ['Station', 'full'], ['Rate', 'num'], ['Last minute', 'num'], ['Last hour', 'num'],
  ['Delay, five minutes', 'num line'], ['99 %', 'num'], ['Time'], ['STAT', 'num'], ['Frequency, five minutes', 'num line'], ['Ignored', 'wide']];
const none = ['\u2013'];

function sourceRow(source, { state, parts }) {
  const { quality, pmus } = source;
  const delay = quality && quality.delay;
  const ignored = source.ignored.filter(one => one.count > 0);
  const only = pmus.length === 1 ? pmuCells(source, pmus[0], parts[0], '') : null;
  return [state[0] > 5, [
    [source.source + (unfolded.has(source.source) ? ' \u25be' : ' \u25b8')], [state[1], state[2]],
    [only ? only.station : pmus.length + ' PMUs'],
    [quality ? (quality.rate < 0 ? '1/' + -quality.rate + ' s' : quality.rate + '/s') : '\u2013'],
    [quality ? tenths(quality.minute) : '\u2013', 'num', quality ? { share: share(quality.minute) } : undefined],
    [quality ? tenths(quality.hour) : '\u2013'],
    [delay ? delay.median + ' ms' : '\u2013', '', { line: seconds.get(source.source) || [] }],
    [delay ? delay.most + ' ms' : '\u2013'],
    [quality && quality.time ? quality.time : '\u2013', quality && quality.time && quality.time !== 'locked' ? 'warn' : ''],
    only ? only.stat : none, only ? only.frequency : none,
    [ignored.map(one => one.reason + ' ' + whole.format(one.count)).join(', ') || '\u2013', ignored.length ? 'wide warn' : 'wide'],
  ]];
}

// The rows of a source that is unfolded: itself, and each of its PMUs.
function partRows(source, parts) {
  const last = source.last === null ? 'never' : span(source.last) + ' ago';
  const rest = new Array(8).fill(none);
  const counted = whole.format(source.frames) + ' frames, ' + whole.format(source.events) + ' taken, the last ' + last;
  return [[false, [[''], [''], [dash(source.address)], ...rest, [counted, 'wide']], 'part'],
    ...source.pmus.map((pmu, at) => {
      const { name, state, station, stat, sync, frequency } = pmuCells(source, pmu, parts[at], source.source + '/' + pmu.pmu);
      return [parts[at][0] > 5, [name, state, [station], none, none, none, none, none, sync, stat, frequency, none], 'part'];
    })];
}

// How sources are sorted by a heading: greater ones first, and then by number.
const orders = {
  0: () => 0, 1: (source, judged) => judged.state[0], 4: ({ quality }) => quality && quality.minute !== null ? -quality.minute : -1001,
  5: ({ quality }) => quality && quality.hour !== null ? -quality.hour : -1001, 6: ({ quality }) => quality && quality.delay ? quality.delay.median : -1e9,
  7: ({ quality }) => quality && quality.delay ? quality.delay.most : -1e9, 11: source => sum(source.ignored.map(one => one.count)),
};

function showSources(sources, isNew) {
  if (isNew) {
    for (const source of sources) {
      noted(source.source, source.quality && source.quality.delay ? source.quality.delay.median : null);
      for (const pmu of source.pmus) noted(source.source + '/' + pmu.pmu, source.quality && source.quality.delay && pmu.blocks && pmu.blocks.freq !== null ? pmu.blocks.freq : null);
    }
  }
  const order = orders[sorted] || orders[1];
  const all = sources.map(source => ({ source, judged: worst(source) }));
  all.sort((a, b) => order(b.source, b.judged) - order(a.source, a.judged) || a.source.source - b.source.source);
  fill('sources', sourceHeads, all.flatMap(({ source, judged }) => [
    sourceRow(source, judged),
    ...(unfolded.has(source.source) ? partRows(source, judged.parts) : []),
  ]), 'No source is registered.');
  [...byId('sources').tHead.rows[0].cells].forEach((cell, at) => { cell.classList.toggle('sorted', at === sorted); });
}

// A click on a source unfolds or folds it, one on a heading sorts by it.
byId('sources').addEventListener('click', event => {
  const head = event.target.closest('th');
  const row = event.target.closest('tbody tr');
  if (head && orders[head.cellIndex]) sorted = head.cellIndex;
  if (row && !row.classList.contains('part')) {
    const source = parseInt(row.cells[0].textContent, 10);
    if (!unfolded.delete(source)) unfolded.add(source);
  }
  if (latest) showSources(latest.sources, false);
});

function showSubscribers(subscribers) {
  const heads = [['Subscriber', 'lead'], ['State'], ['Address', 'full'], ['Port', 'num full'], ['Five minutes', 'curve'], ['Frames/s', 'num'],
    ['Made', 'num'], ['Dropped', 'num'], ['Lost', 'num'], ['Late', 'num'], ['Twice', 'num'], ['Gaps', 'num'], ['Sent', 'num'], ['Queue', 'num full']];
  const count = (value, kind) => [whole.format(value), value > 0 ? 'num ' + kind : 'num'];
  fill('subscribers', heads, subscribers.map(one => [sum(one.seconds.dropped) > 0, [
    [String(one.subscriber)],
    one.waiting === null ? ['connected', 'word good'] : ['waiting, ' + span(one.waiting), 'word off'],
    [dash(one.address)], [dash(one.port)], ['', 'curve', one.seconds],
    [whole.format(one.seconds.handed.at(-1) || 0)], [whole.format(one.made)],
    count(one.dropped, 'bad'), count(one.lost, 'bad'), count(one.late, 'warn'), count(one.twice, 'warn'), count(one.gaps, 'bad'),
    [size(one.handed)], [whole.format(one.queue_frames) + ' (' + size(one.queue_bytes) + ')'],
  ]]), 'There is no subscriber.');
}

// The members that are not carried, missing or late.
function membersOf(one) {
  return one.pmus.filter(pmu => pmu.absent || pmu.missing || pmu.late).map(pmu => pmu.source + '/' + pmu.pmu
    + (pmu.absent ? ' ' + pmu.absent : '')
    + (pmu.missing ? ' missing ' + whole.format(pmu.missing) : '')
    + (pmu.late ? ' late ' + whole.format(pmu.late) : '')).join(', ');
}

function showStreams(streams, subscribers) {
  const drops = new Map(subscribers.map(one => [one.subscriber, sum(one.seconds.dropped)]));
  const heads = [['Stream', 'lead'], ['State'], ['Subscriber'], ['Members', 'num'], ['Complete', 'num'], ['By wait', 'num'], ['By window', 'num'], ['By change', 'num'],
    ['Dropped', 'num'], ['Members that were missing', 'wide']];
  const shown = streams.filter(one => chosen === null || one.subscriber === chosen);
  write(byId('streams-of'), chosen === null ? 'of all subscribers; a click on a subscriber shows its own' : 'of subscriber ' + chosen + '; a click here shows all', '');
  const count = value => [whole.format(value), value ? 'num warn' : 'num'];
  fill('streams', heads, shown.map(one => {
    const dropped = drops.get(one.subscriber) || 0;
    const members = membersOf(one);
    return [dropped > 0, [
      [String(one.stream)], one.on ? ['on', 'word good'] : ['off', 'word off'], [String(one.subscriber)],
      [one.effective + ' of ' + one.members, one.effective < one.members ? 'num warn' : 'num'],
      [whole.format(one.complete)], count(one.waited), count(one.pushed), [whole.format(one.changed)],
      [whole.format(dropped), dropped > 0 ? 'num bad' : 'num'],
      [members || '\u2013', members ? 'wide warn' : 'wide'],
    ]];
  }), 'No stream is defined.');
}

// A click on a subscriber shows its streams alone, another one all.
byId('subscribers').addEventListener('click', event => {
  const row = event.target.closest('tbody tr');
  if (!row) return;
  const sub = Number(row.cells[0].textContent);
  chosen = chosen === sub ? null : sub;
  if (latest) show(latest, false);
  byId('streams-head').scrollIntoView({ behavior: 'smooth', block: 'start' });
});
byId('streams-head').addEventListener('click', () => { chosen = null; if (latest) show(latest, false); });

function show(state, isNew) {
  latest = state;
  const { name, sources, subscribers, streams } = state;
  const all = troubles(state, isNew);
  document.title = (all.length ? '(' + all.length + ') ' : '') + name + ' - pdcgw';
  showTroubles(all);
  write(byId('name'), name, '');
  const share = (some, all) => some + ' / ' + all;
  const called = sources.filter(one => one.call !== 'rests');
  const up = called.filter(one => one.call === 'up').length;
  write(byId('sources-up'), share(up, called.length), up < called.length ? 'warn' : '');
  write(byId('subscribers-in'), share(subscribers.filter(one => one.waiting === null).length, subscribers.length), '');
  write(byId('streams-on'), share(streams.filter(one => one.on).length, streams.length), '');
  const handed = added(subscribers.map(one => one.seconds.handed));
  const dropped = added(subscribers.map(one => one.seconds.dropped));
  const lost = sum(dropped);
  write(byId('rate'), whole.format(handed.at(-1) || 0), '');
  write(byId('drops'), whole.format(lost), lost > 0 ? 'bad' : '');
  const [most, worst] = [Math.max(...handed, 0), Math.max(...dropped, 0)];
  draw(byId('frames-curve'), curve(handed, most));
  draw(byId('drops-curve'), bars(dropped, worst));
  write(byId('frames-top'), whole.format(most), '');
  write(byId('drops-top'), whole.format(worst), '');
  showSources(sources, isNew);
  showSubscribers(subscribers);
  showStreams(streams, subscribers);
}

// UTC, as in the log.
const time = when => when.toISOString().replace(/\.\d+Z$/, 'Z');
let seen = null;

async function ask() {
  try {
    const answer = await fetch('/state', { cache: 'no-store', signal: AbortSignal.timeout(4000) });
    if (!answer.ok) throw new Error('answered ' + answer.status);
    show(await answer.json(), true);
    seen = new Date();
    byId('clock').textContent = 'as of ' + time(seen);
    byId('lost').hidden = true;
    byId('main').className = '';
  } catch (error) {
    const since = seen ? 'The figures are of ' + time(seen) + '.' : 'It has not answered yet.';
    byId('lost').textContent = 'The gateway does not answer. ' + since;
    byId('lost').hidden = false;
    byId('main').className = 'stale';
  }
  setTimeout(ask, 1000);
}
ask();
</script>
</body>
</html>
"#;
