//! What the page has before its sections, and after them.

/// The style of the page, its controls, and the places where the script draws. Neither text has a quotation mark or a backslash, so that
/// both are here as they are in the page.
pub const HEAD: &str = "<!DOCTYPE html>
<html lang=en>
<meta charset=utf-8>
<meta name=viewport content='width=device-width, initial-scale=1'>
<title>Plates</title>
<style>
:root { --page: #f4f4f2; --text: #1c1c1c; --line: #c8c8c4; --paper: #fff; --negative: #f80; --one: #444; --two: #05a; --more: #000;
  --grid: #ccc; --axis: #c00; color-scheme: light dark; }
@media (prefers-color-scheme: dark) { :root { --page: #161718; --text: #e4e4e2; --line: #45474a; --paper: #242628; --negative: #f93;
  --one: #a8a8a8; --two: #5aa9ff; --more: #fff; --grid: #3a3d40; --axis: #f55; } }
@media print { :root { --page: #fff; --text: #000; --line: #999; --paper: #fff; --negative: #f80; --one: #444; --two: #05a; --more: #000;
  --grid: #ccc; --axis: #c00; } }
body { margin: 0 auto; max-width: 70rem; padding: 1rem; background: var(--page); color: var(--text); font: 1rem/1.5 system-ui, sans-serif; }
h1 { font-size: 1.3rem; }
h2 { font-size: 1.1rem; margin-top: 2rem; }
.controls { display: flex; flex-wrap: wrap; gap: .5rem 1rem; align-items: center; }
.controls input { flex: 1 1 16rem; }
button { font: inherit; min-width: 2.2rem; }
.view { overflow: auto; max-height: 70vh; border: 1px solid var(--line); background: var(--paper); margin: .5rem 0; }
canvas { display: block; image-rendering: pixelated; }
output { display: block; font-variant-numeric: tabular-nums; }
#key { display: flex; flex-wrap: wrap; gap: .3rem 1.2rem; padding: 0; list-style: none; }
#key span { display: inline-block; width: 1em; height: 1em; margin-right: .4em; border: 1px solid var(--line); vertical-align: -.15em;
  print-color-adjust: exact; }
#sheet { display: flex; flex-wrap: wrap; gap: .8rem; }
figure { margin: 0; padding: .5rem; border: 1px solid var(--line); background: var(--paper); break-inside: avoid; }
figcaption { font-size: .8rem; line-height: 1.3; white-space: pre; }
#typed { font: inherit; width: 100%; box-sizing: border-box; padding: .3rem; }
[hidden] { display: none; }
@media print {
  .controls, #pixel, #typed { display: none; }
  .view { max-height: none; overflow: visible; }
  .view canvas { max-width: 100%; height: auto !important; }
}
</style>
<h1 id=heading>Plates</h1>
<ul id=key>
<li><span style='background: var(--negative)'></span>below 0</li>
<li><span style='background: var(--paper)'></span>0</li>
<li><span style='background: var(--one)'></span>1</li>
<li><span style='background: var(--two)'></span>2</li>
<li><span style='background: var(--more)'></span>3 and more</li>
<li><span style='background: var(--axis)'></span>the axes: the left border of column 0 and the lower border of row 0</li>
</ul>
<section id=plates hidden>
<div class=controls>
<button id=before title='the revision before (left arrow)'>&#8592;</button>
<input id=slider type=range min=0 value=0 aria-label=revision>
<button id=after title='the next revision (right arrow)'>&#8594;</button>
<button id=smaller title='smaller pixels (-)'>&#8722;</button>
<output id=zoom></output>
<button id=larger title='larger pixels (+)'>+</button>
</div>
<output id=told></output>
<div class=view><canvas id=plate></canvas></div>
<output id=pixel>Point at a pixel.</output>
</section>
<section id=font hidden>
<h2>Characters</h2>
<input id=typed aria-label='a text to set'>
<div class=view><canvas id=line></canvas></div>
<div id=sheet></div>
</section>
";

/// The script, which reads the images of the sections and draws them.
pub const TAIL: &str = "<script>
'use strict';
const $ = id => document.getElementById(id);
const color = name => getComputedStyle(document.documentElement).getPropertyValue(name).trim();
const named = weight => weight < 0 ? '--negative' : weight < 2 ? '--one' : weight < 3 ? '--two' : '--more';
const counted = (count, name) => `${count} ${name}${count === 1 ? '' : 's'}`;
const rounded = number => +number.toFixed(4);

// The runs of an image: pixels of one weight side by side. In an image y points down, and row 0 has its upper edge at -1.
const runsOf = image => [...image.querySelectorAll('path[id^=weight]')].flatMap(path =>
  [...path.getAttribute('d').matchAll(/M(-?[0-9]+) (-?[0-9]+)h([0-9]+)/g)].map(([, x, y, length]) =>
    ({ row: -y - 1, column: +x, length: +length, weight: +path.id.slice(6) })));
const joined = (a, b) => [Math.min(a[0], b[0]), Math.min(a[1], b[1]), Math.max(a[2], b[2]), Math.max(a[3], b[3])];
// A box: first column, lowest row, last column, highest row.
const nothing = [1 / 0, 1 / 0, -1 / 0, -1 / 0];
const boxOf = runs => runs.map(run => [run.column, run.row, run.column + run.length - 1, run.row]).reduce(joined, nothing);
const told = box => box[0] > box[2] ? 'blank' : `columns ${box[0]}..${box[2]}, rows ${box[1]}..${box[3]}`;
const around = box => box[0] > box[2] ? [-1, -1, 1, 1] : [box[0] - 1, box[1] - 1, box[2] + 1, box[3] + 1];
const sections = name => [...document.querySelectorAll(`template[data-${name}]`)].map(template => {
  const runs = runsOf(template.content);
  return { ...template.dataset, runs, box: boxOf(runs) };
});
const plates = sections('revision'), characters = sections('code'), every = around(plates.map(plate => plate.box).reduce(joined, nothing));
// Of several characters with a code the last one counts, as for TeX.
const last = new Map();
for (const character of characters) {
  const before = last.get(character.code);
  character.number = before ? before.number + 1 : 1;
  character.name = `character-${character.code}${before ? `-${character.number}` : ''}.svg`;
  last.set(character.code, character);
}
const advance = character => Math.round(character.dx / 65536);
let at = 0, zoom = 0, pointed = null;

// Prepares a canvas for the pixels of a box, each of them so many CSS pixels large.
function begin(canvas, [left, bottom, right, top], scale) {
  const columns = right - left + 1, rows = top - bottom + 1;
  // Browsers draw nothing on a canvas that is larger.
  const ratio = Math.min(Math.max(1, Math.round(devicePixelRatio)), 8192 / (scale * Math.max(columns, rows)));
  canvas.width = columns * scale * ratio;
  canvas.height = rows * scale * ratio;
  canvas.style.width = `${columns * scale}px`;
  canvas.style.height = `${rows * scale}px`;
  const pen = canvas.getContext('2d'), size = scale * ratio;
  const fill = (name, ...place) => { pen.fillStyle = color(name); pen.fillRect(...place); };
  fill('--paper', 0, 0, canvas.width, canvas.height);
  return {
    size,
    run: (run, name) => fill(name, (run.column - left) * size, (top - run.row) * size, run.length * size, size),
    across: (row, name) => fill(name, 0, (top - row + 1) * size, canvas.width, ratio),
    down: (column, name) => fill(name, (column - left) * size, 0, ratio, canvas.height),
  };
}

function fitting() {
  const width = document.querySelector('#plates .view').clientWidth || 600, height = innerHeight * .65;
  return Math.max(1, Math.min(32, Math.floor(Math.min(width / (every[2] - every[0] + 1), height / (every[3] - every[1] + 1)))));
}

function drawPlate() {
  const { revision, runs, box } = plates[at], scale = zoom || fitting(), pen = begin($('plate'), every, scale);
  for (const run of runs) pen.run(run, named(run.weight));
  if (scale >= 6 && pen.size >= 6) {
    for (let row = every[1]; row <= every[3]; row++) pen.across(row, '--grid');
    for (let column = every[0]; column <= every[2]; column++) pen.down(column, '--grid');
  }
  pen.across(0, '--axis');
  pen.down(0, '--axis');
  const total = runs.reduce((sum, run) => sum + run.length * run.weight, 0);
  $('told').value = `revision ${revision}, totalweight ${total}, ${told(box)}`;
  $('zoom').value = `${scale} px`;
  $('slider').value = at;
  tellPixel();
}

function tellPixel() {
  if (!pointed) return;
  const [row, column] = pointed, run = plates[at].runs.find(run => run.row === row && run.column <= column && column < run.column + run.length);
  $('pixel').value = `column ${column}, row ${row}: weight ${run ? run.weight : 0}`;
}

function go(to) {
  at = Math.max(0, Math.min(plates.length - 1, to));
  drawPlate();
}

function scaleBy(step) {
  zoom = Math.max(1, Math.min(64, (zoom || fitting()) + step));
  drawPlate();
}

// A line of text has the black pixels of the font, which are those of positive weight.
function drawLine() {
  const set = [...$('typed').value].map(letter => last.get(`${letter.codePointAt(0)}`)).filter(Boolean), black = [];
  let place = 0;
  for (const character of set) {
    for (const run of character.runs) if (run.weight > 0) black.push({ ...run, column: place + run.column });
    place += advance(character);
  }
  const box = around(joined(boxOf(black), [0, 0, place, 0])), scale = Math.max(1, Math.min(4, Math.floor(90 / (box[3] - box[1] + 1))));
  const pen = begin($('line'), box, scale);
  for (const run of black) pen.run(run, '--more');
}

function figureOf(character, scale) {
  const figure = document.createElement('figure'), canvas = document.createElement('canvas'), caption = document.createElement('figcaption');
  const pen = begin(canvas, around(joined(character.box, [0, 0, advance(character), 0])), scale);
  for (const run of character.runs) pen.run(run, named(run.weight));
  pen.across(0, '--axis');
  pen.down(0, '--axis');
  pen.down(advance(character), '--grid');
  const letter = character.code > 32 && character.code < 127 ? ` ${String.fromCharCode(character.code)}` : '';
  caption.textContent = [`code ${character.code}${letter}`, `dx ${rounded(character.dx / 65536)}`, `width ${rounded(character.width / 1048576)}`,
    ...told(character.box).split(', '), character.name].join(String.fromCharCode(10));
  figure.append(canvas, caption);
  return figure;
}

function drawAll() {
  if (plates.length) drawPlate();
  if (!characters.length) return;
  drawLine();
  const heights = characters.map(({ box }) => Math.max(box[3], 0) - Math.min(box[1], 0) + 1);
  const scale = Math.max(1, Math.min(8, Math.floor(96 / Math.max(...heights))));
  const sorted = [...characters].sort((a, b) => a.code - b.code || a.number - b.number);
  $('sheet').replaceChildren(...sorted.map(character => figureOf(character, scale)));
}

if (plates.length) {
  $('plates').hidden = false;
  $('slider').max = plates.length - 1;
  $('slider').addEventListener('input', () => go(+$('slider').value));
  const acts = { before: () => go(at - 1), after: () => go(at + 1), smaller: () => scaleBy(-1), larger: () => scaleBy(1) };
  for (const id in acts) $(id).addEventListener('click', acts[id]);
  $('plate').addEventListener('mousemove', event => {
    const scale = zoom || fitting();
    pointed = [every[3] - Math.floor(event.offsetY / scale), every[0] + Math.floor(event.offsetX / scale)];
    tellPixel();
  });
  const keys = { ArrowLeft: acts.before, ArrowRight: acts.after, Home: () => go(0), End: () => go(1 / 0), '+': acts.larger, '=': acts.larger, '-': acts.smaller };
  document.addEventListener('keydown', event => {
    if (event.target === $('typed') || event.ctrlKey || event.metaKey || event.altKey || !keys[event.key]) return;
    keys[event.key]();
    event.preventDefault();
  });
  at = plates.length - 1;
}
if (characters.length) {
  $('font').hidden = false;
  $('typed').value = [...last.keys()].filter(code => code > 32 && code < 127).map(code => String.fromCharCode(code)).join('').slice(0, 60);
  $('typed').addEventListener('input', drawLine);
}
document.title = $('heading').textContent = `${counted(plates.length, 'plate')}, ${counted(characters.length, 'character')}`;
drawAll();
addEventListener('resize', drawAll);
matchMedia('(prefers-color-scheme: dark)').addEventListener('change', drawAll);
matchMedia('print').addEventListener('change', drawAll);
</script>
";
