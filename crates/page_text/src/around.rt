//! The page around its three texts and its script. Made by page/make of page.html and page.css: change those.

pub(crate) const BEFORE_PLANT: &str = r##"<!DOCTYPE html>
<html lang="en">
<head>
<meta charset="utf-8">
<meta http-equiv="Content-Security-Policy" content="default-src 'none'; style-src 'sha256-zQdoNvRL5yIsB0QDcpBCJ++8RsVmPzl2GLnl/E+r1nY=' 'sha256-kLsIy7kqPHiZY9FeWE9RcRqC6SEfZ77Ab6xF1UoJiPk='; script-src 'sha256-N6gyYs/j9yBwCn0zu3BxuGLe0V0i8BwRbFawetCyZhg='">
<meta name="viewport" content="width=device-width, initial-scale=1">
<title>A run of spire</title>
<style>:root { color-scheme: light; }
* { box-sizing: border-box; }
body { margin: 0; padding: 0 20px 40px; font: 15px/1.45 system-ui, "Liberation Sans", sans-serif; color: #202020; background: #ffffff; }
header { display: flex; flex-wrap: wrap; align-items: baseline; gap: 8px 24px; border-bottom: 1px solid #d0d0d0; }
h1 { font-size: 24px; margin: 14px 0 8px; }
h2 { font-size: 19px; margin: 26px 0 8px; }
h3 { font-size: 16px; margin: 12px 0 4px; }
h4 { font-size: 14px; margin: 8px 0 2px; }
a { color: #1c5fd0; }
nav a { margin-right: 10px; }
p { margin: 6px 0; max-width: 110ch; }
#faults { background: #c00020; color: #ffffff; padding: 8px 12px; }
p.holds, p.fails { padding-left: 10px; border-left: 5px solid; }
p.holds { border-color: #2e8b57; }
p.fails { border-color: #c00020; }
span.holds { color: #1d6b3c; }
span.fails { color: #a0001a; }
.tables { display: flex; flex-wrap: wrap; gap: 16px 32px; align-items: flex-start; margin-top: 10px; }
table { border-collapse: collapse; font-size: 14px; margin: 6px 0 12px; }
caption { text-align: left; font-weight: bold; padding-bottom: 2px; white-space: nowrap; }
th { text-align: left; font-weight: normal; color: #606060; }
th, td { padding: 1px 12px 1px 0; border-bottom: 1px solid #e8e8e8; vertical-align: top; }
button { font: inherit; font-size: 13px; padding: 1px 8px; border: 1px solid #b8b8b8; border-radius: 4px; background: #f6f6f6; color: #202020; cursor: pointer; }
button:hover { background: #e8eefb; }
button.entry { padding: 0 5px; border-color: #c8d4ee; background: #f2f6fd; color: #1c4fa0; font-variant-numeric: tabular-nums; }
input[type="text"] { font: inherit; padding: 1px 6px; }
kbd { font: 12px ui-monospace, "Liberation Mono", monospace; border: 1px solid #c0c0c0; border-radius: 3px; padding: 0 4px; background: #f8f8f8; }
.keys, .quiet, details { font-size: 13px; color: #606060; }
#bar { display: flex; flex-wrap: wrap; gap: 6px 10px; align-items: center; max-width: none; }
#stage { position: relative; width: 100%; border: 1px solid #c8c8c8; }
#lanes { display: block; cursor: grab; touch-action: none; }
#lanes:focus-visible { outline: 2px solid #1c5fd0; }
#overview { display: block; margin-top: 4px; cursor: pointer; touch-action: none; }
#tip { position: absolute; z-index: 2; pointer-events: none; max-width: 620px; padding: 5px 8px; background: #fffdf2; border: 1px solid #a0a0a0; box-shadow: 0 2px 6px rgba(0, 0, 0, 0.2); font-size: 13px; overflow-wrap: anywhere; }
code, pre.printed { font: 13px ui-monospace, "Liberation Mono", monospace; }
pre.printed { margin: 4px 0; padding: 6px 8px; background: #f4f4f4; white-space: pre-wrap; overflow-wrap: anywhere; }
#legend { display: flex; flex-wrap: wrap; gap: 4px 6px; margin: 6px 0; }
#legend button { font-size: 12px; padding: 0 6px; }
.dot { display: inline-block; width: 10px; height: 10px; border-radius: 5px; margin-right: 6px; }
#walk { display: flex; flex-wrap: wrap; gap: 6px; align-items: center; padding: 6px 8px; background: #fff8dc; border: 1px solid #d0a000; }
#walk[hidden] { display: none; }
button.part.now { background: #d0a000; color: #000000; font-weight: bold; }
.sides { display: grid; grid-template-columns: repeat(auto-fit, minmax(300px, 1fr)); gap: 8px 24px; }
.sides ul { margin: 0; padding-left: 18px; font-size: 14px; }
.cause h4 { color: #1c5fd0; }
.effect h4 { color: #b84e00; }
.plots { display: grid; grid-template-columns: repeat(auto-fill, minmax(min(100%, 400px), 1fr)); gap: 8px 24px; }
figure { margin: 0; min-height: 228px; }
figcaption { font-size: 14px; }
#bars { width: 100%; min-height: 252px; }
#bars svg { display: block; cursor: pointer; }
#bar_told { min-height: 1.45em; }
#delays p button { margin-right: 6px; }
svg path.bar { fill: none; }
svg path.slowest { stroke: #9dbfe0; }
svg path.fastest { stroke: #2a6fb0; }
svg path.missed { stroke: #c00020; }
svg line.bound { stroke-width: 1.4; }
svg line.pointed { stroke: #202020; stroke-opacity: 0.35; }
svg text { font: 12px system-ui, "Liberation Sans", sans-serif; fill: #404040; }
svg .right { text-anchor: end; }
svg .middle { text-anchor: middle; }
svg .grid { stroke: #ececec; }
svg .axis { stroke: #808080; }
svg line.limit { stroke: #c00020; stroke-dasharray: 6 4; }
svg text.limit { fill: #a0001a; }
svg rect.raised { fill: #c00020; fill-opacity: 0.09; }
svg path.reading { fill: none; stroke: #2a6fb0; stroke-width: 1.6; }
svg circle.reading { fill: #2a6fb0; }
svg rect.setting { fill: #ffffff; stroke: #c97800; stroke-width: 2; }
svg rect.setting.done { fill: #c97800; }
@media print { #bar, .keys, #overview { display: none; } }
</style>
</head>
<body>
<p id="faults" role="alert" hidden></p>
<noscript><style>main, nav { display: none } pre { display: block }</style><p>This page draws the run by its script. Without it, the run's text stands below.</p></noscript>
<header>
<h1>A run of spire</h1>
<nav><a href="#what">What became of it</a> <a href="#commands">Commands</a> <a href="#alarms">Alarms</a> <a href="#time">Time line</a> <a href="#delays">Delays</a> <a href="#points">Points</a></nav>
</header>
<main>
<section id="what" aria-label="What became of it"></section>
<section id="commands" aria-label="Commands"></section>
<section id="alarms" aria-label="Alarms"></section>
<section id="time" aria-label="Time line">
<h2>Time line</h2>
<p id="bar">
<label>Filter <input id="filter" type="text" size="28" autocomplete="off" spellcheck="false" placeholder="m0 masters commit tick -poack" title="Actors, kinds of words and events, with spaces between them. A minus takes out. Press / to come here."></label>
<button id="whole" type="button" title="the whole run (0)">whole run</button>
<button id="closer" type="button" title="closer (+)">+</button>
<button id="wider" type="button" title="wider (-)">&#8722;</button>
<label><input id="lines" type="checkbox" checked> lines</label>
<span id="shown" role="status"></span>
</p>
<div id="stage"><canvas id="lanes" tabindex="0" role="img" aria-label="A lane for each actor, a mark for each entry"></canvas><div id="tip" hidden></div></div>
<canvas id="overview" role="img" aria-label="The whole run"></canvas>
<div id="walk" hidden></div>
<div id="legend"></div>
<details>
<summary>What the marks and keys mean</summary>
<p>A dot is a frame taken, in the colour of its word; red where nobody said it. A rim: the entry says something. A bar: a tick. A black square: a command. A blue bar: a change in the field. A blue ring: a poll. A red square: a cry. A great ring: a restart. Numbers below a lane: updates executed; above it: values written (black) and notices shown (brown). A line: a word, from where it was said to where it was taken. A ground: a view.</p>
<p class="keys"><kbd>/</kbd> filter, <kbd>&#8592;</kbd> <kbd>&#8594;</kbd> the entry before and after, of the walk where one is on, <kbd>&#8593;</kbd> <kbd>&#8595;</kbd> the lane above and below, <kbd>w</kbd> walk through the command, <kbd>n</kbd> the next command, <kbd>+</kbd> <kbd>&#8722;</kbd> <kbd>0</kbd> closer, wider, whole, <kbd>Esc</kbd> nothing chosen. Drag to move, turn the wheel to come closer.</p>
</details>
<div id="chosen" aria-live="polite"></div>
</section>
<section id="delays" aria-label="Delays"></section>
<section id="points" aria-label="Points"></section>
</main>
<pre id="plant" hidden>
"##;

pub(crate) const BEFORE_RUN: &str = r#"</pre>
<pre id="run" hidden>
"#;

pub(crate) const BEFORE_DETAILS: &str = r#"</pre>
<pre id="details" hidden>
"#;

pub(crate) const BEFORE_SCRIPT: &str = r#"</pre>
<script>(function () {
"use strict";
"#;

pub(crate) const BEHIND: &str = r#"}());
</script>
</body>
</html>
"#;
