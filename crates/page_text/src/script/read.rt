//! A part of the page's script. Made by page/make of read.js: change that.

pub(crate) const READ: &str = r##"
// Reads the three texts that the page holds: what the scenario says of the plant, the printed run, and what the run's
// text doesn't tell (the fields of words, and what came of entries). Their lines are in PAGE.md and docs/FORMATS.md.

const KINDS = ["update", "porequest", "poack", "posummary", "preprepare", "prepare", "commit", "ping", "pong", "rtt",
    "tatreport", "tatbound", "suspect", "report", "newview", "askupdate", "give", "askorder", "giveordered", "voucher",
    "mark"];
const EVENTS = ["took", "tick", "command", "field", "poll", "cry", "skip", "restart"];

// Each family of words has a colour.
const FAMILIES = [
    { name: "requests", colour: "#2a6fb0", kinds: ["update", "porequest", "poack", "posummary"] },
    { name: "order", colour: "#2e8b57", kinds: ["preprepare", "prepare", "commit"] },
    { name: "vouchers", colour: "#c97800", kinds: ["voucher"] },
    { name: "views", colour: "#8a3fb0", kinds: ["suspect", "report", "newview"] },
    { name: "measures", colour: "#7d7d7d", kinds: ["ping", "pong", "rtt", "tatreport", "tatbound"] },
    { name: "lacks", colour: "#8b5a2b", kinds: ["askupdate", "give", "askorder", "giveordered"] },
    { name: "marks", colour: "#008080", kinds: ["mark"] },
];
const WRONG = "#c00020";
const FAMILY_OF = new Map(FAMILIES.flatMap((family, at) => family.kinds.map((kind) => [kind, at])));

function textOf(id) {
    return document.getElementById(id).textContent;
}

function readOp(words) {
    if (words[0] === "ack") return { kind: "ack", alarm: Number(words[1]) };
    // The value as it is printed too, since a number of 64 bits may have more digits than a number here holds.
    return { kind: words[0], point: Number(words[1]), value: Number(words[2]), printed: words[2] };
}

function readPlant(text) {
    const plant = { f: 0, k: 0, rules: 1, points: [], alarms: [], interlocks: [] };
    for (const line of text.split("\n")) {
        const w = line.split(" ");
        if (w[0] === "group") {
            Object.assign(plant, { f: Number(w[1]), k: Number(w[2]), rules: Number(w[4]) });
        } else if (w[0] === "point") {
            plant.points.push({ name: w[1], proxy: w[2], area: w[3], place: Number(w[4]), scale: Number(w[6]),
                offset: Number(w[8]), low: Number(w[10]), high: Number(w[12]), start: Number(w[14]) });
        } else if (w[0] === "alarm") {
            plant.alarms.push({ name: w[1], point: Number(w[3]), kind: w[4], limit: Number(w[5]), band: Number(w[7]) });
        } else if (w[0] === "interlock") {
            plant.interlocks.push({ name: w[1], point: Number(w[3]), value: w[5] === "any" ? null : Number(w[5]) });
        }
    }
    return plant;
}

// The lines before the history: what each actor came to. Answers the number of the first line of the history.
function readHead(run, lines) {
    let actor = null;
    let at = 1;
    for (; at < lines.length && !lines[at].startsWith("history "); at++) {
        const w = lines[at].split(" ");
        if (w[0] === "master" || w[0] === "proxy" || w[0] === "screen") {
            actor = { name: w[1], role: w[0], intruded: w[2] === "intruded", halted: w[w.length - 1] === "halted",
                view: w[2] === "view" ? Number(w[3]) : 0, list: [] };
            run.lane.set(actor.name, run.actors.length);
            run.actors.push(actor);
        } else if (w[0] === "audit") {
            run.audit = { forged: Number(w[2]), alike: Number(w[4]), intruded: Number(w[6]), limit: Number(w[8]) };
        } else if (w[0] === "agree") {
            run.agree = w[1] === "yes";
        } else if (actor.role === "master") {
            actor.list.push({ client: w[1], t: Number(w[2]), op: readOp(w.slice(3)) });
        } else if (actor.role === "proxy") {
            actor.list.push({ point: Number(w[1]), raw: Number(w[2]), answer: w.slice(3).join(" ") });
        } else {
            actor.list.push(readNotice(w.slice(1)));
        }
    }
    return at + 1;
}

function readNotice(w) {
    const what = w[0];
    if (what === "raised" || what === "cleared") return { what, t: 0, number: Number(w[1]) };
    return { what, t: Number(w[1]), number: w[2] === undefined ? 0 : Number(w[2]) };
}

function readEntries(run, lines, first) {
    run.count = lines.length - first;
    run.actor = new Uint8Array(run.count);
    run.event = new Uint8Array(run.count);
    // Where the frame was said that an entry took: a stamp and a place, or -1 where it is told by its bytes.
    run.from = new Int32Array(run.count).fill(-1);
    run.place = new Int32Array(run.count);
    run.line = (stamp) => lines[first + stamp];
    for (let stamp = 0; stamp < run.count; stamp++) {
        const line = lines[first + stamp];
        const a = line.indexOf(" ") + 1;
        const b = line.indexOf(" ", a) + 1;
        let c = line.indexOf(" ", b);
        if (c < 0) c = line.length;
        run.actor[stamp] = run.lane.get(line.slice(a, b - 1));
        run.event[stamp] = EVENTS.indexOf(line.slice(b, c));
        if (run.event[stamp] === 0 && !line.startsWith("frame ", c + 1)) {
            const dot = line.indexOf(".", c);
            run.from[stamp] = parseInt(line.slice(c + 1, dot), 10);
            run.place[stamp] = parseInt(line.slice(dot + 1, dot + 11), 10);
        }
    }
}

// The words of the run in order, and where those of each stamp begin. A word's fields are what stands behind its kind.
function readDetails(run, text) {
    run.words = [];
    run.firstWord = new Int32Array(run.count + 1);
    run.wholeFrames = new Map();
    run.deeds = new Map();
    const came = run.actors.map(() => [0, 0, 0, 0]);
    let reached = 0;
    for (let at = 0; at < text.length;) {
        let end = text.indexOf("\n", at);
        if (end < 0) end = text.length;
        const w = text.slice(at, end).split(" ");
        at = end + 1;
        const stamp = Number(w[0]);
        if (w[1] === "said") {
            while (reached <= stamp) run.firstWord[reached++] = run.words.length;
            run.words.push({ stamp, signer: w[2], kind: w[3], fields: w.slice(4) });
        } else if (w[1] === "took") {
            run.wholeFrames.set(stamp, { stamp: -1, signer: w[2], kind: w[3], fields: w.slice(4) });
        } else if (w[1] === "came") {
            run.deeds.set(stamp, deedOf(came[run.actor[stamp]], w.slice(2).map(Number)));
            came[run.actor[stamp]] = w.slice(2).map(Number);
        }
    }
    while (reached <= run.count) run.firstWord[reached++] = run.words.length;
    run.taken = takersOf(run);
}

// What an actor did at an entry, by how far it came before and behind it: the first and the last number of the updates that
// it executed, of the values that it wrote and of the notices that it showed, and the view that it came to.
function deedOf(before, after) {
    const deed = {};
    for (const [at, what] of ["executes", "writes", "shows"].entries()) {
        if (after[at] > before[at]) deed[what] = [before[at] + 1, after[at]];
    }
    if (after[3] !== before[3]) deed.view = [after[3]];
    return deed;
}

// For each stamp the stamps that took what was said there, as one list with where each one's begins.
function takersOf(run) {
    const begins = new Int32Array(run.count + 1);
    for (let stamp = 0; stamp < run.count; stamp++) if (run.from[stamp] >= 0) begins[run.from[stamp] + 1]++;
    for (let stamp = 0; stamp < run.count; stamp++) begins[stamp + 1] += begins[stamp];
    const next = begins.slice();
    const all = new Int32Array(begins[run.count]);
    for (let stamp = 0; stamp < run.count; stamp++) if (run.from[stamp] >= 0) all[next[run.from[stamp]]++] = stamp;
    return { begins, all };
}

function readRun() {
    const run = { plant: readPlant(textOf("plant")), actors: [], lane: new Map(), audit: null, agree: false };
    const lines = textOf("run").split("\n");
    if (lines[lines.length - 1] === "") lines.pop();
    readEntries(run, lines, readHead(run, lines));
    readDetails(run, textOf("details"));
    run.masters = run.actors.filter((actor) => actor.role === "master");
    run.correct = run.masters.filter((actor) => !actor.intruded);
    // The correct master that executed most: where the run is agreed on, the others' executions begin its own.
    run.furthest = run.correct.reduce((best, one) => (best && best.list.length >= one.list.length ? best : one), null);
    run.longest = longestOf(run.correct);
    return run;
}

function isSameUpdate(a, b) {
    return a.client === b.client && a.t === b.t && JSON.stringify(a.op) === JSON.stringify(b.op);
}

// Masters whose executions don't begin those of another, each with those whose executions begin its own. Where the masters
// agree there is one.
function longestOf(masters) {
    const begins = (a, b) => a.list.length <= b.list.length && a.list.every((update, at) => isSameUpdate(update, b.list[at]));
    const found = [];
    for (const actor of [...masters].sort((a, b) => b.list.length - a.list.length)) {
        const over = found.find((it) => begins(actor, it.actor));
        if (over) over.with.push(actor);
        else found.push({ actor, with: [actor] });
    }
    return found;
}

function wordsAt(run, stamp) {
    return run.words.slice(run.firstWord[stamp], run.firstWord[stamp + 1]);
}

// The word that an entry took, or null where it took none.
function wordTaken(run, stamp) {
    if (run.event[stamp] !== 0) return null;
    if (run.from[stamp] < 0) return run.wholeFrames.get(stamp) || null;
    const from = run.from[stamp];
    const at = run.firstWord[from] + run.place[stamp];
    return at < run.firstWord[from + 1] ? run.words[at] : null;
}

function takersAt(run, stamp) {
    return run.taken.all.subarray(run.taken.begins[stamp], run.taken.begins[stamp + 1]);
}
"##;
