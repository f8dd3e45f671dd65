//! A part of the page's script. Made by page/make of causes.js: change that.

pub(crate) const CAUSES: &str = r#"
// What caused an entry, what it caused, and the walk through one command.

// What a word is known by to those that take it. A word may be known by more than one key.
function keysOf(word) {
    const w = word.fields;
    switch (word.kind) {
    case "update": return [`update ${w[0]} ${w[1]}`];
    case "porequest": return [`request ${word.signer} ${w[0]}`, `update ${w[1]} ${w[2]}`];
    case "poack": return [`poack ${w[0]} ${w[1]}`];
    case "posummary": return [`summary ${word.signer}:${w.join(":")}`];
    case "give": return [`request ${w[0]} ${w[1]}`];
    case "ping": return [`ping ${word.signer} ${w[0]}`];
    case "pong": return [`pong ${word.signer} ${w[1]}`];
    case "giveordered": return [`commit ${w[1]} ${w[0]}`, `ordered ${w[0]}`];
    case "preprepare": case "prepare": case "commit": return [`${word.kind} ${w[0]} ${w[1]}`];
    default: return [`${word.kind} ${w[0]} ${w[1] || ""}`.trim()];
    }
}

// The keys of the words by which a correct actor comes to say this one. Of a summary those of its last numbers.
function wantsOf(run, word) {
    const w = word.fields;
    switch (word.kind) {
    case "porequest": return [`update ${w[1]} ${w[2]}`];
    case "poack": return [`request ${w[0]} ${w[1]}`];
    case "posummary": return risen(run, word).map((j) => `poack m${j} ${w[j]}`);
    case "preprepare": return w.slice(2).map((row) => `summary ${row}`);
    case "prepare": return [`preprepare ${w[0]} ${w[1]}`, `newview ${w[0]}`];
    case "commit": return [`prepare ${w[0]} ${w[1]}`, `preprepare ${w[0]} ${w[1]}`];
    case "pong": return [`ping ${w[0]} ${w[1]}`];
    case "rtt": return [`pong ${w[0]} ${w[1]}`];
    case "suspect": return [`suspect ${w[0]}`];
    case "report": return [`suspect ${Number(w[0]) - 1}`];
    case "newview": return w.slice(1).map(() => `report ${w[0]} base`);
    case "give": return [`askupdate ${w[0]} ${w[1]}`];
    case "giveordered": return [`askorder ${w[0]}`];
    default: return [];
    }
}

// Which places of a summary rose over the one that its signer said before.
function risen(run, word) {
    const actor = run.lane.get(word.signer);
    for (let stamp = word.stamp - 1; stamp >= 0; stamp--) {
        if (run.actor[stamp] !== actor) continue;
        const before = wordsAt(run, stamp).find((it) => it.kind === "posummary");
        if (before) return word.fields.flatMap((x, j) => (x !== before.fields[j] ? [j] : []));
    }
    return word.fields.flatMap((x, j) => (x !== "0" ? [j] : []));
}

// For each actor the stamps at which it took a word, by the word's keys. Made when it is first asked for.
function takesOf(run, actor) {
    run.takes = run.takes || new Map();
    if (run.takes.has(actor)) return run.takes.get(actor);
    const found = new Map();
    for (let stamp = 0; stamp < run.count; stamp++) {
        if (run.actor[stamp] !== actor) continue;
        const word = wordTaken(run, stamp);
        if (!word) continue;
        for (const key of keysOf(word)) {
            if (!found.has(key)) found.set(key, []);
            found.get(key).push(stamp);
        }
    }
    run.takes.set(actor, found);
    return found;
}

// The keys of the vouchers by which a proxy wrote, or a screen showed, what it did at an entry.
function vouchersOf(run, stamp) {
    const deed = run.deeds.get(stamp);
    const range = deed && (deed.writes || deed.shows);
    if (!range) return [];
    const name = run.actors[run.actor[stamp]].name;
    const keys = [];
    for (let number = range[0]; number <= range[1]; number++) keys.push(`voucher ${name} ${number}`);
    return keys;
}

// The entries that caused this one: where its frame was said, and where its actor took what its words came of, with where
// those were said.
function causesOf(run, stamp) {
    const found = new Set();
    if (run.from[stamp] >= 0) found.add(run.from[stamp]);
    const keys = vouchersOf(run, stamp);
    for (const word of wordsAt(run, stamp)) keys.push(...wantsOf(run, word));
    const takes = keys.length ? takesOf(run, run.actor[stamp]) : new Map();
    for (const key of keys) {
        for (const take of takes.get(key) || []) {
            if (take >= stamp) break;
            found.add(take);
            if (run.from[take] >= 0) found.add(run.from[take]);
        }
    }
    found.delete(stamp);
    return [...found].sort((a, b) => a - b);
}

// The entries that this one caused: those that took what it said.
function effectsOf(run, stamp) {
    return [...takersAt(run, stamp)];
}

// The commands of the run, in order of their stamps.
function commandsOf(run) {
    const found = [];
    for (let stamp = 0; stamp < run.count; stamp++) {
        if (EVENTS[run.event[stamp]] !== "command") continue;
        const actor = run.actors[run.actor[stamp]];
        const word = wordsAt(run, stamp).find((it) => it.kind === "update");
        const op = readOp(run.line(stamp).split(" says ")[0].split(" ").slice(3));
        found.push({ stamp, screen: actor.name, t: word ? Number(word.fields[1]) : 0, op, actor });
    }
    return found;
}

function noticeOf(command) {
    return command.actor.list.findIndex((it) => command.t > 0 && it.t === command.t && it.what !== "raised" && it.what !== "cleared");
}

// The first entry at which an actor did a thing of this number, -1 where there is none.
function deedAt(run, lane, what, number) {
    if (!run.doneAt) run.doneAt = doneAtOf(run);
    const stamps = run.doneAt.get(`${lane} ${what}`);
    return stamps && stamps[number] !== undefined ? stamps[number] : -1;
}

function doneAtOf(run) {
    const done = new Map();
    for (const [stamp, deed] of run.deeds) {
        for (const what of ["executes", "writes", "shows"]) {
            if (!deed[what]) continue;
            const key = `${run.actor[stamp]} ${what}`;
            if (!done.has(key)) done.set(key, []);
            for (let number = deed[what][0]; number <= deed[what][1]; number++) done.get(key)[number] = stamp;
        }
    }
    return done;
}

// A quorum's rows reach a request.
function reaches(run, rows, j, k) {
    const { f, k: away } = run.plant;
    return rows.filter((row) => Number(row[j]) >= k).length >= 2 * f + away + 1;
}

// The words that are about the requests of an update, by what they do for it: one pass over all words.
function wordsOfUpdate(run, command) {
    const of = { requested: [], acknowledged: [], summed: [], offers: [] };
    const requests = new Map();
    const summed = new Set();
    for (const word of run.words) {
        const w = word.fields;
        if (word.kind === "porequest" && w[1] === command.screen && Number(w[2]) === command.t) {
            requests.set(`${word.signer} ${w[0]}`, [Number(word.signer.slice(1)), Number(w[0])]);
            of.requested.push(word.stamp);
        } else if (word.kind === "poack" && requests.has(`${w[0]} ${w[1]}`)) {
            of.acknowledged.push(word.stamp);
        } else if (word.kind === "posummary" && !summed.has(word.signer)) {
            if ([...requests.values()].some(([j, k]) => Number(w[j]) >= k)) {
                summed.add(word.signer);
                of.summed.push(word.stamp);
            }
        } else if (word.kind === "preprepare" && requests.size > 0) {
            const rows = w.slice(2).map((row) => row.split(":").slice(1));
            if ([...requests.values()].some(([j, k]) => reaches(run, rows, j, k))) of.offers.push(word);
        }
    }
    return of;
}

// The offers of the number by which the update was ordered, in each view in which it was offered, and their votes.
function votesOf(run, offers) {
    const votes = { offered: [], prepared: [], committed: [] };
    if (offers.length === 0) return votes;
    const number = Math.min(...offers.map((word) => Number(word.fields[1])));
    const same = offers.filter((word) => Number(word.fields[1]) === number);
    const views = new Set(same.map((word) => word.fields[0]));
    votes.offered = same.map((word) => word.stamp);
    for (const word of run.words) {
        if (word.fields[1] !== String(number) || !views.has(word.fields[0])) continue;
        if (word.kind === "prepare") votes.prepared.push(word.stamp);
        if (word.kind === "commit") votes.committed.push(word.stamp);
    }
    return votes;
}

function executedAt(run, command) {
    return run.correct.flatMap((actor) => {
        const at = actor.list.findIndex((u) => u.client === command.screen && u.t === command.t);
        const stamp = at < 0 ? -1 : deedAt(run, run.lane.get(actor.name), "executes", at + 1);
        return stamp < 0 ? [] : [stamp];
    });
}

// The vouchers of the command's notice and of its write, said where it was executed, and where they were acted on.
function toldOf(run, command, executed) {
    const told = { vouched: [], written: [], shown: [] };
    const writes = new Set();
    for (const stamp of executed) {
        for (const word of wordsAt(run, stamp)) {
            if (word.kind !== "voucher") continue;
            const w = word.fields;
            const notices = w[0] === command.screen && w[2] === "notice" && Number(w[4]) === command.t;
            const isWrite = command.op.kind === "set" && w[2] === "write" && Number(w[3]) === command.op.point
                && isRawOf(run, command.op, Number(w[4]));
            if (notices || isWrite) told.vouched.push(stamp);
            if (isWrite) writes.add(`${w[0]} ${w[1]}`);
        }
    }
    for (const it of writes) {
        const [name, number] = it.split(" ");
        told.written.push(deedAt(run, run.lane.get(name), "writes", Number(number)));
    }
    const notice = noticeOf(command);
    if (notice >= 0) told.shown.push(deedAt(run, run.lane.get(command.screen), "shows", notice + 1));
    return told;
}

function isRawOf(run, op, raw) {
    const point = run.plant.points[op.point];
    return !point || raw * point.scale + point.offset === op.value;
}

// The steps of a command, from the operator's key to the screen's notice: parts with a name and rising stamps.
function walkOf(run, command) {
    const steps = (name, stamps) => ({ name, stamps: [...new Set(stamps.filter((stamp) => stamp >= 0))].sort((a, b) => a - b) });
    if (command.t === 0) return [steps("commanded", [command.stamp])];
    const words = wordsOfUpdate(run, command);
    const votes = votesOf(run, words.offers);
    const executed = executedAt(run, command);
    const told = toldOf(run, command, executed);
    return [
        steps("commanded", [command.stamp]), steps("requested", words.requested), steps("acknowledged", words.acknowledged),
        steps("summed up", words.summed), steps("offered", votes.offered), steps("prepared", votes.prepared),
        steps("committed", votes.committed), steps("executed", executed), steps("vouched for", told.vouched),
        steps("written", told.written), steps("shown", told.shown),
    ].filter((part) => part.stamps.length > 0);
}
"#;
