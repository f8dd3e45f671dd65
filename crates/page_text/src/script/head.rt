//! A part of the page's script. Made by page/make of head.js: change that.

pub(crate) const HEAD: &str = r#"
// What became of the run, in words and tables.

function element(name, attributes, ...children) {
    const made = document.createElement(name);
    for (const [key, value] of Object.entries(attributes || {})) {
        if (key === "onclick") made.addEventListener("click", value);
        else if (key === "class") made.className = value;
        else made.setAttribute(key, value);
    }
    made.append(...children.filter((child) => child !== null && child !== undefined));
    return made;
}

function table(caption, heads, rows) {
    const head = element("tr", {}, ...heads.map((text) => element("th", { scope: "col" }, text)));
    if (rows.length === 0) return element("table", {}, element("caption", {}, caption), element("tbody", {}, element("tr", {}, element("td", {}, "nothing"))));
    const body = rows.map((row) => element("tr", {}, ...row.map((cell) => element("td", {}, cell))));
    return element("table", {}, element("caption", {}, caption), element("thead", {}, head), element("tbody", {}, ...body));
}

// A table that shows the rows of the first items, and of all on demand.
function longTable(caption, heads, items, most, rowOf) {
    if (items.length <= most) return table(caption, heads, items.map(rowOf));
    const box = element("div", {}, table(caption, heads, items.slice(0, most).map(rowOf)));
    box.append(element("button", { type: "button", onclick: () => box.replaceChildren(table(caption, heads, items.map(rowOf))) },
        `all ${items.length} rows`));
    return box;
}

// A button that chooses an entry.
function toEntry(stamp, text) {
    return element("button", { type: "button", class: "entry", onclick: () => choose(stamp, true) }, text || String(stamp));
}

function counted(count, one, more) {
    return `${count === 0 ? "no" : count} ${count === 1 ? one : more}`;
}

function names(actors) {
    const all = actors.map((actor) => actor.name);
    if (all.length < 2) return all.join("");
    return `${all.slice(0, -1).join(", ")} and ${all[all.length - 1]}`;
}

// Whether agreement is promised, and why.
function promiseWords(run) {
    const { forged, alike, intruded, limit } = run.audit;
    const broken = [];
    if (intruded > limit) broken.push(`${counted(intruded, "master is", "masters are")} intruded, and at most ${limit} may be`);
    if (forged > 0) broken.push(`${counted(forged, "word was forged", "words were forged")}`);
    if (alike > 0) broken.push(`${counted(alike, "pair of texts has", "pairs of texts have")} one digest`);
    if (broken.length > 0) return { holds: false, text: `Agreement is not promised for this run: ${broken.join("; ")}.` };
    const few = intruded === 0 ? "no master is intruded" : `${counted(intruded, "master is", "masters are")} intruded`;
    return { holds: true, text: `Agreement is promised for this run, and proved: ${few}, of at most ${limit} that may be; no word was forged, and no two texts have one digest.` };
}

function agreeWords(run) {
    if (run.agree) return "The correct masters agree: of any two of them, the updates that one executed begin those of the other.";
    const [one, other] = run.longest.map((it) => it.actor);
    if (!other) return "The correct masters do not agree.";
    const at = one.list.findIndex((update, place) => !other.list[place] || !isSameUpdate(update, other.list[place])) + 1;
    return `The correct masters do not agree: ${one.name} and ${other.name} executed different updates as number ${at}.`;
}

// What the audit counts, and how many masters may be intruded.
function auditWords(run) {
    const { forged, alike, intruded, limit } = run.audit;
    return `The audit counts ${counted(forged, "forged word", "forged words")}, ${counted(alike, "pair of texts", "pairs of texts")} with one digest, and ${counted(intruded, "intruded master", "intruded masters")}, where ${limit} may be.`;
}

function castWords(run) {
    const intruded = run.masters.filter((actor) => actor.intruded);
    const halted = run.actors.filter((actor) => actor.halted);
    const clients = (role) => run.actors.filter((actor) => actor.role === role).length;
    const parts = [`${run.masters.length} masters (f = ${run.plant.f}, k = ${run.plant.k}, rules ${run.plant.rules}), ${counted(clients("proxy"), "proxy", "proxies")}, ${counted(clients("screen"), "screen", "screens")}, ${counted(run.count, "entry", "entries")}.`];
    parts.push(intruded.length ? `${names(intruded)} ${intruded.length === 1 ? "is" : "are"} intruded.` : "No master is intruded.");
    if (halted.length) parts.push(`${names(halted)} halted, since what keeps ${halted.length === 1 ? "its" : "their"} entries failed.`);
    return parts.join(" ");
}

function showHead(run) {
    const box = document.getElementById("what");
    const promise = promiseWords(run);
    box.append(element("h2", {}, "What became of it"),
        element("p", { class: promise.holds ? "holds" : "fails", id: "promise" }, promise.text),
        element("p", { class: run.agree ? "holds" : "fails", id: "agree" }, agreeWords(run)),
        element("p", { id: "audit" }, auditWords(run)),
        element("p", {}, castWords(run)));
    const row = element("div", { class: "tables" });
    row.append(mastersTable(run), ...clientTables(run));
    box.append(row);
}

function mastersTable(run) {
    const rows = run.masters.map((actor) => (actor.intruded ? [actor.name, "intruded", "", ""]
        : [actor.name, actor.halted ? "halted" : "correct", String(actor.view), String(actor.list.length)]));
    return table("Masters", ["master", "is", "in view", "executed"], rows);
}

// A button to the entry at which an actor did a thing of this number.
function toDeed(run, actor, what, number) {
    const stamp = deedAt(run, run.lane.get(actor.name), what, number);
    return stamp < 0 ? "" : toEntry(stamp);
}

function clientTables(run) {
    const tables = [];
    for (const { actor, with: all } of run.longest) {
        const rows = (u, at) => [String(at + 1), u.client, String(u.t), opWords(run, u.op), toDeed(run, actor, "executes", at + 1)];
        const others = all.length > 1 ? ` (and ${names(all.slice(1))}, as far as they came)` : "";
        tables.push(longTable(`Executed by ${actor.name}${others}`, ["", "of", "its", "update", "entry"], actor.list, 8, rows));
    }
    for (const actor of run.actors) {
        if (actor.role === "proxy") {
            const rows = (it, at) => [String(at + 1), pointName(run, it.point), String(it.raw), it.answer, toDeed(run, actor, "writes", at + 1)];
            tables.push(longTable(`Written by ${actor.name}`, ["", "point", "raw", "answer", "entry"], actor.list, 8, rows));
        } else if (actor.role === "screen") {
            const rows = (it, at) => [String(at + 1), it.t ? String(it.t) : "", noticeWords(run, it), toDeed(run, actor, "shows", at + 1)];
            tables.push(longTable(`Shown by ${actor.name}`, ["", "command", "notice", "entry"], actor.list, 8, rows));
        }
    }
    return tables;
}

// How long a command took: entries, and the most ticks of one correct master between.
function delayOf(run, from, to) {
    if (to < 0) return ["", ""];
    const ticks = new Map();
    for (let stamp = from; stamp <= to; stamp++) {
        if (EVENTS[run.event[stamp]] === "tick") ticks.set(run.actor[stamp], (ticks.get(run.actor[stamp]) || 0) + 1);
    }
    const most = Math.max(0, ...run.correct.map((actor) => ticks.get(run.lane.get(actor.name)) || 0));
    return [String(to - from), String(most)];
}

function answerNotice(command) {
    const at = noticeOf(command);
    return at < 0 ? null : command.actor.list[at];
}

function commandRow(run, command, at) {
    const notice = noticeOf(command);
    const shown = notice < 0 ? -1 : deedAt(run, run.lane.get(command.screen), "shows", notice + 1);
    const answer = command.t === 0 ? "not said: no key was left" : notice < 0 ? "no notice yet" : noticeWords(run, command.actor.list[notice]);
    const mark = element("span", { class: notice >= 0 && command.actor.list[notice].what === "done" ? "holds" : "fails" }, answer);
    const [entries, ticks] = delayOf(run, command.stamp, shown);
    return [`${command.screen} ${command.t || ""}`, opWords(run, command.op), mark, toEntry(command.stamp),
        shown < 0 ? "" : toEntry(shown), entries, ticks,
        element("button", { type: "button", onclick: () => startWalk(at) }, "walk")];
}

function showCommands(run) {
    const box = document.getElementById("commands");
    box.append(element("h2", {}, "Commands"));
    if (run.commands.length === 0) {
        box.append(element("p", {}, "No command was given."));
        return;
    }
    const denied = run.commands.filter((command) => { const notice = answerNotice(command); return notice && notice.what === "denied"; });
    box.append(element("p", {}, `${counted(run.commands.length, "command", "commands")}, of which ${denied.length === 0 ? "none was" : counted(denied.length, "was", "were")} denied by an interlock. Ticks are the most that one correct master's clock made between.`),
        longTable("", ["command", "what", "answer", "given at", "shown at", "entries", "ticks", ""], run.commands, 30, (command, at) => commandRow(run, command, at)));
    if (denied.length) box.append(longTable("Denied", ["command", "what", "by interlock", "which guards", "alarms raised then", "values then", "execution"], denied, 30, (command) => deniedRow(run, command)));
    if (run.plant.interlocks.length) {
        const locks = run.plant.interlocks.map((it, at) => [String(at), it.name, guardWords(run, it)]);
        box.append(table("Interlocks", ["", "name", "guards"], locks),
            element("p", { class: "quiet" }, "An interlock denies a setting while its rule holds, the first one that does. The rule itself is its deny in the scenario."));
    }
}

function guardWords(run, lock) {
    return `${pointName(run, lock.point)} against ${lock.value === null ? "any value" : lock.value}`;
}

// A command that was denied: by which interlock, and how the plant stood where it was executed.
function deniedRow(run, command) {
    const lock = run.plant.interlocks[answerNotice(command).number];
    const list = run.furthest ? run.furthest.list : [];
    const number = list.findIndex((update) => update.client === command.screen && update.t === command.t) + 1;
    const raised = run.alarmSpans.filter((span) => span.raised < number && (span.cleared === 0 || span.cleared >= number));
    return [`${command.screen} ${command.t}`, opWords(run, command.op), lock ? lock.name : "", lock ? guardWords(run, lock) : "",
        number ? listed(raised.map((span) => alarmName(run, span.alarm))) : "", number ? valuesBefore(run, number, lock) : "",
        number ? element("span", {}, `${number} at `, toDeed(run, run.furthest, "executes", number)) : ""];
}

// The values, before an execution, of the points that have alarms, and of the one that an interlock guards.
function valuesBefore(run, number, lock) {
    const looked = run.plant.points.flatMap((point, at) => ((lock && lock.point === at) || run.plant.alarms.some((alarm) => alarm.point === at) ? [at] : []));
    const told = looked.slice(0, 12).map((at) => `${pointName(run, at)} ${valueBefore(run, at, number)}`);
    return told.join(", ") + (looked.length > 12 ? ", .." : "");
}

// The value of a point before an execution: its last reading that counts, or the one that it starts with.
function valueBefore(run, at, number) {
    const point = run.plant.points[at];
    for (let before = number - 2; before >= 0; before--) {
        const update = run.furthest.list[before];
        if (isReadingOf(point, at, update)) return update.op.printed;
    }
    return String(point.start);
}

// The update is a reading of the point that counts: by its own proxy, and within its bounds.
function isReadingOf(point, at, update) {
    const { op } = update;
    return op.kind === "reading" && op.point === at && update.client === point.proxy && op.value >= point.low && op.value <= point.high;
}

// What happened to the alarms, over the executions of the correct master that executed most: a reading that counts raises
// a quiet alarm, or clears a raised one (docs/RULES.md).
function alarmsOf(run) {
    const spans = [];
    const open = new Map();
    const list = run.furthest ? run.furthest.list : [];
    list.forEach((update, at) => {
        if (update.op.kind === "ack" && open.has(update.op.alarm)) open.get(update.op.alarm).acknowledged = at + 1;
        const point = run.plant.points[update.op.point];
        if (!point || !isReadingOf(point, update.op.point, update)) return;
        run.plant.alarms.forEach((alarm, number) => {
            if (alarm.point !== update.op.point) return;
            const sign = alarm.kind === "high" ? 1 : -1;
            const over = (update.op.value - alarm.limit) * sign;
            if (!open.has(number) && over >= 0) {
                open.set(number, { alarm: number, raised: at + 1, value: update.op.value, cleared: 0, acknowledged: 0 });
                spans.push(open.get(number));
            } else if (open.has(number) && over < -alarm.band) {
                open.get(number).cleared = at + 1;
                open.delete(number);
            }
        });
    });
    return spans;
}

function showAlarms(run) {
    const box = document.getElementById("alarms");
    if (run.plant.alarms.length === 0) return;
    const lane = run.furthest ? run.lane.get(run.furthest.name) : 0;
    const at = (number) => {
        if (!number) return "";
        const stamp = deedAt(run, lane, "executes", number);
        return element("span", {}, `execution ${number}`, stamp < 0 ? "" : " at ", stamp < 0 ? "" : toEntry(stamp));
    };
    const rows = (span) => {
        const alarm = run.plant.alarms[span.alarm];
        return [alarm.name, pointName(run, alarm.point), `${alarm.kind === "high" ? "at least" : "at most"} ${alarm.limit}`,
            String(span.value), at(span.raised), at(span.acknowledged), span.cleared ? at(span.cleared) : "still raised"];
    };
    box.append(element("h2", {}, "Alarms"), element("p", {}, `${counted(run.alarmSpans.length, "alarm was", "alarms were")} raised, by the executions of ${run.furthest ? run.furthest.name : "nobody"}.`));
    if (run.alarmSpans.length) box.append(longTable("", ["alarm", "point", "limit", "value", "raised", "acknowledged", "cleared"], run.alarmSpans, 30, rows));
}
"#;
