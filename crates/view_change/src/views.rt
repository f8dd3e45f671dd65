ghost use Rattle.std.specs.Prelude.{◌≡◌, ◌≢◌, ◌++◌, ◌≤◌, ◌<◌, ℕ, false, List, [], IsTrue, OnOk, OnErr, IfOk, length, map, max, is_some, unwrap_or, option_copied, slice_set, take, ◌||◌, if◌then◌else◌};
ghost use Rattle.std.specs.Option.{option_to_list, option_map};
ghost use Rattle.std.specs.List.{slice_index_or};
ghost use Rattle.message_types.specs.declared.signed.Signed.{Signed as SignedWord};
ghost use Rattle.message_types.specs.declared.views.Report.{Report as ReportWord};
ghost use Rattle.message_types.specs.declared.body.Body.TheVariants as body;
ghost use Rattle.message_types.specs.Parts.{as_frame};
ghost use Rattle.protocol_rules.specs.Group.{group_of, most_view};
ghost use Rattle.protocol_rules.specs.Views as rules;
ghost use Rattle.protocol_rules.specs.Facts.{facts_of};
ghost use Rattle.protocol_rules.specs.Order.{plan_known};
ghost use Rattle.view_change.specs.Planning.{are_spelled};
ghost use Rattle.view_change.specs.ViewState.{AreViewsOf, Learns, Says, Where, at_view, first_new_view, plan_in_new_view, present_reports, is_report_owed, is_report_due, is_new_view_owed};

use crate::plans::plan_of_new_view;
use message_types::{Body, Certificate, Mark, NewView, Plan, Report, Signed};
use plain_lists::{Copied, Items, Want};
use protocol_rules::MOST_VIEW;
use quorum_sets::{Sizes, VoterSet};
use std::alloc::Global;
use std::collections::BTreeMap;
use std::marker::Model;

// The length of a table with a place for each view.
const VIEW_PLACES: usize = MOST_VIEW as usize + 1;

/// Which view a master is in, and what it knows and said of changes of view.
pub struct Views {
    alloc: Global,
    sizes: Sizes,
    me: u32,
    view: u64,
    first: Plan,
    suspects: BTreeMap<u64, VoterSet, Global>,
    reports: BTreeMap<(u64, u32), Signed<Report>, Global>,
    plans: BTreeMap<u64, Plan, Global>,
    reported: [bool; VIEW_PLACES],
    opened: [bool; VIEW_PLACES],
}

// Taken apart here once, so that no crate above proves it again.
impl Drop for Views {
    fn drop(self) {
        let Views {
            alloc: _,
            sizes: _,
            me: _,
            view: _,
            first: _,
            suspects: _,
            reports: _,
            plans: _,
            reported: _,
            opened: _,
        } = self;
    }
}

impl Model for Views {
    ghost use Rattle.std.specs.Prelude.{◌≡◌, ◌≤◌};
    ghost use Rattle.protocol_rules.specs.Group.{group_of};
    ghost use Rattle.protocol_rules.specs.Plans.{first_plan};
    ghost use Rattle.protocol_rules.specs.declared.limits.TheConstants.{MOST_VIEW};
    ghost use Rattle.view_change.specs.ViewState.{ViewState};

    ghost Value = { ViewState };

    ghost view = { λ a. record { group = group_of a.sizes 0; me = a.me; view = a.view; suspects = a.suspects.entries; reports = a.reports.entries; plans = a.plans.entries; reported = a.reported; opened = a.opened } };

    ghost invariant = { λ a. (a.view ≤ MOST_VIEW) × (a.first ≡ first_plan) };
}

impl Views {
    /// The views of master `me` where no word is known and none was said.
    pub fn new(alloc: Global, sizes: Sizes, me: u32) -> Views
        ensures group { result.group ≡ group_of sizes 0 }
        ensures nothing { (clients : ℕ) → AreViewsOf (group_of sizes clients) me result [] [] }
    {
        Views {
            alloc,
            sizes,
            me,
            view: 0,
            first: Plan {
                base: 0,
                rows: Items::new(alloc),
            },
            suspects: BTreeMap::new(alloc),
            reports: BTreeMap::new(alloc),
            plans: BTreeMap::new(alloc),
            reported: [false; VIEW_PLACES],
            opened: [false; VIEW_PLACES],
        }
    }

    /// Takes the next word known, a vote of `signer` against the leader of view `v`. Two votes of one master
    /// count once. One against the leader of a view that none follows is passed over.
    pub fn take_suspect(&mut self, signer: u32, v: u64) -> Result<(), Want>
        ensures ok { OnOk result (v < most_view → (sig : List ℕ)
            → Learns self.old self.new record { signer = signer; body = body.Suspect record { v = v }; sig = sig }) }
        ensures passed { OnOk result (most_view ≤ v → self.new ≡ self.old) }
        ensures err { OnErr result (self.new ≡ self.old) }
    {
        if signer >= self.sizes.n || v >= MOST_VIEW {
            return Ok(());
        }
        let mut masters = voters_at(&self.suspects, v);
        masters.add(signer);
        let is_suspected = masters.is_quorum(&self.sizes);
        self.suspects.insert(v, masters)?;
        self.view = view_after(self.view, is_suspected, v + 1);
        Ok(())
    }

    /// Takes the next word known, a report. The first of a master for a view counts.
    pub fn take_report(&mut self, frame: &Signed<Report>) -> Result<(), Want>
        ensures ok { OnOk result (Learns self.old self.new (as_frame body.Report frame.now)) }
        ensures err { OnErr result (self.new ≡ self.old) }
    {
        let place = (frame.body.v, frame.signer);
        if self.reports.contains_key(&place) {
            return Ok(());
        }
        let copy = frame.copy()?;
        self.reports.insert(place, copy)?;
        Ok(())
    }

    /// Takes the next word known, a new view. The plan of the first for a view is that view's. One of a view that
    /// there isn't is passed over.
    pub fn take_new_view(&mut self, frame: &Signed<NewView>) -> Result<(), Want>
        requires { IsTrue (are_spelled (map (λ r. r.body) frame.now.body.reports)) }
        ensures ok { OnOk result (frame.now.body.v ≤ most_view → Learns self.old self.new (as_frame body.NewView frame.now)) }
        ensures passed { OnOk result (most_view < frame.now.body.v → self.new ≡ self.old) }
        ensures err { OnErr result (self.new ≡ self.old) }
    {
        let v = frame.body.v;
        if v > MOST_VIEW || self.plans.contains_key(&v) {
            return Ok(());
        }
        let plan = plan_of_new_view(self.alloc, &self.sizes, &frame.body)?;
        self.plans.insert(v, plan)?;
        self.view = self.view.max(v);
        Ok(())
    }

    /// The present view.
    pub fn view(&self) -> u64
        ensures { Where self.now (λ g me known said. result ≡ rules.view g known) }
    {
        self.view
    }

    /// Whether the present view is open: view 0 is, and each that a new view is known of.
    pub fn is_open(&self) -> bool
        ensures { Where self.now (λ g me known said. result ≡ rules.is_open g known) }
    {
        self.view == 0 || self.plans.contains_key(&self.view)
    }

    /// What view `v` offers first: the plan of the first new view known of it, that of view 0 being empty. None
    /// exactly where `v` isn't 0 and no new view of it is known.
    pub fn plan(&self, v: u64) -> Option<&Plan>
        ensures known { Where self.now (λ g me known said. option_copied result ≡ plan_known (facts_of g known) v) }
        ensures first { Where self.now (λ g me known said. v ≢ 0 → option_copied result ≡ option_map (plan_in_new_view g) (first_new_view known v)) }
    {
        if v == 0 {
            return Some(&self.first);
        }
        self.plans.get(&v)
    }

    /// Whether a report of the present view is due, so that nobody need gather what it brings along where none is.
    pub fn owes_report(&self) -> bool
        ensures { Where self.now (λ g me known said. result ≡ is_report_due g known said) }
    {
        self.is_report_owed()
    }

    /// The report of the present view, once a quorum suspects the leader before, with what is brought along; and
    /// of its leader the new view, once reports of a quorum are known. Each is due once and counts as said.
    pub fn due(
        &mut self,
        base: u64,
        marks: &[Signed<Mark>],
        certificates: &[Certificate],
    ) -> Result<Vec<Body>, Want>
        ensures bodies { IfOk result (λ bodies. Where self.old (λ g me known said.
            bodies.items ≡ rules.report_due g known said base marks.now certificates.now ++ rules.new_view_due g me known said)) }
        ensures counted { IfOk result (λ bodies. Says self.old self.new bodies.items) }
        ensures err { OnErr result (self.new ≡ self.old) }
    {
        let report = self.report_due(base, marks, certificates)?;
        let new_view = self.new_view_due()?;
        let mut bodies = Vec::new(self.alloc);
        let reports = push_if(&mut bodies, report)?;
        let opens = push_if(&mut bodies, new_view)?;
        mark(&mut self.reported, self.view, reports);
        mark(&mut self.opened, self.view, opens);
        Ok(bodies)
    }

    fn report_due(
        &self,
        base: u64,
        marks: &[Signed<Mark>],
        certificates: &[Certificate],
    ) -> Result<Option<Body>, Want>
        ensures { IfOk result (λ due. Where self.now (λ g me known said. option_to_list due ≡ rules.report_due g known said base marks.now certificates.now)) }
    {
        if !self.is_report_owed() {
            return Ok(None);
        }
        Ok(Some(Body::Report(Report {
            v: self.view,
            base,
            marks: Items::from_slice(self.alloc, marks)?,
            certificates: Items::from_slice(self.alloc, certificates)?,
        })))
    }

    fn new_view_due(&self) -> Result<Option<Body>, Want>
        ensures { IfOk result (λ due. Where self.now (λ g me known said. option_to_list due ≡ rules.new_view_due g me known said)) }
    {
        if !self.owes_new_view() {
            return Ok(None);
        }
        let reports = self.quorum_of_reports()?;
        Ok(Some(Body::NewView(NewView {
            v: self.view,
            reports,
        })))
    }

    /// Whether it owes a report of the present view, by what is kept.
    fn is_report_owed(&self) -> bool
        ensures { result ≡ is_report_owed self.now }
    {
        if self.view == 0 || self.reported[self.view as usize] {
            return false;
        }
        match self.suspects.get(&(self.view - 1)) {
            Some(masters) => masters.is_quorum(&self.sizes),
            None => false,
        }
    }

    /// Whether it owes the others the new view.
    fn owes_new_view(&self) -> bool
        ensures { result ≡ is_new_view_owed self.now }
    {
        self.view != 0
            && u64::from(self.me) == self.view % u64::from(self.sizes.n)
            && self.count_reports() >= self.sizes.q
            && !self.opened[self.view as usize]
    }

    /// How many masters' reports of the present view are known.
    fn count_reports(&self) -> u32
        ensures { result ≡ length (present_reports self.now) }
    {
        let mut count = 0;
        for master in 0..self.sizes.n {
            count += u32::from(self.reports.contains_key(&(self.view, master)));
        }
        count
    }

    /// The first known reports of the present view, of the `q` lowest masters that have one.
    fn quorum_of_reports(&self) -> Result<Items<Signed<Report>>, Want>
        ensures { IfOk result (λ reports. reports ≡ take self.now.group.q (present_reports self.now)) }
    {
        let mut reports = Items::new(self.alloc);
        for master in 0..self.sizes.n {
            push_below(
                &mut reports,
                self.sizes.q as usize,
                self.reports.get(&(self.view, master)),
            )?;
        }
        Ok(reports)
    }
}

/// Adds a copy of a report, if there is one and there are fewer than `most`.
fn push_below(
    reports: &mut Items<Signed<Report>>,
    most: usize,
    report: Option<&Signed<Report>>,
) -> Result<(), Want>
    ensures { OnOk result ((before : List (SignedWord ReportWord)) → reports.old ≡ take most before
        → reports.new ≡ take most (before ++ option_to_list (option_copied report.entry))) }
{
    match report {
        Some(report) if reports.len() < most => reports.push(report.copy()?),
        _ => Ok(()),
    }
}

/// The masters that suspect the leader of a view.
fn voters_at(suspects: &BTreeMap<u64, VoterSet, Global>, v: u64) -> VoterSet
    ensures { result ≡ unwrap_or (at_view suspects.now.entries v) [] }
{
    match suspects.get(&v) {
        Some(masters) => masters.copied(),
        None => VoterSet::empty(),
    }
}

/// The present view, where a view was reached or not.
fn view_after(view: u64, is_reached: bool, reached: u64) -> u64
    ensures { result ≡ (if is_reached then max view reached else view) }
{
    if is_reached { view.max(reached) } else { view }
}

/// Adds a body, if there is one, and says whether there is.
fn push_if(bodies: &mut Vec<Body, Global>, body: Option<Body>) -> Result<bool, Want>
    ensures added { IfOk result (λ added. added ≡ is_some body) }
    ensures bodies { OnOk result (bodies.new.items ≡ bodies.old.items ++ option_to_list body) }
{
    match body {
        Some(body) => {
            bodies.push(body)?;
            Ok(true)
        }
        None => Ok(false),
    }
}

/// Notes whether a body of view `v` was said.
fn mark(marks: &mut [bool; VIEW_PLACES], v: u64, said: bool)
    requires { v ≤ MOST_VIEW }
    ensures { marks.new ≡ slice_set marks.old v (slice_index_or marks.old v false || said) }
{
    let place = v as usize;
    let was = marks[place];
    marks[place] = was || said;
}
