ghost use Rattle.std.specs.Prelude.{◌≡◌, ◌++◌, ◌∷◌, ℕ, List, [], map, IsTrue, OnOk};
ghost use Rattle.std.specs.List.{flat_map, list_all};
ghost use Rattle.message_types.specs.declared.body.Body.TheVariants as body;
ghost use Rattle.message_types.specs.Spelling.{body_fits};
ghost use Rattle.message_types.specs.Texts.{update_text, rows_text};
ghost use Rattle.protocol_rules.specs.Group.{Group};
ghost use Rattle.protocol_rules.specs.Matrix.{rows_of_frames};
ghost use Rattle.protocol_rules.specs.Plans.{plan_of};
ghost use Rattle.history_rules.specs.Audit.{texts_of};
ghost use Rattle.history_rules.specs.Counts.{alike_from};
ghost use Rattle.history_audit.specs.Texts.{AreTexts};

use crate::rows::text_of_rows;
use indexmap::IndexSet;
use message_forms::word_text;
use message_types::{Body, Certificate, Frame, NewView, PrePrepare, Report, Rows, Update};
use plain_lists::Want;
use protocol_rules::rows_of;
use quorum_sets::Sizes;
use sha2::{Digest, Sha256};
use std::alloc::Global;
use view_change::plan_of_new_view;

/// The different texts that came, and their different digests.
#[derive(Drop)]
pub struct Texts {
    pub texts: IndexSet<Vec<u8>>,
    pub digests: IndexSet<[u8; 32]>,
}

impl Texts {
    pub fn new(alloc: Global) -> Texts
        ensures { AreTexts [] result }
    {
        Texts {
            texts: IndexSet::new(alloc),
            digests: IndexSet::new(alloc),
        }
    }

    /// How many texts have an earlier one's digest: as many as there are more texts than digests.
    pub fn alike(&self) -> u64
        ensures { (given : List (List ℕ)) → AreTexts given self.now → result ≡ alike_from [] given }
    {
        (self.texts.len() as u64).saturating_sub(self.digests.len() as u64)
    }

    /// Takes the next text.
    fn note(&mut self, text: Vec<u8>) -> Result<(), Want>
        ensures { OnOk result ((given : List (List ℕ)) → AreTexts given self.old → AreTexts (given ++ text.items ∷ []) self.new) }
    {
        if self.texts.contains(&text) {
            return Ok(());
        }
        self.digests.insert(Sha256::digest(text.as_slice()))?;
        self.texts.insert(text)?;
        Ok(())
    }
}

fn note_rows(alloc: Global, kept: &mut Texts, rows: &Rows) -> Result<(), Want>
    ensures { OnOk result ((given : List (List ℕ)) → AreTexts given kept.old → AreTexts (given ++ rows_text rows.now ∷ []) kept.new) }
{
    let text = text_of_rows(alloc, rows)?;
    kept.note(text)?;
    Ok(())
}

fn note_plan(alloc: Global, kept: &mut Texts, lists: &[Rows]) -> Result<(), Want>
    ensures { OnOk result ((given : List (List ℕ)) → AreTexts given kept.old → AreTexts (given ++ map rows_text lists.now) kept.new) }
{
    for rows in lists {
        note_rows(alloc, kept, rows)?;
    }
    Ok(())
}

fn note_certificates(
    alloc: Global,
    kept: &mut Texts,
    certificates: &[Certificate],
) -> Result<(), Want>
    ensures { OnOk result ((given : List (List ℕ)) → AreTexts given kept.old → AreTexts (given ++ map (λ c. rows_text c.rows) certificates.now) kept.new) }
{
    for certificate in certificates {
        note_rows(alloc, kept, &certificate.rows)?;
    }
    Ok(())
}

fn note_report(alloc: Global, kept: &mut Texts, report: &Report) -> Result<(), Want>
    ensures { OnOk result ((given : List (List ℕ)) → AreTexts given kept.old → AreTexts (given ++ map rows_text (map (λ c. c.rows) report.now.certificates)) kept.new) }
{
    note_certificates(alloc, kept, report.certificates.as_slice())?;
    Ok(())
}

fn note_update(alloc: Global, kept: &mut Texts, update: &Update) -> Result<(), Want>
    ensures { OnOk result ((given : List (List ℕ)) → AreTexts given kept.old → AreTexts (given ++ update_text update.now ∷ []) kept.new) }
{
    let text = word_text(alloc, update)?;
    kept.note(text)?;
    Ok(())
}

fn note_proposal(
    alloc: Global,
    sizes: &Sizes,
    kept: &mut Texts,
    proposal: &PrePrepare,
) -> Result<(), Want>
    ensures { OnOk result ((g : Group) → sizes.now.n ≡ g.n → (given : List (List ℕ)) → AreTexts given kept.old
        → AreTexts (given ++ rows_text (rows_of_frames g proposal.now.frames) ∷ []) kept.new) }
{
    let rows = rows_of(alloc, sizes, proposal.frames.as_slice())?;
    note_rows(alloc, kept, &rows)?;
    Ok(())
}

fn note_new_view(
    alloc: Global,
    sizes: &Sizes,
    kept: &mut Texts,
    new_view: &NewView,
) -> Result<(), Want>
    requires { IsTrue (body_fits (body.NewView new_view.now)) }
    ensures { OnOk result ((g : Group) → sizes.now.n ≡ g.n → (given : List (List ℕ)) → AreTexts given kept.old
        → AreTexts (given ++ map rows_text (plan_of g (map (λ r. r.body) new_view.now.reports)).rows) kept.new) }
{
    let plan = plan_of_new_view(alloc, sizes, new_view)?;
    note_plan(alloc, kept, plan.rows.as_slice())?;
    Ok(())
}

/// Takes the texts of a body that are told apart by digests.
fn note_body(alloc: Global, sizes: &Sizes, kept: &mut Texts, body: &Body) -> Result<(), Want>
    requires { IsTrue (body_fits body.now) }
    ensures { OnOk result ((g : Group) → sizes.now.n ≡ g.n → (given : List (List ℕ)) → AreTexts given kept.old
        → AreTexts (given ++ texts_of g body.now) kept.new) }
{
    match body {
        Body::Update(word) => {
            note_update(alloc, kept, word)?;
            Ok(())
        }
        Body::PrePrepare(word) => {
            note_proposal(alloc, sizes, kept, word)?;
            Ok(())
        }
        Body::Report(word) => {
            note_report(alloc, kept, word)?;
            Ok(())
        }
        Body::GiveOrdered(word) => {
            note_rows(alloc, kept, &word.rows)?;
            Ok(())
        }
        Body::NewView(word) => {
            note_new_view(alloc, sizes, kept, word)?;
            Ok(())
        }
        _ => Ok(()),
    }
}

/// Takes the texts of bodies that were said.
pub fn note_bodies(
    alloc: Global,
    sizes: &Sizes,
    kept: &mut Texts,
    bodies: &[Body],
) -> Result<(), Want>
    requires { IsTrue (list_all body_fits bodies.now) }
    ensures { OnOk result ((g : Group) → sizes.now.n ≡ g.n → (given : List (List ℕ)) → AreTexts given kept.old
        → AreTexts (given ++ flat_map (texts_of g) bodies.now) kept.new) }
{
    for body in bodies {
        note_body(alloc, sizes, kept, body)?;
    }
    Ok(())
}

/// Takes the texts of the parts of a frame.
pub fn note_parts(
    alloc: Global,
    sizes: &Sizes,
    kept: &mut Texts,
    parts: &[Frame],
) -> Result<(), Want>
    requires { IsTrue (list_all (λ p. body_fits p.body) parts.now) }
    ensures { OnOk result ((g : Group) → sizes.now.n ≡ g.n → (given : List (List ℕ)) → AreTexts given kept.old
        → AreTexts (given ++ flat_map (λ p. texts_of g p.body) parts.now) kept.new) }
{
    for part in parts {
        note_body(alloc, sizes, kept, &part.body)?;
    }
    Ok(())
}
