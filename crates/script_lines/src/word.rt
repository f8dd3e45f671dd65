ghost use Rattle.std.specs.Prelude.{ℕ};
ghost use Rattle.play_words.specs.declared.words.Ref.{Ref};
ghost use Rattle.play_words.specs.declared.words.Word.TheVariants as word;
ghost use Rattle.script_grammar.specs.Faults.{Answers, said};
ghost use Rattle.script_grammar.specs.Lines.{texts};
ghost use Rattle.script_lines.specs.Sayings.{fields_in, word_in};
ghost use Rattle.script_lines.specs.WordFields.{number_in, numbers_in, one_and_number_in, vote_in};

use crate::word_fields::{
    newview, one_and_number, one_number, poack, preprepare, raw, report, request, rtt, summary,
    two_numbers, vote, voucher,
};
use play_words::Word;
use script_grammar::{Company, Kind, LineRefusal};

fn prepare(company: &Company<'_>, fields: &[&str]) -> Result<Word, LineRefusal>
    ensures { Answers result (said (λ (p : ℕ × (ℕ × Ref)). word.Prepare p.0 p.1.0 p.1.1) (vote_in company.now.cast (texts fields.now))) }
{
    let (v, (s, digest)) = vote(company, fields)?;
    Ok(Word::Prepare { v, s, digest })
}

fn commit(company: &Company<'_>, fields: &[&str]) -> Result<Word, LineRefusal>
    ensures { Answers result (said (λ (p : ℕ × (ℕ × Ref)). word.Commit p.0 p.1.0 p.1.1) (vote_in company.now.cast (texts fields.now))) }
{
    let (v, (s, digest)) = vote(company, fields)?;
    Ok(Word::Commit { v, s, digest })
}

fn ping(fields: &[&str]) -> Result<Word, LineRefusal>
    ensures { Answers result (said word.Ping (number_in (texts fields.now))) }
{
    Ok(Word::Ping {
        number: one_number(fields)?,
    })
}

fn suspect(fields: &[&str]) -> Result<Word, LineRefusal>
    ensures { Answers result (said word.Suspect (number_in (texts fields.now))) }
{
    Ok(Word::Suspect {
        v: one_number(fields)?,
    })
}

fn askorder(fields: &[&str]) -> Result<Word, LineRefusal>
    ensures { Answers result (said word.AskOrder (number_in (texts fields.now))) }
{
    Ok(Word::AskOrder {
        s: one_number(fields)?,
    })
}

fn giveordered(fields: &[&str]) -> Result<Word, LineRefusal>
    ensures { Answers result (said word.GiveOrdered (number_in (texts fields.now))) }
{
    Ok(Word::GiveOrdered {
        s: one_number(fields)?,
    })
}

fn mark(fields: &[&str]) -> Result<Word, LineRefusal>
    ensures { Answers result (said word.Mark (number_in (texts fields.now))) }
{
    Ok(Word::Mark {
        s: one_number(fields)?,
    })
}

fn pong(fields: &[&str]) -> Result<Word, LineRefusal>
    ensures { Answers result (said (λ (p : ℕ × ℕ). word.Pong p.0 p.1) (one_and_number_in (texts fields.now))) }
{
    let (to, number) = one_and_number(fields)?;
    Ok(Word::Pong { to, number })
}

fn askupdate(fields: &[&str]) -> Result<Word, LineRefusal>
    ensures { Answers result (said (λ (p : ℕ × ℕ). word.AskUpdate p.0 p.1) (one_and_number_in (texts fields.now))) }
{
    let (j, k) = one_and_number(fields)?;
    Ok(Word::AskUpdate { j, k })
}

fn give(fields: &[&str]) -> Result<Word, LineRefusal>
    ensures { Answers result (said (λ (p : ℕ × ℕ). word.Give p.0 p.1) (one_and_number_in (texts fields.now))) }
{
    let (j, k) = one_and_number(fields)?;
    Ok(Word::Give { j, k })
}

fn tatreport(fields: &[&str]) -> Result<Word, LineRefusal>
    ensures { Answers result (said (λ (p : ℕ × ℕ). word.TatReport p.0 p.1) (numbers_in (texts fields.now))) }
{
    let (v, ticks) = two_numbers(fields)?;
    Ok(Word::TatReport { v, ticks })
}

fn tatbound(fields: &[&str]) -> Result<Word, LineRefusal>
    ensures { Answers result (said (λ (p : ℕ × ℕ). word.TatBound p.0 p.1) (numbers_in (texts fields.now))) }
{
    let (v, ticks) = two_numbers(fields)?;
    Ok(Word::TatBound { v, ticks })
}

/// The word of a kind that has these fields. An update can't be spoken.
#[tactic(auto, unfolding(crate::specs::Sayings::fields_in))]
fn word_of(company: &Company<'_>, kind: Kind, fields: &[&str]) -> Result<Word, LineRefusal>
    ensures { Answers result (fields_in company.now.cast kind (texts fields.now)) }
{
    match kind {
        Kind::Update => Err(LineRefusal::BadLine),
        Kind::PoRequest => request(company, fields),
        Kind::PoAck => poack(company, fields),
        Kind::PoSummary => summary(company.alloc(), fields),
        Kind::PrePrepare => preprepare(company, fields),
        Kind::Prepare => prepare(company, fields),
        Kind::Commit => commit(company, fields),
        Kind::Ping => ping(fields),
        Kind::Pong => pong(fields),
        Kind::Rtt => rtt(fields),
        Kind::TatReport => tatreport(fields),
        Kind::TatBound => tatbound(fields),
        Kind::Suspect => suspect(fields),
        Kind::Report => report(company.alloc(), fields),
        Kind::NewView => newview(company, fields),
        Kind::AskUpdate => askupdate(fields),
        Kind::Give => give(fields),
        Kind::AskOrder => askorder(fields),
        Kind::GiveOrdered => giveordered(fields),
        Kind::Voucher => voucher(fields),
        Kind::Mark => mark(fields),
    }
}

/// Raw bytes, or a kind's name with its fields.
#[tactic(auto, unfolding(crate::specs::Sayings::word_in))]
pub fn word(company: &Company<'_>, words: &[&str]) -> Result<Word, LineRefusal>
    ensures { Answers result (word_in company.now.cast (texts words.now)) }
{
    match words {
        [] => Err(LineRefusal::BadLine),
        [name, fields @ ..] => {
            if *name == "raw" {
                return raw(company.alloc(), fields);
            }
            match Kind::named(name) {
                Some(kind) => word_of(company, kind, fields),
                None => Err(LineRefusal::BadLine),
            }
        }
    }
}
