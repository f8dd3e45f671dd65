//! Lists inside words.
ghost use Rattle.std.specs.Prelude.{◌≡◌, ◌≤◌, ◌++◌, OnOk, decimal, string_bytes};
ghost use Rattle.std.specs.List.{flat_map};
ghost use Rattle.scenario_file.specs.Actors.{actors_of};
ghost use Rattle.run_page.specs.Lists.{certificate_text, number_text, row_text, signer_text};

use message_types::{Certificate, PoSummary, Signed};
use plain_lists::Want;
use run_lines::put_actor;
use scenario_file::Cast;

/// Numbers, each behind a mark.
pub(crate) fn put_numbers(text: &mut String, mark: &str, numbers: &[u64]) -> Result<(), Want>
    ensures { OnOk result (string_bytes text.new ≡ string_bytes text.old ++ flat_map (number_text mark.now) numbers.now) }
{
    for number in numbers {
        text.push_str(mark)?;
        write!(text, "{number}")?;
    }
    Ok(())
}

/// The rows of an offer: whose each is, with its numbers.
pub(crate) fn put_rows(
    text: &mut String,
    cast: Cast,
    frames: &[Signed<PoSummary>],
) -> Result<(), Want>
    requires { actors_of cast ≤ 26 }
    ensures { OnOk result (string_bytes text.new ≡ string_bytes text.old ++ flat_map (row_text cast) frames.now) }
{
    for frame in frames {
        put_row(text, cast, frame)?;
    }
    Ok(())
}

#[tactic(auto, unfolding(crate::specs::Lists::row_text))]
fn put_row(text: &mut String, cast: Cast, frame: &Signed<PoSummary>) -> Result<(), Want>
    requires { actors_of cast ≤ 26 }
    ensures { OnOk result (string_bytes text.new ≡ string_bytes text.old ++ row_text cast frame.now) }
{
    text.push_str(" ")?;
    put_actor(text, cast, frame.signer)?;
    put_numbers(text, ":", frame.body.numbers.as_slice())
}

/// Who signed each of some frames.
pub(crate) fn put_signers<B: Drop>(
    text: &mut String,
    cast: Cast,
    frames: &[Signed<B>],
) -> Result<(), Want>
    requires { actors_of cast ≤ 26 }
    ensures { OnOk result (string_bytes text.new ≡ string_bytes text.old ++ flat_map (λ frame. signer_text cast frame.signer) frames.now) }
{
    for frame in frames {
        text.push_str(" ")?;
        put_actor(text, cast, frame.signer)?;
    }
    Ok(())
}

/// The number and the view of each certificate.
pub(crate) fn put_certificates(text: &mut String, certificates: &[Certificate]) -> Result<(), Want>
    ensures { OnOk result (string_bytes text.new ≡ string_bytes text.old ++ flat_map certificate_text certificates.now) }
{
    for certificate in certificates {
        let (s, v) = (certificate.s, certificate.v);
        write!(text, " {s}:{v}")?;
    }
    Ok(())
}
