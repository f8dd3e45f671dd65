ghost use Rattle.std.specs.Prelude.{◌≡◌, ◌==◌, ◌++◌, IfOk, OnOk, map};
ghost use Rattle.std.specs.List.{slice_split};
ghost use Rattle.run_commands.specs.Summary.{summary, summary_line, sums_up};

use plain_lists::Want;
use std::alloc::{AllocError, Global};

/// The lines of a run's text that tell of a whole actor or of the whole run, each with its line feed.
#[tactic(auto, unfolding(crate::specs::Summary::summary))]
pub fn summary(alloc: Global, text: &[u8]) -> Result<Vec<u8>, Want>
    ensures { IfOk result (λ made. made.items ≡ summary text.now) }
{
    let mut made = Vec::new(alloc);
    for line in &lines_of(alloc, text)? {
        put_line(&mut made, line)?;
    }
    Ok(made)
}

fn lines_of(alloc: Global, text: &[u8]) -> Result<Vec<&[u8]>, AllocError>
    ensures { IfOk result (λ lines. map (λ line. line.now) lines.items ≡ slice_split (λ byte. byte == 10) text.now) }
{
    text.split(|byte| *byte == b'\n').collect(alloc)
}

#[tactic(auto, unfolding(crate::specs::Summary::summary_line))]
fn put_line(made: &mut Vec<u8>, line: &[u8]) -> Result<(), Want>
    ensures { OnOk result (made.new.items ≡ made.old.items ++ summary_line line.now) }
{
    if sums_up(line) {
        made.extend_from_slice(line)?;
        made.push(b'\n')?;
    }
    Ok(())
}

fn sums_up(line: &[u8]) -> bool
    ensures { result ≡ sums_up line.now }
{
    line.starts_with(b"spire".as_slice())
        || line.starts_with(b"master".as_slice())
        || line.starts_with(b"proxy".as_slice())
        || line.starts_with(b"screen".as_slice())
        || line.starts_with(b"audit".as_slice())
        || line.starts_with(b"agree".as_slice())
        || line.starts_with(b"history".as_slice())
}
