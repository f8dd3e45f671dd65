//! What is printed of an entry, looked at: each number and each byte is within its type. Contracts don't know it of what stands
//! deep in a value until the code has looked at it; a machine has next to nothing to do for it.
ghost use Rattle.std.specs.Prelude.{◌<◌, ◌^◌, FitsSigned, OnOk};
ghost use Rattle.std.specs.Int.{w64};
ghost use Rattle.std.specs.List.{AllByRecursion};
ghost use Rattle.message_forms.specs.Widths.{Is32, FitsOp};
ghost use Rattle.entry_texts.specs.Fits.{FitsEntry, HasCount};
ghost use Rattle.entry_texts.specs.Texts.{kept_text};
ghost use Rattle.world_entries.specs.Entries.{entry_of, event_of};
ghost use Rattle.printed_run.specs.Tellable.{CanBeTold};

use entry_texts::spell_entry;
use message_types::Op;
use plain_lists::Want;
use std::alloc::Global;
use world_entries::{Entry, Event};

/// Looks at what the line of an entry has, whose frame is named by where it was said or told by its bytes.
pub(crate) fn look_at(alloc: Global, is_said: bool, entry: &Entry) -> Result<(), Want>
    ensures { OnOk result (CanBeTold is_said (event_of entry.now.event)) }
{
    match &entry.event {
        Event::Took { place, .. } => {
            if is_said {
                look_at_32(*place);
                return Ok(());
            }
            look_at_frame(alloc, entry)
        }
        Event::Tick => Ok(()),
        Event::Command { op } => {
            look_at_op(*op);
            Ok(())
        }
        Event::Field { place, value, .. } => {
            look_at_16(*place);
            look_at_16(*value);
            Ok(())
        }
        Event::Poll => Ok(()),
        Event::Cry { bytes } => {
            look_at_bytes(bytes.as_slice());
            Ok(())
        }
        Event::Skip => Ok(()),
        Event::Restart => Ok(()),
    }
}

// A frame that is told by its bytes: spelled once more, which few are.
fn look_at_frame(alloc: Global, entry: &Entry) -> Result<(), Want>
    requires { HasCount (event_of entry.now.event) }
    ensures fits { OnOk result (FitsEntry entry.now.stamp (event_of entry.now.event)) }
    ensures bytes { OnOk result (AllByRecursion (λ b. b < 256) (kept_text (entry_of entry.now))) }
{
    let text = spell_entry(alloc, entry)?;
    look_at_bytes(text.as_slice());
    Ok(())
}

fn look_at_bytes(bytes: &[u8])
    ensures { AllByRecursion (λ b. b < 256) bytes.now }
{
    for byte in bytes {
        look_at_8(*byte);
    }
}

fn look_at_op(op: Op)
    ensures { FitsOp op }
{
    match op {
        Op::Reading { point, value } => {
            look_at_32(point);
            look_at_i64(value);
        }
        Op::Set { point, value } => {
            look_at_32(point);
            look_at_i64(value);
        }
        Op::Ack { alarm } => {
            look_at_32(alarm);
        }
    }
}

fn look_at_8(_number: u8)
    ensures { _number < 256 }
{}

fn look_at_16(_number: u16)
    ensures { _number < 2 ^ 16 }
{}

fn look_at_32(_number: u32)
    ensures { Is32 _number }
{}

fn look_at_i64(_number: i64)
    ensures { FitsSigned w64 _number }
{}
