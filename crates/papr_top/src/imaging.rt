//! The answer of `image`: the valid entries of the page table after a serial run, in the layout
//! asked for, or a refusal.
ghost use Rattle.std.specs.Prelude.{◌≡◌, IfErr, IfOk, map, string_bytes};
ghost use Rattle.table_image.specs.Image.{TellsOf};
ghost use Rattle.papr_edge.specs.Answer.{IsAnswer};
ghost use Rattle.papr_top.specs.Texts.{IsSerialAssured};
ghost use Rattle.papr_top.specs.Images.{image_entry, image_output, layout_refusal_text, IsImage};

use entry_model::EntryState;
use number_text::put_hexadecimal;
use papr_edge::Answer;
use run_model::serial_puts_are_not_busy;
use std::alloc::{AllocError, Global};
use table_image::{ImageEntry, ImageError, ImageText, Layout, image_text};
use trace_read::Trace;
use trace_runner::run_counted;

/// An entry as an image lists it.
fn listed(entry: &(u32, EntryState)) -> ImageEntry
    ensures { result ≡ image_entry entry.now }
{
    let (dword0, dword1) = entry.1.words();
    ImageEntry {
        index: entry.0,
        dword0,
        dword1,
    }
}

/// Entries as an image lists them.
fn listed_entries(
    alloc: Global,
    states: &[(u32, EntryState)],
) -> Result<Vec<ImageEntry>, AllocError>
    ensures { IfOk result (λ entries. entries.items ≡ map image_entry states.now) }
{
    states.iter().map(|entry| listed(entry)).collect(alloc)
}

/// The image of the table at the end of the serial run. No reply is kept.
fn image_at_end(alloc: Global, layout: Layout, trace: &Trace) -> Result<ImageText, ImageError>
    ensures text { IfOk result (λ text. image_output layout trace.now ≡ Ok text) }
    ensures refused { IfErr result (λ error. TellsOf error (image_output layout trace.now)) }
    ensures assured { IfOk result (λ _. IsSerialAssured trace.now) }
{
    trace.keeps_limits();
    serial_puts_are_not_busy();
    let run = run_counted(alloc, trace)?;
    let entries = listed_entries(alloc, run.table.states.as_slice())?;
    image_text(alloc, layout, entries.as_slice(), run.table.order)
}

/// The line that names an entry that the layout can't hold.
fn layout_refusal(alloc: Global, index: u32) -> Result<String, AllocError>
    ensures { IfOk result (λ s. string_bytes s ≡ layout_refusal_text index) }
{
    let mut out = String::new(alloc);
    put_hexadecimal(&mut out, "papr: entry ", u64::from(index))?;
    out.push_str(": layout\n")?;
    Ok(out)
}

/// The image of the table at the end of the trace's serial run, or the line that names an entry
/// that the layout can't hold.
pub fn image_answer(alloc: Global, layout: Layout, trace: &Trace) -> Result<Answer, AllocError>
    ensures { IfOk result (λ answer. IsAnswer (IsImage layout) trace.now answer) }
{
    match image_at_end(alloc, layout, trace) {
        Ok(image) => Ok(Answer::Image(image)),
        Err(ImageError::Layout { index }) => {
            let line = layout_refusal(alloc, index)?;
            Ok(Answer::Refused(line))
        }
        Err(ImageError::Memory) => Err(AllocError),
    }
}
