//! The lines of a section on each store.
ghost use Rattle.std.specs.Prelude.{◌≡◌, ◌+◌, length, IfOk};
ghost use Rattle.run_model.specs.AllStores.{windows_in};
ghost use Rattle.trace_runner.specs.DealtLines.{AreOnStores};

use crate::dealt_processors::empty_lists;
use run_model::{WindowEntries, store_of};
use std::alloc::{AllocError, Global};
use trace_line::TraceLine;

/// For each store the lines on it, in file order.
pub fn deal_stores(
    alloc: Global,
    windows: &[WindowEntries],
    lines: &[TraceLine],
) -> Result<Vec<Vec<TraceLine>>, AllocError>
    ensures size { IfOk result (λ dealt. length dealt.items ≡ 1 + length windows.now) }
    ensures dealt { IfOk
        result
        (λ dealt. AreOnStores (windows_in windows.now) lines.now dealt.items) }
{
    let mut dealt = empty_lists(alloc, windows.len() + 1)?;
    for line in lines {
        let store = store_of(windows, &line.act);
        dealt[store].push(*line)?;
    }
    Ok(dealt)
}
