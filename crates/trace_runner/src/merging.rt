//! The replies of all stores, put into file order.
ghost use Rattle.std.specs.Prelude.{◌≡◌, ℕ, ◌+◌, List, length, OnOk};
ghost use Rattle.trace_reply.specs.declared.reply.Reply.{Reply};
ghost use Rattle.run_model.specs.AllStores.{windows_in};
ghost use Rattle.trace_runner.specs.StoreRuns.{StoresKeep};
ghost use Rattle.trace_runner.specs.Sectioned.{AddsReplies};

use crate::log::RunLog;
use run_model::{WindowEntries, store_of};
use std::alloc::AllocError;
use trace_line::TraceLine;

/// Puts the replies to these lines, of which the logs of each store have those to the lines on it,
/// at the end of the output, in file order. The page table's logs are the first.
pub fn merge_replies<L: RunLog>(
    windows: &[WindowEntries],
    lines: &[TraceLine],
    logs: &mut Vec<Vec<L>>,
    output: &mut L::Output,
) -> Result<(), AllocError>
    requires stores { length logs.old.items ≡ 1 + length windows.now }
    requires kept { (picks : ℕ → ℕ → List Reply)
        × StoresKeep L.keeps (windows_in windows.now) lines.now picks logs.old.items }
    ensures merged { OnOk
        result
        ((picks : ℕ → ℕ → List Reply)
        → StoresKeep L.keeps (windows_in windows.now) lines.now picks logs.old.items
        → AddsReplies L.has (windows_in windows.now) lines.now picks output.old output.new) }
{
    for line in lines {
        let store = store_of(windows, &line.act);
        logs[store][line.cpu as usize].move_first(output)?;
    }
    Ok(())
}
