//! Which store of entries a line is on: that of the first DMA window whose number it names, else
//! the page table.
ghost use Rattle.std.specs.Prelude.{◌≡◌, ◌≤◌, length};
ghost use Rattle.run_model.specs.AllStores.{windows_in};
ghost use Rattle.run_model.specs.StoreNumbers as stores;

use crate::windows::WindowEntries;
use trace_line::Act;

/// The index of the first of these windows that a line names. `None` exactly if it names none
/// of them.
pub fn window_of(windows: &[WindowEntries], act: &Act) -> Option<usize>
    ensures { result ≡ stores.index_from 0 windows.now act.now }
{
    if windows.is_empty() {
        return None;
    }
    let number = act.bus()?;
    for i in 0..windows.len() {
        let entries = &windows[i];
        if entries.window.has_number(number) {
            return Some(i);
        }
    }
    None
}

/// The number of the store that a line is on: 0 is the page table's, and each window has one more
/// than its index.
pub fn store_of(windows: &[WindowEntries], act: &Act) -> usize
    ensures store { result ≡ stores.store_of (windows_in windows.now) act.now }
    ensures in_range { result ≤ length windows.now }
{
    let Some(at) = window_of(windows, act) else {
        return 0;
    };
    let inside = at < windows.len();
    prove!(inside);
    at + 1
}
