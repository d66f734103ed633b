//! What a run of a trace is: what a partition and its processors carry from line to line, the
//! serial run, the sections between quiet lines, the good runs, and what follows of a run from its
//! being good.
//!
//! The calls are those of LoPAR on the page frame table and on DMA windows, and the accesses those
//! of the Power ISA (Book III, hashed page table translation). `laws` has the theorems. What
//! runs: `make_call`, which picks the hypervisor call of a line by its number,
//! `make_device_access`, and `WindowEntries::line`, a line on a DMA window.
//!
//! Main contracts: `serial_is_good`, `parallel_is_good`, `one_good_run`, `good_side_by_side`,
//! `no_store_is_lost`, `resizes_keep_bolted_pages`, `accesses_land_by_their_entries`,
//! `refused_lines_change_nothing`, `refused_resizes_change_nothing`, `images_open_again`; over any
//! store `refused_calls_leave_entries`, `changes_have_places_of_their_own`; `WindowEntries`: a DMA
//! window and its entries, and a line on it; `store_of`, `window_of`: which store and which window
//! a line is on.
#![tactic(auto)]

mod bus_lines;
mod calls;
mod laws;
mod store_laws;
mod store_numbers;
mod surroundings;
mod windows;

pub use calls::{make_call, make_device_access};
pub use laws::{
    accesses_land_by_their_entries, cached_lines_are_current_or_gone, clearing_replies_show,
    devices_land_by_their_tces, good_side_by_side, images_open_again, masks_refuse_exactly_where,
    no_entry_is_worn, no_set_bit_is_lost, no_store_is_lost, one_good_run, parallel_is_good,
    puts_are_busy_where_taken, reached_entries_can_be_entered, refused_lines_change_nothing,
    refused_resizes_change_nothing, refused_window_lines_change_nothing, resizes_keep_bolted_pages,
    serial_is_good, serial_is_parallel, serial_puts_are_not_busy, zero_masks_refuse_nothing,
};
pub use store_laws::{changes_have_places_of_their_own, refused_calls_leave_entries};
pub use store_numbers::{store_of, window_of};
pub use surroundings::Surroundings;
pub use windows::{WINDOW_ORDER, WindowEntries, open_windows};
