//! DMA windows in a run: each has a store of 16384 TCEs, empty at first, on which the lines that
//! name it are run.
ghost use Rattle.std.specs.Prelude.{◌≡◌, map, true, IfOk};
ghost use Rattle.trace_reply.specs.Slots.{reply_in};
ghost use Rattle.tlb_model.specs.Processor.{new_processor};
ghost use Rattle.run_model.specs.AllStores.{opened};
ghost use Rattle.run_model.specs.SerialRun.{line_result};
ghost use Rattle.run_model.specs.StoreContexts.{window_context};
ghost use Rattle.run_model.specs.Stores.{is_on_window};

use crate::bus_lines::run_on_bus;
use crate::surroundings::Surroundings;
use bus_window::Window;
use entry_model::EntryState;
use frame_grants::Grants;
use hpte_fields::LEAST_ORDER;
use papr_table::PlainTable;
use std::alloc::{AllocError, Global};
use std::marker::Model;
use std::mem;
use trace_line::Act;
use trace_reply::ReplySlot;

/// The binary logarithm of the bytes of a window's store.
pub const WINDOW_ORDER: u8 = LEAST_ORDER;

/// How many entries that store has: as many as a window may have pages.
const ENTRIES: usize = 1 << 14;

/// A DMA window, and the states of its entries between two lines.
#[derive(Drop)]
pub struct WindowEntries {
    /// Its number and its range of bus addresses.
    pub window: Window,
    /// The states of its entries, by index.
    pub states: Vec<EntryState>,
}

impl Model for WindowEntries {
    ghost use Rattle.std.specs.Prelude.{◌≡◌, vec_len};
    ghost use Rattle.hpte_fields.specs.TableSize.{entry_count, least_order};
    ghost use Rattle.run_model.specs.AllStores.{WindowState};

    ghost Value = { WindowState };

    ghost view = { λ v. record { window = v.window; states = v.states.items } };

    ghost invariant = { λ v. vec_len v.states ≡ entry_count least_order };
}

impl WindowEntries {
    /// The window with all entries empty.
    #[tactic(auto, unfolding(crate::specs::Stores::opening_window))]
    pub fn open(alloc: Global, window: Window) -> Result<WindowEntries, AllocError>
        ensures { IfOk result (λ entries. entries ≡ opened window) }
    {
        let states = vec![in alloc; EntryState::empty(0); ENTRIES]?;
        Ok(WindowEntries { window, states })
    }

    /// Runs a line on the window, which it names. Its reply is put into the slot.
    pub fn line(&mut self, grants: &Grants, act: &Act, slot: &mut ReplySlot)
        requires named { is_on_window self.old.window act.now ≡ true }
        ensures reply { (reply_in slot.new, self.new.states)
            ≡ line_result
            (window_context grants.now.grants self.old.window)
            new_processor
            self.old.states
            act.now }
        ensures window { self.new.window ≡ self.old.window }
    {
        let alloc = *self.states.allocator();
        let states = mem::replace(&mut self.states, Vec::new(alloc));
        let mut table = PlainTable::open(states, WINDOW_ORDER);
        let around = Surroundings {
            grants,
            window: Some(self.window),
        };
        run_on_bus(&mut table, &around, act, slot);
        self.states = table.close();
    }
}

/// The windows with all entries empty, as a run opens them.
pub fn open_windows(alloc: Global, windows: &[Window]) -> Result<Vec<WindowEntries>, AllocError>
    ensures { IfOk result (λ all. all.items ≡ map opened windows.now) }
{
    let mut all = Vec::with_capacity(alloc, windows.len())?;
    for window in windows {
        all.push(WindowEntries::open(alloc, *window)?)?;
    }
    Ok(all)
}
