//! How a partition's first table is filled: with the configuration's entries as H_ENTER makes them,
//! all at stamp 0.
ghost use Rattle.std.specs.Prelude.{◌≡◌, IfOk};
ghost use Rattle.entry_model.specs.Reply.{entered_state};
ghost use Rattle.hpt_resize.specs.TableMemory.{empty_states, with_entries};

use entry_model::{EntryState, Op, reply};
use std::alloc::{AllocError, Global};
use table_image::ImageEntry;
use trace_read::Config;

/// The states of a configuration's table: the entries that it names are valid, all others are
/// empty. The only error is want of memory.
pub fn opening_states(alloc: Global, config: &Config) -> Result<Vec<EntryState>, AllocError>
    ensures { IfOk
        result
        (λ states. states.items ≡ with_entries (empty_states config.now.order) config.now.entries) }
{
    let mut states = vec![in alloc; EntryState::empty(0); 1 << (config.order - 4)]?;
    let entries = config.entries.as_slice();
    for entry in entries {
        states[entry.index as usize] = entered(entry);
    }
    Ok(states)
}

/// A valid entry as H_ENTER makes it of these doublewords, at stamp 0.
fn entered(entry: &ImageEntry) -> EntryState
    ensures { result ≡ entered_state entry.now.dword0 entry.now.dword1 }
{
    let enter = Op::Enter {
        dword0: entry.dword0,
        dword1: entry.dword1,
    };
    let (_, mut state) = reply(&EntryState::empty(0), &enter);
    state.stamp = 0;
    state
}
