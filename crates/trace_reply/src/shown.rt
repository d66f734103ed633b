//! What a dump shows of a page table: its number, order and place, and each valid entry with its
//! index.
ghost use Rattle.std.specs.Prelude.{◌≡◌, ◌≤◌, ◌^◌, ◌++◌, [], ◌∷◌, length, IfOk, OnOk, OnErr};
ghost use Rattle.trace_reply.specs.ShownTable.{valid_from, table_shown};
ghost use Rattle.hpte_fields.specs.TableSize.{entry_count, greatest_order};

use entry_model::EntryState;
use std::alloc::{AllocError, Global};
use std::marker::Model;

/// The valid entries of a table, each with its index, in rising index.
#[derive(Drop)]
pub struct ShownStates {
    items: Vec<(u32, EntryState)>,
}

impl Model for ShownStates {
    ghost use Rattle.std.specs.Prelude.{List, ℕ};
    ghost use Rattle.entry_model.specs.State.{State};

    ghost Value = { List (ℕ × State) };

    ghost view = { λ s. s.items.items };
}

impl ShownStates {
    /// No entry. It takes no memory; later entries are kept in `alloc`.
    pub fn new(alloc: Global) -> Self
        ensures { result ≡ [] }
    {
        ShownStates {
            items: Vec::new(alloc),
        }
    }

    /// Appends an entry. Where memory ends, the list stays as it was.
    pub fn push(&mut self, entry: u32, state: EntryState) -> Result<(), AllocError>
        ensures ok { OnOk result (self.new ≡ self.old ++ (entry, state) ∷ []) }
        ensures err { OnErr result (self.new ≡ self.old) }
    {
        self.items.push((entry, state))?;
        Ok(())
    }

    pub fn as_slice(&self) -> &[(u32, EntryState)]
        ensures { result.now ≡ self.now }
    {
        self.items.as_slice()
    }
}

/// A page table: how many tables there were before, the binary logarithm of its size in bytes, its
/// place in machine memory, and its valid entries.
#[derive(Drop)]
pub struct Shown {
    /// How many tables there were before.
    pub number: u32,
    /// The binary logarithm of the size in bytes.
    pub order: u8,
    /// The machine address of the table.
    pub place: u64,
    /// The valid entries.
    pub states: ShownStates,
}

/// The valid entries of a table, each with its index.
fn valid_states(alloc: Global, states: &[EntryState]) -> Result<ShownStates, AllocError>
    requires { length states.now ≤ entry_count greatest_order }
    ensures { IfOk result (λ shown. shown ≡ valid_from 0 states.now) }
{
    let mut shown = ShownStates::new(alloc);
    for i in 0..states.len() {
        let state = states[i];
        if state.valid {
            shown.push(i as u32, state)?;
        }
    }
    Ok(shown)
}

impl Shown {
    /// What a dump shows of the table of this number, order and place, with these entries. The only
    /// error is want of memory.
    pub fn of_table(
        alloc: Global,
        number: u32,
        order: u8,
        place: u64,
        states: &[EntryState],
    ) -> Result<Shown, AllocError>
        requires { length states.now ≤ entry_count greatest_order }
        ensures { IfOk result (λ shown. shown ≡ table_shown number order place states.now) }
    {
        let states = valid_states(alloc, states)?;
        Ok(Shown {
            number,
            order,
            place,
            states,
        })
    }
}
