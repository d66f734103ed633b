//! How a table is made of a list of states: all memory is taken first, and then there is one pass
//! with all shares.
ghost use Rattle.std.specs.Prelude.{◌≡◌, ◌+◌, ◌-◌, ◌*◌, ◌<◌, ◌≤◌, ◌^◌, [], ◌∷◌, length, All, IfOk, IfErr, vec_len, vec_capacity};
ghost use Rattle.hpte_fields.specs.TableSize.{IsTableOrder, entry_count};
ghost use Rattle.entry_model.specs.Fronts.{opening_fronts};
ghost use Rattle.lock_core.specs.Laws.{IsFair};
ghost use Rattle.entry_lock.specs.Layout.{entry_words};
ghost use Rattle.entry_lock.specs.Views.{states_of, first_view};
ghost use Rattle.entry_lock.specs.PassOfTable.{IsOf, view_of};
ghost use Rattle.entry_lock.specs.PassInvariants.{most_passes};

use crate::control_word::word_from;
use crate::layout::WORDS_PER_ENTRY;
use crate::rule::{LockRule, Opening, PassSeat, View};
use crate::table::{LockTable, Pass};
use atomic_table::Table;
use entry_model::EntryState;
use lock_core::settled_word;
use std::alloc::{AllocError, Global};
use std::snapshot::Snapshot;

/// There was not enough memory for the table.
#[derive(Drop)]
pub struct OpenRefused {
    /// The list that was given.
    pub states: Vec<EntryState>,
}

/// The words of a table: word 0, and three for each entry, which nobody holds.
fn words_of(alloc: Global, states: &[EntryState]) -> Result<Vec<u64>, AllocError>
    ensures words { IfOk result (λ v. v.items ≡ 0 ∷ entry_words states.now) }
    ensures fair { IfOk result (λ v. All IsFair states.now) }
{
    let room = states
        .len()
        .saturating_mul(WORDS_PER_ENTRY)
        .saturating_add(1);
    let mut words = Vec::with_capacity(alloc, room)?;
    words.push(0)?;
    for state in states {
        is_fair(state);
        words.extend_from_slice(&[word_from(&settled_word(state)), state.dword0, state.dword1])?;
    }
    Ok(words)
}

/// A state of an entry has no bit where R and C don't belong, and its stamp fits.
fn is_fair(state: &EntryState)
    ensures { IsFair state.now }
{
    let _stamp = state.stamp;
}

/// The words of a table, its first seat, and room for its closing list.
struct Prepared {
    table: Table<u8, View, Opening, LockRule, Global>,
    seat: PassSeat,
    closing: Vec<EntryState>,
}

/// Takes all the memory that a table needs.
fn prepare(alloc: Global, states: &Vec<EntryState>, passes: u32) -> Result<Prepared, AllocError>
    requires { 0 < passes }
    ensures words { IfOk result
        (λ p. p.table.shared.table_id.words ≡ 3 * length states.now.items + 1) }
    ensures slots { IfOk result (λ p. p.table.shared.table_id.slots ≡ 0) }
    ensures key { IfOk result
        (λ p. (states_of p.table.shared.key ≡ states.now.items)
        × (p.table.shared.key.passes ≡ passes)) }
    ensures seat { IfOk result
        (λ p. (p.seat.table_id ≡ p.table.shared.table_id)
        × (p.seat.me ≡ (first_view p.table.shared.key, []))) }
    ensures closing { IfOk result
        (λ p. (p.closing.items ≡ []) × (length states.now.items ≤ vec_capacity p.closing)) }
{
    let closing = Vec::with_capacity(alloc, states.len())?;
    let words = words_of(alloc, states.as_slice())?;
    let about = Opening {
        states: Snapshot::of(states),
        passes,
    };
    let (table, seat) = Table::of_words(alloc, words.as_slice(), &about)?;
    Ok(Prepared {
        table,
        seat,
        closing,
    })
}

impl LockTable {
    /// A table of these states, of 2^order bytes at order 18 to 22, and a pass with all shares, 1
    /// to 64. The pass has seen each line that holds of its entry's opening state.
    ///
    /// # Errors
    /// `OpenRefused` for want of memory alone. It gives the list back.
    pub fn open(
        alloc: Global,
        states: Vec<EntryState>,
        order: u8,
        passes: u32,
    ) -> Result<(LockTable, Pass), OpenRefused>
        requires order { IsTableOrder order }
        requires whole { vec_len states ≡ entry_count order }
        requires some_pass { 0 < passes }
        requires few { passes ≤ most_passes }
        ensures table { IfOk result (λ r. IsOf r.0 r.1) }
        ensures opening { IfOk result (λ r. r.0.opening.items ≡ states.items) }
        ensures order { IfOk result (λ r. r.0.order ≡ order) }
        ensures passes { IfOk result (λ r. r.0.passes ≡ passes) }
        ensures shares { IfOk result (λ r. r.1.shares ≡ passes) }
        ensures receipts { IfOk result (λ r. (view_of r.1).actor.receipts ≡ []) }
        ensures lines { IfOk result (λ r. (view_of r.1).actor.lines ≡ []) }
        ensures no_step { IfOk result (λ r. (view_of r.1).taken ≡ []) }
        ensures fronts { IfOk result (λ r. (view_of r.1).fronts ≡ opening_fronts states.items) }
        ensures refused { IfErr result (λ e. e.states.items ≡ states.items) }
    {
        let Ok(prepared) = prepare(alloc, &states, passes) else {
            return Err(OpenRefused { states });
        };
        let Prepared {
            table,
            seat,
            closing,
        } = prepared;
        Ok((
            LockTable {
                table,
                order,
                passes,
                opening: states,
                closing,
            },
            Pass {
                seat,
                shares: passes,
            },
        ))
    }
}
