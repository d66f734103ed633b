//! Fronts, by which a processor's receipts are tested to be in order on each entry; kept in a list
//! of all entries where that has room, else in a map.
ghost use Rattle.std.specs.Prelude.{◌≡◌, ℕ, ◌<◌, ◌^◌, ◌++◌, true, false, map, List, [], ◌∷◌, IfOk, OnOk};
ghost use Rattle.entry_model.specs.declared.receipt.Receipt.{Receipt};
ghost use Rattle.entry_model.specs.Receipt.{after_of};
ghost use Rattle.entry_model.specs.History as history;
ghost use Rattle.entry_model.specs.Fronts as entry_fronts;
ghost use Rattle.run_model.specs.Histories.{Event, made, gone, gone_events};
ghost use Rattle.entry_model.specs.Fronts.{front_at};
ghost use Rattle.history_check.specs.FrontKeeping.{kept_front, front_of, SetsKept, SetsFront, LeadsTo, LeadsNowhere};

use crate::steps::may_change;
use entry_model::{EntryState, Line, Receipt};
use std::alloc::{AllocError, Global};
use std::collections::HashMap;

/// The fronts of one processor: of each entry, the pair of stamp and number of bits that it has
/// come to in a section.
#[derive(Drop)]
pub struct Fronts {
    /// The fronts of all entries, or of none where that takes too much room.
    list: Vec<u64>,
    /// Where they aren't listed, the fronts of the entries that the processor has seen.
    kept: HashMap<u32, u64>,
}

fn list_of(alloc: Global, opening: &[u64]) -> Result<Vec<u64>, AllocError>
    ensures { IfOk result (λ list. list.items ≡ opening.now) }
{
    opening.to_vec(alloc)
}

impl Fronts {
    /// Fronts that haven't left the states on which a section opened, which have these pairs. They
    /// are listed if they are no more than `most`.
    pub fn new(alloc: Global, opening: &[u64], most: usize) -> Result<Fronts, AllocError>
        ensures { IfOk
            result
            (λ fronts. (e : ℕ) → front_of fronts opening.now e ≡ front_at opening.now e) }
    {
        if opening.len() > most {
            return Ok(Fronts {
                list: Vec::new(alloc),
                kept: HashMap::new(alloc),
            });
        }
        let list = list_of(alloc, opening)?;
        Ok(Fronts {
            list,
            kept: HashMap::new(alloc),
        })
    }
}

/// Stamp and number of bits, as one number that compares as the two do from the left.
#[tactic(auto, unfolding(entry_model::specs::History::pair_of))]
pub fn pair_of(state: &EntryState) -> u64
    ensures pair { result ≡ history.pair_of state.now }
    ensures low { state.now.stamp < 2 ^ 32 }
{
    let EntryState {
        stamp,
        referenced,
        changed,
        ..
    } = *state;
    u64::from(stamp) * 4 + u64::from(referenced) + u64::from(changed)
}

/// The least pair of an entry that has left the line's stamp.
fn pair_beyond(line: &Line) -> u64
    ensures { result ≡ entry_fronts.pair_beyond line.now }
{
    let Line { stamp, .. } = *line;
    (u64::from(stamp) + 1) * 4
}

/// The front of an entry, if it was kept, or else that of the state on which the section opened.
fn kept_front(kept: &HashMap<u32, u64>, opening: &[u64], entry: u32) -> u64
    ensures { result ≡ kept_front kept.now opening.now entry }
{
    match kept.get(&entry) {
        Some(front) => *front,
        None => opening.get(entry as usize).copied().unwrap_or(0),
    }
}

fn keep_front(kept: &mut HashMap<u32, u64>, entry: u32, front: u64) -> Result<(), AllocError>
    ensures { OnOk result (SetsKept kept.old kept.new entry front) }
{
    kept.insert(entry, front)?;
    Ok(())
}

/// The front of an entry. `opening` has the pairs of the states on which the section opened.
fn front_of(fronts: &Fronts, opening: &[u64], entry: u32) -> u64
    ensures { result ≡ front_of fronts.now opening.now entry }
{
    let index = entry as usize;
    if index < fronts.list.len() {
        return fronts.list[index];
    }
    kept_front(&fronts.kept, opening, entry)
}

fn set_front(fronts: &mut Fronts, entry: u32, front: u64) -> Result<(), AllocError>
    ensures { OnOk result (SetsFront fronts.old fronts.new entry front) }
{
    let index = entry as usize;
    if index < fronts.list.len() {
        fronts.list[index] = front;
        return Ok(());
    }
    keep_front(&mut fronts.kept, entry, front)?;
    Ok(())
}

/// The pair of the state after a receipt.
fn pair_after(receipt: &Receipt) -> u64
    ensures { result ≡ history.pair_of (after_of receipt.now) }
{
    if may_change(receipt.answer) {
        pair_of(&receipt.after())
    } else {
        pair_of(&receipt.before)
    }
}

/// A cached translation was found gone: the front of its entry is raised.
fn pass_line(fronts: &mut Fronts, opening: &[u64], line: &Line) -> Result<(), AllocError>
    ensures { OnOk
        result
        (LeadsTo
        (front_of fronts.old opening.now)
        (gone line.now ∷ [])
        (front_of fronts.new opening.now)) }
{
    let front = front_of(fronts, opening, line.entry);
    set_front(fronts, line.entry, front.max(pair_beyond(line)))
}

/// The cached translation that was gone, if there was one.
fn pass_gone(fronts: &mut Fronts, opening: &[u64], gone: &Option<Line>) -> Result<(), AllocError>
    ensures { OnOk
        result
        (LeadsTo
        (front_of fronts.old opening.now)
        (gone_events gone.now)
        (front_of fronts.new opening.now)) }
{
    match gone {
        None => Ok(()),
        Some(line) => pass_line(fronts, opening, line),
    }
}

/// A receipt sets the front of its entry, unless it comes before it.
fn keep_receipt(fronts: &mut Fronts, opening: &[u64], receipt: &Receipt) -> Result<bool, AllocError>
    ensures yes { IfOk
        result
        (λ kept.
        kept ≡ true
        → LeadsTo
        (front_of fronts.old opening.now)
        (made receipt.now ∷ [])
        (front_of fronts.new opening.now)) }
    ensures no { IfOk
        result
        (λ kept.
        kept ≡ false
        → (later : List Event)
        → LeadsNowhere (front_of fronts.old opening.now) (made receipt.now ∷ later)) }
{
    let front = front_of(fronts, opening, receipt.entry);
    if front > pair_of(&receipt.before) {
        return Ok(false);
    }
    let after = pair_after(receipt);
    if after == front {
        return Ok(true);
    }
    set_front(fronts, receipt.entry, after)?;
    Ok(true)
}

/// The receipts of a line, one after the other.
fn keep_receipts(
    fronts: &mut Fronts,
    opening: &[u64],
    receipts: &[Receipt],
) -> Result<bool, AllocError>
    ensures yes { IfOk
        result
        (λ kept.
        kept ≡ true
        → LeadsTo
        (front_of fronts.old opening.now)
        (map (λ (r : Receipt). made r) receipts.now)
        (front_of fronts.new opening.now)) }
    ensures no { IfOk
        result
        (λ kept.
        kept ≡ false
        → LeadsNowhere
        (front_of fronts.old opening.now)
        (map (λ (r : Receipt). made r) receipts.now)) }
{
    for receipt in receipts {
        if !keep_receipt(fronts, opening, receipt)? {
            return Ok(false);
        }
    }
    Ok(true)
}

/// Takes a line's events into the fronts of its processor: the cached translation that was gone, if
/// there was one, and the receipts. Answers whether none of these comes before its entry's front.
pub fn keep_fronts(
    fronts: &mut Fronts,
    opening: &[u64],
    gone: &Option<Line>,
    receipts: &[Receipt],
) -> Result<bool, AllocError>
    ensures yes { IfOk
        result
        (λ kept.
        kept ≡ true
        → LeadsTo
        (front_of fronts.old opening.now)
        (gone_events gone.now ++ map (λ (r : Receipt). made r) receipts.now)
        (front_of fronts.new opening.now)) }
    ensures no { IfOk
        result
        (λ kept.
        kept ≡ false
        → LeadsNowhere
        (front_of fronts.old opening.now)
        (gone_events gone.now ++ map (λ (r : Receipt). made r) receipts.now)) }
{
    pass_gone(fronts, opening, gone)?;
    let kept = keep_receipts(fronts, opening, receipts)?;
    Ok(kept)
}
