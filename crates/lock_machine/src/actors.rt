//! Actors of the machine: how they begin, take up a receipt with the translation that it shows, and
//! join.
ghost use Rattle.std.specs.Prelude.{◌≡◌, [], ◌∷◌, ◌++◌, IfOk, OnOk, OnErr, IfNone, IsOk, IsOkUnless};
ghost use Rattle.std.specs.Option.{option_to_list};
ghost use Rattle.lock_core.specs.Machine.{nobody as nobody_of, newcomer as newcomer_of, shown_sightings, sighting_of};
ghost use Rattle.lock_core.specs.Steps.{actor_after, joined_actor};

use entry_model::{Answer, EntryState, Receipt};
use lock_core::{Actor, CoreError, Phase, Sighting};
use std::alloc::Global;

/// The line of an entry in a state.
fn sighting(entry: u32, state: &EntryState) -> Sighting
    ensures { result ≡ sighting_of entry state.now }
{
    Sighting {
        entry,
        stamp: state.stamp,
        dword0: state.dword0,
        dword1: state.dword1,
    }
}

/// The line that a receipt shows: its entry's before, where the answer used the translation.
fn shown(receipt: &Receipt) -> Option<Sighting>
    ensures { shown_sightings receipt.now ≡ option_to_list result }
{
    match receipt.answer {
        Answer::At => Some(sighting(receipt.entry, &receipt.before)),
        Answer::Denied => Some(sighting(receipt.entry, &receipt.before)),
        Answer::Masked => Some(sighting(receipt.entry, &receipt.before)),
        _ => None,
    }
}

/// An actor that isn't live.
pub fn nobody(alloc: Global) -> Actor
    ensures { result ≡ nobody_of }
{
    Actor {
        live: false,
        phase: Phase::Idle,
        receipts: Vec::new(alloc),
        lines: Vec::new(alloc),
    }
}

/// A live actor that has made and seen nothing.
pub fn first(alloc: Global) -> Actor
    ensures { result ≡ newcomer_of [] }
{
    let mut actor = nobody(alloc);
    actor.live = true;
    actor
}

/// A live actor that has made nothing and has seen what its parent has.
pub fn child(parent: &Actor, alloc: Global) -> Result<Actor, CoreError>
    ensures ok { IfOk result (λ a. a ≡ newcomer_of parent.now.lines) }
    ensures err { IsOkUnless result CoreError.Memory }
    ensures without_lines { parent.now.lines ≡ [] → IsOk result }
{
    let mut actor = first(alloc);
    match actor.lines.extend_from_slice(&parent.lines) {
        Ok(()) => Ok(actor),
        Err(_) => Err(CoreError::Memory),
    }
}

/// Goes to a phase, with the receipt that was made.
pub fn go(actor: &mut Actor, phase: Phase, made: Option<Receipt>) -> Result<(), CoreError>
    ensures ok { OnOk result (actor.new ≡ actor_after actor.old phase made) }
    ensures err { OnErr result (actor.new ≡ actor.old) }
    ensures memory { IsOkUnless result CoreError.Memory }
    ensures without_receipt { IfNone made (IsOk result) }
{
    if let Some(receipt) = made {
        append(actor, receipt)?;
    }
    actor.phase = phase;
    Ok(())
}

/// Appends a receipt and the line that it shows.
fn append(actor: &mut Actor, receipt: Receipt) -> Result<(), CoreError>
    ensures ok { OnOk
        result
        (actor.new
        ≡ record actor.old {
          receipts = actor.old.receipts ++ receipt ∷ [];
          lines = actor.old.lines ++ shown_sightings receipt;
        }) }
    ensures err { OnErr result (actor.new ≡ actor.old) }
    ensures memory { IsOkUnless result CoreError.Memory }
{
    if actor.receipts.reserve(1).is_err() || actor.lines.reserve(1).is_err() {
        return Err(CoreError::Memory);
    }
    actor.receipts.push_reserved(receipt);
    if let Some(line) = shown(&receipt) {
        actor.lines.push_reserved(line);
    }
    Ok(())
}

/// Takes the receipts and the lines of another actor.
pub fn join(actor: &mut Actor, other: &Actor) -> Result<(), CoreError>
    ensures ok { OnOk result (actor.new ≡ joined_actor actor.old other.now) }
    ensures err { OnErr result (actor.new ≡ actor.old) }
    ensures memory { IsOkUnless result CoreError.Memory }
    ensures of_nothing { other.now.receipts ≡ [] → other.now.lines ≡ [] → IsOk result }
{
    if actor.receipts.reserve(other.receipts.len()).is_err() {
        return Err(CoreError::Memory);
    }
    if actor.lines.extend_from_slice(&other.lines).is_err() {
        return Err(CoreError::Memory);
    }
    let _ = actor.receipts.extend_from_slice(&other.receipts);
    Ok(())
}
