//! The text of a set's replies, each line of which begins with its partition's number; a run can
//! write it without keeping the replies.
ghost use Rattle.std.specs.Prelude.{◌≡◌, ◌++◌, length, IfOk, OnOk, string_bytes};
ghost use Rattle.std.specs.List.{flat_map};
ghost use Rattle.trace_reply.specs.Slots.{reply_in};
ghost use Rattle.lpar_set.specs.SetLaws.{IsSetAssured};
ghost use Rattle.lpar_set.specs.SetRun.{opening_set, set_replies};
ghost use Rattle.lpar_set.specs.SetText.{number_text, numbered_entry, numbered_reply};

use crate::members::Members;
use crate::set::SetTrace;
use entry_model::EntryState;
use number_text::put_decimal;
use reply_text::{put_entry, put_reply, put_slot, put_table};
use std::alloc::{AllocError, Global};
use trace_line::TraceLine;
use trace_reply::{Replies, Reply, ReplyEnd, ReplySlot, Shown};

/// Appends the partition's number, and a space.
fn put_number(out: &mut String, number: u8) -> Result<(), AllocError>
    ensures { OnOk result (string_bytes out.new ≡ string_bytes out.old ++ number_text number) }
{
    put_decimal(out, "", u64::from(number))?;
    out.push_str(" ")
}

/// Appends the lines of entries, each with the partition's number before it.
fn put_numbered_entries(
    out: &mut String,
    number: u8,
    entries: &[(u32, EntryState)],
) -> Result<(), AllocError>
    ensures { OnOk
        result
        (string_bytes out.new
        ≡ string_bytes out.old ++ flat_map (numbered_entry number) entries.now) }
{
    for (entry, state) in entries {
        put_number(out, number)?;
        put_entry(out, *entry, state)?;
    }
    Ok(())
}

/// Appends the lines of a dump, that of the table and those of its entries, each with the
/// partition's number before it.
fn put_dump(out: &mut String, number: u8, line: &TraceLine, shown: &Shown) -> Result<(), AllocError>
    ensures { OnOk
        result
        (string_bytes out.new
        ≡ string_bytes out.old ++ numbered_reply number line.now (Reply.Dump shown.now)) }
{
    put_number(out, number)?;
    put_table(out, line.number, shown)?;
    put_numbered_entries(out, number, shown.states.as_slice())
}

/// Appends the text of the reply to a line, each of its own lines with the partition's number
/// before it.
fn put_numbered(
    out: &mut String,
    number: u8,
    line: &TraceLine,
    reply: &Reply,
) -> Result<(), AllocError>
    ensures { OnOk
        result
        (string_bytes out.new
        ≡ string_bytes out.old ++ numbered_reply number line.now reply.now) }
{
    if let Reply::Dump(shown) = reply {
        return put_dump(out, number, line, shown);
    }
    put_number(out, number)?;
    put_reply(out, line, reply)
}

/// Appends the text of the reply in the slot, each of its own lines with the partition's number
/// before it.
fn put_numbered_slot(
    out: &mut String,
    number: u8,
    line: &TraceLine,
    slot: &ReplySlot,
) -> Result<(), AllocError>
    ensures { OnOk
        result
        (string_bytes out.new
        ≡ string_bytes out.old ++ numbered_reply number line.now (reply_in slot.now)) }
{
    if let ReplyEnd::Dump(shown) = &slot.end {
        return put_dump(out, number, line, shown);
    }
    put_number(out, number)?;
    put_slot(out, line, slot)
}

/// The text of replies to the lines of a set, in file order: a line for each, and for a dump a
/// further one for each valid entry, each with the number of its partition before it. The only
/// error is want of memory.
pub fn set_text(alloc: Global, set: &SetTrace, replies: &Replies) -> Result<String, AllocError>
    requires { length set.now.turns ≡ length replies.now.items }
    ensures { IfOk
        result
        (λ s. string_bytes s ≡ Rattle.lpar_set.specs.SetText.set_text set.now replies.now.items) }
{
    let mut out = String::new(alloc);
    let turns = set.turns();
    let replies = replies.as_slice();
    for i in 0..turns.len() {
        let turn = &turns[i];
        put_numbered(
            &mut out,
            set.number_of(turn),
            set.line_of(turn),
            &replies[i],
        )?;
    }
    Ok(out)
}

/// The texts of the replies to all lines of a set, whose partitions are before their first ones.
/// Each is written as soon as its line has run.
fn turns_to_text(alloc: Global, set: &SetTrace, members: &mut Members) -> Result<String, AllocError>
    requires { members.old ≡ opening_set set.now }
    ensures { IfOk
        result
        (λ s.
        string_bytes s ≡ Rattle.lpar_set.specs.SetText.set_text set.now (set_replies set.now)) }
{
    set.keeps_limits();
    let turns = set.turns();
    let mut out = String::new(alloc);
    // One slot for the replies to all lines.
    let mut slot = ReplySlot::new();
    for turn in turns {
        let line = set.line_of(turn);
        members.line(alloc, turn.partition, line, &mut slot)?;
        put_numbered_slot(&mut out, set.number_of(turn), line, &slot)?;
    }
    Ok(out)
}

/// The text of the run of a set. No reply is kept longer than it takes to write it. The only error
/// is want of memory.
pub fn set_to_text(alloc: Global, set: &SetTrace) -> Result<String, AllocError>
    ensures text { IfOk
        result
        (λ s.
        string_bytes s ≡ Rattle.lpar_set.specs.SetText.set_text set.now (set_replies set.now)) }
    ensures assured { IsSetAssured set.now (set_replies set.now) }
{
    set.keeps_limits();
    let mut members = Members::open(alloc, set)?;
    turns_to_text(alloc, set, &mut members)
}
