//! The text of each kind of reply, and of a dump's table and entries, appended to a string piece by
//! piece.
ghost use Rattle.std.specs.Prelude.{◌≡◌, ◌≤◌, ◌+◌, ◌*◌, ◌++◌, false, IsOk, OnOk, OnErr, IfOk, string_bytes, string_len, string_capacity, length};
ghost use Rattle.std.specs.List.{flat_map};
ghost use Rattle.std.specs.Io.{StartsWith};
ghost use Rattle.papr_codes.specs.ReturnCodes.{rc_code};
ghost use Rattle.trace_reply.specs.Slots.{reply_in};
ghost use Rattle.trace_reply.specs.Replies.{is_dump};
ghost use Rattle.number_text.specs.Room.{TakesAtMost};
ghost use Rattle.reply_text.specs.Text.{want_word, mask_word, name_of, head_text, word_text, code_text, hcall_text, outcome_text, way_text, access_text, device_word, device_outcome_text, device_text, verdict_text, entry_text, dump_head, table_text, dump_text, reply_text, text_from};

use authority_mask::MaskName;
use entry_model::{By, DeviceOutcome, EntryState, Outcome, Receipts, ReplyWords};
use number_text::{put_decimal, put_hexadecimal, put_signed};
use papr_codes::{Hcall, Rc};
use receipt_text::put_receipts;
use std::alloc::{AllocError, Global};
use storage_prot::Want;
use trace_line::{Act, TraceLine};
use trace_read::Trace;
use trace_reply::{Replies, Reply, ReplyEnd, ReplySlot, Shown};

/// Room for the line of a reply that is no dump. It has at most 746 bytes: 42 as far as the name,
/// 157 for the code and 8 words, 546 for 16 receipts, and the line's end.
pub const REPLY_ROOM: usize = 1024;

/// Room for the line of an entry, which has at most 61 bytes.
const ENTRY_ROOM: usize = 64;

/// The word of an access.
fn want_name(want: Want) -> &'static str
    ensures value { result.now ≡ want_word want }
    ensures short { length result.now ≤ 5 }
{
    match want {
        Want::Load => "load",
        Want::Store => "store",
        Want::Fetch => "fetch",
    }
}

/// The word of a mask.
fn mask_name(name: MaskName) -> &'static str
    ensures value { result.now ≡ mask_word name }
    ensures short { length result.now ≤ 4 }
{
    match name {
        MaskName::Amr => "amr",
        MaskName::Iamr => "iamr",
    }
}

/// The word of a device's access.
fn device_name(write: bool) -> &'static str
    ensures value { result.now ≡ device_word write }
    ensures short { length result.now ≤ 8 }
{
    if write { "dmawrite" } else { "dmaread" }
}

/// The word after the processor in a reply's line.
#[tactic(auto, using(crate::proofs::Lengths::hcall_name_short))]
fn name(act: &Act) -> &'static str
    ensures value { result.now ≡ name_of act.now }
    ensures short { length result.now ≤ 20 }
{
    match *act {
        Act::Call {
            number,
            args: _,
            spelt: true,
        } => Hcall::of_number(number).name(),
        Act::Call { .. } => "hcall",
        Act::Access { want, .. } => want_name(want),
        Act::Device { write, .. } => device_name(write),
        Act::SlbMte { .. } => "slbmte",
        Act::SlbClear => "slbclear",
        Act::SetMask { name, .. } => mask_name(name),
        Act::Dump => "dump",
    }
}

/// The line's number, its processor, and its name.
#[tactic(auto, using(number_text::proofs::Lengths::decimal_short), unfolding(crate::specs::Text::head_text))]
fn put_head(out: &mut String, line: &TraceLine) -> Result<(), AllocError>
    ensures text { OnOk
        result
        (string_bytes out.new
        ≡ string_bytes out.old ++ head_text line.now.number line.now.cpu (name_of line.now.act)) }
    ensures kept { OnErr result (StartsWith (string_bytes out.new) (string_bytes out.old)) }
    ensures room { TakesAtMost 42 result out.old out.new }
{
    // Taken out of the line, their types bound how many digits they have.
    let TraceLine { number, cpu, .. } = *line;
    put_decimal(out, "", u64::from(number))?;
    put_decimal(out, " ", u64::from(cpu))?;
    out.push_str(" ")?;
    out.push_str(name(&line.act))
}

/// The words of a reply, each after a space.
#[tactic(auto, using(number_text::proofs::Prefixes::starts_before))]
fn put_words(out: &mut String, words: &[u64]) -> Result<(), AllocError>
    ensures text { OnOk
        result
        (string_bytes out.new ≡ string_bytes out.old ++ flat_map word_text words.now) }
    ensures kept { OnErr result (StartsWith (string_bytes out.new) (string_bytes out.old)) }
    ensures room { TakesAtMost (19 * length words.now) result out.old out.new }
{
    for word in words {
        put_hexadecimal(out, " ", *word)?;
    }
    Ok(())
}

/// A return code, after a space.
#[tactic(auto, using(crate::proofs::Lengths::code_short), unfolding(crate::specs::Text::code_text))]
fn put_code(out: &mut String, rc: Rc) -> Result<(), AllocError>
    ensures text { OnOk
        result
        (string_bytes out.new ≡ string_bytes out.old ++ code_text (rc_code rc)) }
    ensures kept { OnErr result (StartsWith (string_bytes out.new) (string_bytes out.old)) }
    ensures room { TakesAtMost 5 result out.old out.new }
{
    put_signed(out, " ", rc.code())
}

/// The return code of a hypervisor call, its words, and its receipts.
fn put_hcall(
    out: &mut String,
    rc: Rc,
    words: &ReplyWords,
    receipts: &Receipts,
) -> Result<(), AllocError>
    ensures text { OnOk
        result
        (string_bytes out.new
        ≡ string_bytes out.old
        ++ hcall_text (record { rc = rc; words = words.now; receipts = receipts.now })) }
    ensures kept { OnErr result (StartsWith (string_bytes out.new) (string_bytes out.old)) }
    ensures room { TakesAtMost 704 result out.old out.new }
{
    put_code(out, rc)?;
    put_words(out, words.as_slice())?;
    put_receipts(out, receipts.as_slice())?;
    out.push_str("\n")
}

/// Where an access ended.
fn put_outcome(out: &mut String, outcome: Outcome) -> Result<(), AllocError>
    ensures text { OnOk
        result
        (string_bytes out.new ≡ string_bytes out.old ++ outcome_text outcome) }
    ensures kept { OnErr result (StartsWith (string_bytes out.new) (string_bytes out.old)) }
    ensures room { TakesAtMost 29 result out.old out.new }
{
    match outcome {
        Outcome::At(address) => put_hexadecimal(out, " at ", address),
        Outcome::Denied => out.push_str(" denied"),
        Outcome::Masked(name) => {
            out.push_str(" masked ")?;
            out.push_str(mask_name(name))
        }
        Outcome::NoPage => out.push_str(" nopage"),
        Outcome::NoSegment => out.push_str(" nosegment"),
        Outcome::Ungranted(address) => put_hexadecimal(out, " ungranted ", address),
    }
}

/// The word for what an access ended by, a cached translation or a walk, with a space before it.
fn way(by: Option<By>) -> &'static str
    ensures value { result.now ≡ way_text by }
    ensures short { length result.now ≤ 5 }
{
    match by {
        Some(By::Hit) => " hit",
        Some(By::Walk) => " walk",
        None => "",
    }
}

/// Where an access ended, by what, and its receipts.
#[tactic(auto, using(number_text::proofs::Prefixes::starts_before))]
fn put_access(
    out: &mut String,
    outcome: Outcome,
    by: Option<By>,
    receipts: &Receipts,
) -> Result<(), AllocError>
    ensures text { OnOk
        result
        (string_bytes out.new
        ≡ string_bytes out.old
        ++ access_text (record { outcome = outcome; by = by; receipts = receipts.now })) }
    ensures kept { OnErr result (StartsWith (string_bytes out.new) (string_bytes out.old)) }
    ensures room { TakesAtMost 581 result out.old out.new }
{
    put_outcome(out, outcome)?;
    out.push_str(way(by))?;
    put_receipts(out, receipts.as_slice())?;
    out.push_str("\n")
}

/// Where a device's access ended.
fn put_device_outcome(out: &mut String, outcome: DeviceOutcome) -> Result<(), AllocError>
    ensures text { OnOk
        result
        (string_bytes out.new ≡ string_bytes out.old ++ device_outcome_text outcome) }
    ensures kept { OnErr result (StartsWith (string_bytes out.new) (string_bytes out.old)) }
    ensures room { TakesAtMost 29 result out.old out.new }
{
    match outcome {
        DeviceOutcome::At(address) => put_hexadecimal(out, " at ", address),
        DeviceOutcome::Denied => out.push_str(" denied"),
        DeviceOutcome::NoWindow => out.push_str(" nowindow"),
        DeviceOutcome::Ungranted(address) => put_hexadecimal(out, " ungranted ", address),
    }
}

/// Where a device's access ended, and its receipts.
#[tactic(auto, using(number_text::proofs::Prefixes::starts_before))]
fn put_device(
    out: &mut String,
    outcome: DeviceOutcome,
    receipts: &Receipts,
) -> Result<(), AllocError>
    ensures text { OnOk
        result
        (string_bytes out.new
        ≡ string_bytes out.old
        ++ device_text (record { outcome = outcome; receipts = receipts.now })) }
    ensures kept { OnErr result (StartsWith (string_bytes out.new) (string_bytes out.old)) }
    ensures room { TakesAtMost 576 result out.old out.new }
{
    put_device_outcome(out, outcome)?;
    put_receipts(out, receipts.as_slice())?;
    out.push_str("\n")
}

/// Whether a change of the segment lookaside buffer was accepted.
fn put_verdict(out: &mut String, accepted: bool) -> Result<(), AllocError>
    ensures text { OnOk
        result
        (string_bytes out.new ≡ string_bytes out.old ++ verdict_text accepted) }
    ensures kept { OnErr result (StartsWith (string_bytes out.new) (string_bytes out.old)) }
    ensures room { TakesAtMost 9 result out.old out.new }
{
    out.push_str(if accepted { " ok\n" } else { " refused\n" })
}

/// Appends the line of an entry in a dump: its index, both doublewords, and its stamp. Where memory
/// ends, the text that was there stays, with perhaps a part of the line after it.
#[tactic(auto, unfolding(crate::specs::Text::entry_text))]
pub fn put_entry(out: &mut String, entry: u32, state: &EntryState) -> Result<(), AllocError>
    ensures text { OnOk
        result
        (string_bytes out.new ≡ string_bytes out.old ++ entry_text (entry, state.now)) }
    ensures kept { OnErr result (StartsWith (string_bytes out.new) (string_bytes out.old)) }
    ensures capacity { string_capacity out.old ≤ string_capacity out.new }
{
    let (first, second) = state.words();
    put_hexadecimal(out, " ", u64::from(entry))?;
    put_hexadecimal(out, " ", first)?;
    put_hexadecimal(out, " ", second)?;
    put_decimal(out, " ", u64::from(state.stamp))?;
    out.push_str("\n")
}

/// The line's number.
#[tactic(auto, unfolding(crate::specs::Text::dump_head))]
fn put_dump_head(out: &mut String, line: u32) -> Result<(), AllocError>
    ensures text { OnOk result (string_bytes out.new ≡ string_bytes out.old ++ dump_head line) }
    ensures kept { OnErr result (StartsWith (string_bytes out.new) (string_bytes out.old)) }
    ensures capacity { string_capacity out.old ≤ string_capacity out.new }
{
    put_decimal(out, "", u64::from(line))?;
    out.push_str(" dump")
}

/// The table's number, order and place, and how many entries it has.
#[tactic(auto, using(std::proofs::Common::append_assoc), unfolding(crate::specs::Text::table_text))]
fn put_size(out: &mut String, shown: &Shown, count: usize) -> Result<(), AllocError>
    ensures text { OnOk
        result
        (string_bytes out.new
        ≡ string_bytes out.old
        ++ table_text shown.now.number shown.now.order shown.now.place count) }
    ensures kept { OnErr result (StartsWith (string_bytes out.new) (string_bytes out.old)) }
    ensures capacity { string_capacity out.old ≤ string_capacity out.new }
{
    put_decimal(out, " table ", u64::from(shown.number))?;
    put_decimal(out, " order ", u64::from(shown.order))?;
    put_hexadecimal(out, " place ", shown.place)?;
    put_decimal(out, " entries ", count as u64)?;
    out.push_str("\n")
}

/// Appends the first line of a dump: the line's number, and the table's number, order and place,
/// and how many valid entries it has. Where memory ends, the text that was there stays, with
/// perhaps a part of the line after it.
pub fn put_table(out: &mut String, line: u32, shown: &Shown) -> Result<(), AllocError>
    ensures text { OnOk
        result
        (string_bytes out.new
        ≡ string_bytes out.old
        ++ dump_head line
        ++ table_text
        shown.now.number
        shown.now.order
        shown.now.place
        (length shown.now.states)) }
    ensures kept { OnErr result (StartsWith (string_bytes out.new) (string_bytes out.old)) }
    ensures capacity { string_capacity out.old ≤ string_capacity out.new }
{
    put_dump_head(out, line)?;
    put_size(out, shown, shown.states.as_slice().len())
}

/// The lines of entries, each in room of its own.
fn put_entry_lines(out: &mut String, entries: &[(u32, EntryState)]) -> Result<(), AllocError>
    ensures text { OnOk
        result
        (string_bytes out.new ≡ string_bytes out.old ++ flat_map entry_text entries.now) }
    ensures kept { OnErr result (StartsWith (string_bytes out.new) (string_bytes out.old)) }
    ensures capacity { string_capacity out.old ≤ string_capacity out.new }
{
    for (entry, state) in entries {
        out.reserve(ENTRY_ROOM)?;
        put_entry(out, *entry, state)?;
    }
    Ok(())
}

/// The table at the line of a dump, and its entries.
fn put_dump(out: &mut String, line: u32, shown: &Shown) -> Result<(), AllocError>
    ensures text { OnOk
        result
        (string_bytes out.new ≡ string_bytes out.old ++ dump_text line shown.now) }
    ensures kept { OnErr result (StartsWith (string_bytes out.new) (string_bytes out.old)) }
    ensures capacity { string_capacity out.old ≤ string_capacity out.new }
{
    put_table(out, line, shown)?;
    put_entry_lines(out, shown.states.as_slice())
}

/// Appends the text of the reply to a line. Where memory ends, the text that was there stays, with
/// perhaps a part of the reply after it.
pub fn put_reply(out: &mut String, line: &TraceLine, reply: &Reply) -> Result<(), AllocError>
    ensures text { OnOk
        result
        (string_bytes out.new ≡ string_bytes out.old ++ reply_text line.now reply.now) }
    ensures kept { OnErr result (StartsWith (string_bytes out.new) (string_bytes out.old)) }
    // Within the room of a reply, the line of one that is no dump is written, in no more than that.
    ensures fits { is_dump reply.now ≡ false
        → string_len out.old + REPLY_ROOM ≤ string_capacity out.old
        → IsOk result }
    ensures short { is_dump reply.now ≡ false
        → OnOk result (string_len out.new ≤ string_len out.old + REPLY_ROOM) }
    ensures capacity { string_capacity out.old ≤ string_capacity out.new }
{
    out.reserve(REPLY_ROOM)?;
    match reply {
        Reply::Hcall(reply) => {
            put_head(out, line)?;
            put_hcall(out, reply.rc, &reply.words, &reply.receipts)
        }
        Reply::Access(reply) => {
            put_head(out, line)?;
            put_access(out, reply.outcome, reply.by, &reply.receipts)
        }
        Reply::Device(reply) => {
            put_head(out, line)?;
            put_device(out, reply.outcome, &reply.receipts)
        }
        Reply::Segment(accepted) => {
            put_head(out, line)?;
            put_verdict(out, *accepted)
        }
        Reply::MaskSet => {
            put_head(out, line)?;
            out.push_str(" ok\n")
        }
        Reply::Dump(shown) => put_dump(out, line.number, shown),
    }
}

/// Appends the text of the reply in the slot, as [`put_reply`] does.
pub fn put_slot(out: &mut String, line: &TraceLine, slot: &ReplySlot) -> Result<(), AllocError>
    ensures text { OnOk
        result
        (string_bytes out.new
        ≡ string_bytes out.old ++ reply_text line.now (reply_in slot.now)) }
    ensures kept { OnErr result (StartsWith (string_bytes out.new) (string_bytes out.old)) }
    // Within the room of a reply, the line of one that is no dump is written, in no more than that.
    ensures fits { is_dump (reply_in slot.now) ≡ false
        → string_len out.old + REPLY_ROOM ≤ string_capacity out.old
        → IsOk result }
    ensures short { is_dump (reply_in slot.now) ≡ false
        → OnOk result (string_len out.new ≤ string_len out.old + REPLY_ROOM) }
    ensures capacity { string_capacity out.old ≤ string_capacity out.new }
{
    out.reserve(REPLY_ROOM)?;
    match &slot.end {
        ReplyEnd::Hcall(registers) => {
            put_head(out, line)?;
            put_hcall(out, registers.rc, &registers.words, &slot.receipts)
        }
        ReplyEnd::Access(end) => {
            put_head(out, line)?;
            put_access(out, end.outcome, end.by, &slot.receipts)
        }
        ReplyEnd::Device(outcome) => {
            put_head(out, line)?;
            put_device(out, *outcome, &slot.receipts)
        }
        ReplyEnd::Segment(accepted) => {
            put_head(out, line)?;
            put_verdict(out, *accepted)
        }
        ReplyEnd::MaskSet => {
            put_head(out, line)?;
            out.push_str(" ok\n")
        }
        ReplyEnd::Dump(shown) => put_dump(out, line.number, shown),
    }
}

/// Appends the texts of the replies to lines.
fn put_replies(out: &mut String, lines: &[TraceLine], replies: &[Reply]) -> Result<(), AllocError>
    requires { length lines.now ≡ length replies.now }
    ensures text { OnOk
        result
        (string_bytes out.new ≡ string_bytes out.old ++ text_from lines.now replies.now) }
    ensures kept { OnErr result (StartsWith (string_bytes out.new) (string_bytes out.old)) }
{
    for i in 0..lines.len() {
        put_reply(out, &lines[i], &replies[i])?;
    }
    Ok(())
}

/// The text of the replies to the lines of a trace, in file order: a line for each, and for a dump
/// a further one for each valid entry.
pub fn text_of(alloc: Global, trace: &Trace, replies: &Replies) -> Result<String, AllocError>
    requires { length trace.now.lines ≡ length replies.now.items }
    ensures { IfOk
        result
        (λ s. string_bytes s ≡ Rattle.reply_text.specs.Text.text_of trace.now replies.now.items) }
{
    let mut out = String::new(alloc);
    put_replies(&mut out, trace.lines.as_slice(), replies.as_slice())?;
    Ok(out)
}
