//! Run lines read from their words: a processor with its hypervisor call, access, or setting of
//! segments and masks, or a dump.
ghost use Rattle.std.specs.Prelude.{◌≡◌, ◌≤◌, ◌<◌, [], IfOk, slice_index_or};
ghost use Rattle.trace_read.specs.Forms.{IsNamedVerb, IsNamedForm};
ghost use Rattle.trace_read.specs.TextLines.{texts};
ghost use Rattle.trace_read.specs.Acts.{number_at, arguments_from, mode_at, act_by, read_act, dump_act};
ghost use Rattle.trace_line.specs.Lines.{IsSpelt};

use crate::forms::{Form, is_name};
use crate::numbers::number;
use crate::verbs::Verb;
use crate::why::Why;
use trace_line::Act;

/// The word at an index; a missing one is empty.
pub fn word_at<'a>(words: &[&'a [u8]], i: usize) -> &'a [u8]
    ensures { result.now ≡ slice_index_or (texts words.now) i [] }
{
    if i < words.len() { words[i] } else { &[] }
}

/// The word at an index as a number; a missing one is 0.
#[tactic(auto, unfolding(crate::specs::Acts::number_at))]
pub fn number_at(words: &[&[u8]], i: usize) -> Result<u64, Why>
    ensures { result ≡ number_at (texts words.now) i }
{
    if i < words.len() {
        number(words[i]).ok_or(Why::Number)
    } else {
        Ok(0)
    }
}

/// The arguments of a call, the first of which is at this index.
fn arguments_from(words: &[&[u8]], first: usize) -> Result<[u64; 8], Why>
    requires { first ≤ 3 }
    ensures { result ≡ arguments_from (texts words.now) first }
{
    let mut args = [0; 8];
    for i in 0..8 {
        args[i] = number_at(words, first + i)?;
    }
    Ok(args)
}

/// The mode of an access: whether it is made in problem state.
#[tactic(auto, unfolding(crate::specs::Acts::mode_at))]
fn mode_at(words: &[&[u8]], i: usize) -> Result<bool, Why>
    ensures { result ≡ mode_at (texts words.now) i }
{
    let word = word_at(words, i);
    if is_name(word, "user") {
        Ok(true)
    } else if is_name(word, "priv") {
        Ok(false)
    } else {
        Err(Why::Mode)
    }
}

/// What the words after the processor and the verb ask for.
#[tactic(auto, unfolding(crate::specs::Acts::act_by))]
fn act(verb: Verb, words: &[&[u8]]) -> Result<Act, Why>
    requires { IsNamedVerb verb }
    ensures act { result ≡ act_by verb (texts words.now) }
    ensures spelt { IfOk result IsSpelt }
{
    match verb {
        Verb::Named(hcall, _) => Ok(Act::Call {
            number: hcall.number(),
            args: arguments_from(words, 2)?,
            spelt: true,
        }),
        Verb::Numbered => Ok(Act::Call {
            number: number_at(words, 2)?,
            args: arguments_from(words, 3)?,
            spelt: false,
        }),
        Verb::Access(want) => Ok(Act::Access {
            want,
            ea: number_at(words, 2)?,
            user: mode_at(words, 3)?,
        }),
        Verb::Device { write } => Ok(Act::Device {
            write,
            liobn: number_at(words, 2)?,
            ioba: number_at(words, 3)?,
        }),
        Verb::SlbMte => Ok(Act::SlbMte {
            rb: number_at(words, 2)?,
            rs: number_at(words, 3)?,
        }),
        Verb::SlbClear => Ok(Act::SlbClear),
        Verb::SetMask(name) => Ok(Act::SetMask {
            name,
            value: number_at(words, 2)?,
        }),
    }
}

/// A run line: the processor, and what it does.
#[tactic(auto, unfolding(crate::specs::Acts::read_act))]
pub fn read_act(cpus: u32, verb: Option<Verb>, words: &[&[u8]]) -> Result<(u32, Act), Why>
    requires { IsNamedForm (Form.Run verb) }
    ensures line { result ≡ read_act cpus verb (texts words.now) }
    ensures cpu { IfOk result (λ x. x.0 < cpus) }
    ensures spelt { IfOk result (λ x. IsSpelt x.1) }
{
    let verb = verb.ok_or(Why::Count)?;
    if !verb.takes(words.len()) {
        return Err(Why::Count);
    }
    let cpu = number_at(words, 0)?;
    let act = act(verb, words)?;
    if cpu >= u64::from(cpus) {
        return Err(Why::Cpu);
    }
    Ok((cpu as u32, act))
}

/// `dump`: it names no processor.
#[tactic(auto, unfolding(crate::specs::Acts::dump_act))]
pub fn dump_act(words: &[&[u8]]) -> Result<(u32, Act), Why>
    ensures line { result ≡ dump_act (texts words.now) }
    ensures dump { IfOk result (λ x. x ≡ (0, Act.Dump)) }
{
    if words.len() != 1 {
        return Err(Why::Count);
    }
    Ok((0, Act::Dump))
}
