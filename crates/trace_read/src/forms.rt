//! The forms of a trace's lines, known by their first word: a digit begins a processor's line, and
//! any other line begins with a keyword.
ghost use Rattle.std.specs.Prelude.{◌≡◌, IfSome, IfOk};
ghost use Rattle.std.specs.Str.{bytes_eq};
ghost use Rattle.trace_read.specs.Givens.{is_setting, is_setting_form};
ghost use Rattle.trace_read.specs.TextLines.{texts};
ghost use Rattle.trace_read.specs.Forms.{begins_with_digit, form_named, run_form, form_of, IsNamedForm};

use crate::verbs::{Verb, named_verb};
use crate::why::Why;
use frame_grants::Kind;

/// The form of a line, as its first words show it.
#[derive(Clone, Copy)]
pub enum Form {
    /// `order S`
    Order,
    /// `limit S`
    Limit,
    /// `cpus N`
    Cpus,
    /// `pool BASE ORDER`
    Pool,
    /// `ram LOGICAL MACHINE LENGTH` or `io LOGICAL MACHINE LENGTH`
    Grant(Kind),
    /// `entry LAYOUT INDEX DIGITS`
    Entry,
    /// `window LIOBN BASE PAGES`
    Window,
    /// `begin`
    Begin,
    /// A processor, and what it does, where the line says so.
    Run(Option<Verb>),
    /// `dump`
    Dump,
}

impl Form {
    /// Whether the line is of the configuration, and no run line.
    fn is_setting(&self) -> bool
        ensures { result ≡ is_setting_form self.now }
    {
        !matches!(self, Form::Run(_) | Form::Dump)
    }
}

/// Whether a word is this name.
pub fn is_name(word: &[u8], name: &str) -> bool
    ensures { result ≡ bytes_eq name.now word.now }
{
    name.as_bytes() == word
}

fn starts_with_digit(word: &[u8]) -> bool
    ensures { result ≡ begins_with_digit word.now }
{
    match word.first() {
        None => false,
        Some(first) => b'0' <= *first && *first <= b'9',
    }
}

/// The form that a first word names.
#[tactic(auto, unfolding(crate::specs::Forms::form_named))]
fn named_form(word: &[u8]) -> Option<Form>
    ensures form { result ≡ form_named word.now }
    ensures named { IfSome result IsNamedForm }
{
    if is_name(word, "order") {
        Some(Form::Order)
    } else if is_name(word, "limit") {
        Some(Form::Limit)
    } else if is_name(word, "cpus") {
        Some(Form::Cpus)
    } else if is_name(word, "pool") {
        Some(Form::Pool)
    } else if is_name(word, "ram") {
        Some(Form::Grant(Kind::Ram))
    } else if is_name(word, "io") {
        Some(Form::Grant(Kind::Io))
    } else if is_name(word, "entry") {
        Some(Form::Entry)
    } else if is_name(word, "window") {
        Some(Form::Window)
    } else if is_name(word, "begin") {
        Some(Form::Begin)
    } else if is_name(word, "dump") {
        Some(Form::Dump)
    } else {
        None
    }
}

/// The form of a line that begins with a processor, from the words after it.
#[tactic(auto, unfolding(crate::specs::Forms::run_form))]
fn processor_form(words: &[&[u8]]) -> Result<Form, Why>
    ensures form { result ≡ run_form (texts words.now) }
    ensures named { IfOk result IsNamedForm }
{
    match words.first() {
        None => Ok(Form::Run(None)),
        Some(word) => {
            let verb = named_verb(word).ok_or(Why::Word)?;
            Ok(Form::Run(Some(verb)))
        }
    }
}

/// The form of a line.
#[tactic(auto, unfolding(crate::specs::Forms::form_of))]
pub fn line_form(words: &[&[u8]]) -> Result<Form, Why>
    ensures form { result ≡ form_of (texts words.now) }
    ensures named { IfOk result IsNamedForm }
{
    let (first, rest) = words.split_first().ok_or(Why::Word)?;
    if starts_with_digit(first) {
        processor_form(rest)
    } else {
        named_form(first).ok_or(Why::Word)
    }
}

/// Whether the words are of a configuration line's form: `order`, `limit`, `cpus`, `pool`, `ram`,
/// `io`, `entry`, `window` or `begin`, whatever follows this first word.
pub fn is_setting(words: &[&[u8]]) -> bool
    ensures { result ≡ is_setting (texts words.now) }
{
    match line_form(words) {
        Ok(form) => form.is_setting(),
        Err(_) => false,
    }
}
