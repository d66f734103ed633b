//! The words of the command line and the commands that they ask for: `run`, `par`, `check`, `set`,
//! `image LAYOUT` and `drill SEED LINES`.
ghost use Rattle.std.specs.Prelude.{◌≡◌, ◌≤◌, IfSome};
ghost use Rattle.papr_edge.specs.Commands.{drill_of, image_of, reading_of, IsInRange};
ghost use Rattle.papr_edge.specs.Commands as words;

use table_image::Layout;
use trace_read::number;

/// The most lines that are generated.
const MOST_LINES: u64 = 100_000;

/// What the words after the program's name ask for.
#[derive(Clone, Copy, PartialEq, Eq, Debug)]
pub enum Command {
    /// Runs the trace that is read, one line after the other.
    Run,
    /// Runs the trace that is read, with a thread for each processor that has lines.
    Par,
    /// Judges whether the text after a trace is that of a good run of it.
    Check,
    /// Runs the set of partitions that is read, whose tables share one pool, one line after the
    /// other.
    Set,
    /// Runs the trace that is read, one line after the other, and writes the table at its end, in
    /// this layout.
    Image(Layout),
    /// Runs a generated trace: its seed, and how many lines are drawn, at most 100,000.
    Drill { seed: u64, lines: u32 },
}

/// A seed, and how many lines.
#[tactic(auto, unfolding(crate::specs::Commands::drill_of))]
fn drill(seed: &str, lines: &str) -> Option<Command>
    ensures value { result ≡ drill_of seed.now lines.now }
    ensures range { IfSome result IsInRange }
{
    let seed = number(seed.as_bytes())?;
    let lines = number(lines.as_bytes())?;
    if lines > MOST_LINES {
        return None;
    }
    Some(Command::Drill {
        seed,
        lines: lines as u32,
    })
}

/// An image in a layout: `old` or `new`.
#[tactic(auto, unfolding(crate::specs::Commands::image_of))]
fn image(layout: &str) -> Option<Command>
    ensures value { result ≡ image_of layout.now }
    ensures range { IfSome result IsInRange }
{
    match layout {
        "old" => Some(Command::Image(Layout::Old)),
        "new" => Some(Command::Image(Layout::New)),
        _ => None,
    }
}

/// The command of one word.
#[tactic(auto, unfolding(crate::specs::Commands::reading_of))]
fn reading(word: &str) -> Option<Command>
    ensures value { result ≡ reading_of word.now }
    ensures range { IfSome result IsInRange }
{
    match word {
        "run" => Some(Command::Run),
        "par" => Some(Command::Par),
        "check" => Some(Command::Check),
        "set" => Some(Command::Set),
        _ => None,
    }
}

/// The command that the words are; `None` where they are none of the listed forms.
#[tactic(auto, unfolding(crate::specs::Commands::command_of))]
pub fn command_of(list: &[String]) -> Option<Command>
    ensures value { result ≡ words.command_of list.now }
    ensures range { IfSome result IsInRange }
{
    match list {
        [word] => reading(word.as_str()),
        [word, layout] if word.as_str() == "image" => image(layout.as_str()),
        [word, seed, lines] if word.as_str() == "drill" => drill(seed.as_str(), lines.as_str()),
        _ => None,
    }
}
