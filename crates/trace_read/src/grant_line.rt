//! Memory grants read from `ram` and `io` lines, and the grant that a refusal names when it meets
//! the pool of page tables.
ghost use Rattle.std.specs.Prelude.{◌≡◌};
ghost use Rattle.trace_read.specs.Givens as line;
ghost use Rattle.trace_read.specs.Settings as setting;
ghost use Rattle.trace_read.specs.TextLines.{texts};

use crate::acts::number_at;
use crate::forms::{Form, line_form};
use crate::given::LineRefused;
use crate::stop::Stop;
use crate::why::Why;
use frame_grants::{Grant, Kind};

/// The grant that a line of `ram` or `io` names.
#[tactic(auto, unfolding(crate::specs::Settings::grant_named))]
pub fn grant_named(kind: Kind, words: &[&[u8]]) -> Result<Grant, Why>
    ensures { result ≡ setting.grant_named kind (texts words.now) }
{
    if words.len() != 4 {
        return Err(Why::Count);
    }
    let logical = number_at(words, 1)?;
    let machine = number_at(words, 2)?;
    let length = number_at(words, 3)?;
    Ok(Grant {
        logical,
        machine,
        length,
        kind,
    })
}

/// The grant that a line names, if it names one.
fn line_grant(words: &[&[u8]]) -> Option<Grant>
    ensures { result ≡ line.line_grant (texts words.now) }
{
    match line_form(words) {
        Ok(Form::Grant(kind)) => grant_named(kind, words).ok(),
        _ => None,
    }
}

/// The grant that a refusal for this reason names.
fn refused_grant(why: Why, words: &[&[u8]]) -> Option<Grant>
    ensures { result ≡ line.refused_grant why (texts words.now) }
{
    if why == Why::Tables {
        line_grant(words)
    } else {
        None
    }
}

/// What a line with these words gives if it stops for this: a refusal, or want of memory.
pub fn refused_by(stop: Stop, words: &[&[u8]]) -> LineRefused
    ensures { result ≡ line.refused_by stop (texts words.now) }
{
    match stop {
        Stop::Memory => LineRefused::Memory,
        Stop::Refused(why) => LineRefused::Refused {
            why,
            grant: refused_grant(why, words),
        },
    }
}
