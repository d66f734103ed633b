//! The four kinds of text that a command can make of its input, each with its exit status.
ghost use Rattle.std.specs.Prelude.{◌≡◌};
ghost use Rattle.papr_edge.specs.Answer.{answer_status, answer_text};

use crate::status::Status;
use table_image::ImageText;

/// What is made of an input: a text to be written, and how it ends the call.
#[derive(Drop)]
pub enum Answer {
    /// The text of a run, or a good verdict: the command is done.
    Done(String),
    /// The image of a table: the command is done.
    Image(ImageText),
    /// The verdict that the text is not that of a good run.
    CheckNo(String),
    /// The input was taken, and the text says why no more is made of it.
    Refused(String),
}

impl Answer {
    /// The text.
    pub fn as_bytes(&self) -> &[u8]
        ensures { result.now ≡ answer_text self.now }
    {
        match self {
            Answer::Done(text) => text.as_bytes(),
            Answer::Image(image) => image.as_bytes(),
            Answer::CheckNo(text) => text.as_bytes(),
            Answer::Refused(text) => text.as_bytes(),
        }
    }

    /// The status of a call that writes the text whole.
    pub fn status(&self) -> Status
        ensures { result ≡ answer_status self.now }
    {
        match self {
            Answer::Done(_) => Status::Done,
            Answer::Image(_) => Status::Done,
            Answer::CheckNo(_) => Status::CheckNo,
            Answer::Refused(_) => Status::Refused,
        }
    }
}
