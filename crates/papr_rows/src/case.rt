//! A case: the program's words and input, how they are read and the output is taken, and the status
//! and the output that must result.

use crate::copies::push_copies;
use crate::miss::Miss;
use std::alloc::{AllocError, Global};

/// How many bytes a call of a source gives or one of a sink takes at most, and the call that fails,
/// numbered from 1; none where this is 0.
#[derive(Clone, Copy)]
pub struct Calls {
    /// The bytes of one call at most.
    pub piece: usize,
    /// The call that fails, numbered from 1; 0 for none.
    pub fault: usize,
}

/// The words of the program and what it is given, and what must result.
#[derive(Drop)]
pub struct Case {
    /// The words of the program's command line.
    pub words: Vec<String>,
    /// How the input is read.
    pub source: Calls,
    /// How the output is taken.
    pub sink: Calls,
    /// The bytes that the program reads.
    pub input: Vec<u8>,
    /// The exit status that it must end with.
    pub status: usize,
    /// The bytes that it must write.
    pub output: Vec<u8>,
    // What copies are made of.
    pattern: String,
}

/// The calls of a case that says nothing of them.
const CALLS: Calls = Calls {
    piece: 4096,
    fault: 0,
};

impl Case {
    /// A case of which nothing is said so far.
    pub fn new(alloc: Global) -> Self {
        Case {
            words: Vec::new(alloc),
            source: CALLS,
            sink: CALLS,
            input: Vec::new(alloc),
            status: 0,
            output: Vec::new(alloc),
            pattern: String::new(alloc),
        }
    }

    /// Takes a command that says something of the case.
    pub fn take(&mut self, alloc: Global, command: &str, said: &str) -> Result<(), Miss> {
        match command {
            "words" => self.words.clear(),
            "input" => self.input.clear(),
            "output" => self.output.clear(),
            "pattern" => self.pattern.clear(),
            "word" => push_word(alloc, &mut self.words, said)?,
            "<" => push_line(&mut self.input, said)?,
            ">" => push_line(&mut self.output, said)?,
            "<." => self.input.extend_from_slice(said.as_bytes())?,
            ">." => self.output.extend_from_slice(said.as_bytes())?,
            "*." => self.pattern.push_str(said)?,
            "*" => push_pattern(&mut self.pattern, said)?,
            _ => {
                let number = said.parse::<usize>().map_err(|_| Miss::Unknown)?;
                self.take_number(command, number)?;
            }
        }
        Ok(())
    }

    // Takes a command of a number.
    fn take_number(&mut self, command: &str, number: usize) -> Result<(), Miss> {
        match command {
            "status" => self.status = number,
            "read-piece" => self.source.piece = number,
            "read-fault" => self.source.fault = number,
            "write-piece" => self.sink.piece = number,
            "write-fault" => self.sink.fault = number,
            "<b" => push_byte(&mut self.input, number)?,
            "<*" => push_copies(&mut self.input, self.pattern.as_str(), number)?,
            ">*" => push_copies(&mut self.output, self.pattern.as_str(), number)?,
            _ => return Err(Miss::Unknown),
        }
        Ok(())
    }
}

fn push_word(alloc: Global, words: &mut Vec<String>, word: &str) -> Result<(), AllocError> {
    words.push(String::from_str(alloc, word)?)?;
    Ok(())
}

fn push_line(out: &mut Vec<u8>, line: &str) -> Result<(), AllocError> {
    out.extend_from_slice(line.as_bytes())?;
    out.push(b'\n')?;
    Ok(())
}

fn push_byte(out: &mut Vec<u8>, number: usize) -> Result<(), Miss> {
    let byte = u8::try_from(number).map_err(|_| Miss::Unknown)?;
    out.push(byte).map_err(|_| Miss::Memory)
}

fn push_pattern(out: &mut String, line: &str) -> Result<(), AllocError> {
    out.push_str(line)?;
    out.push('\n')
}
