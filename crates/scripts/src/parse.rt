ghost use Rattle.std.specs.Prelude.{◌≡◌, ◌∷◌, ℕ, List, option_map};
ghost use Rattle.scripts.specs.Arguments.{left};
ghost use Rattle.scripts.specs.Commands.{said, publish_of, starting_with, line_of};
ghost use Rattle.scripts.specs.Errors.{Answers};

use crate::acknowledgements::acknowledgements;
use crate::arguments::Arguments;
use crate::command::Command;
use crate::error::ParseError;
use crate::plain::plain;
use crate::verb::Verb;
use script_words::text::{after, is_text};
use script_words::words::{Words, content, word};
use std::alloc::Global;
use std::str::from_utf8;

fn publish(arguments: &mut Arguments, heap: Global) -> Result<Command, ParseError>
    ensures { (verb : List ℕ) → Answers said result (publish_of (verb ∷ left arguments.old)) }
{
    let handle = arguments.number()?;
    Ok(Command::Publish {
        handle,
        acknowledgements: acknowledgements(arguments.words, heap)?,
    })
}

// What the standard library reads of a word as a Double.
fn library_double(word: &[u8]) -> Option<f64> {
    from_utf8(word).ok()?.parse::<f64>().ok()
}

// What the standard library reads of the line's Double, in the place where its command has one. Texts are compared one by
// one here too: a match on byte strings is proved byte by byte.
pub fn other_double(line: &[u8]) -> Option<f64> {
    let content = content(line);
    let first = word(content, 0);
    if is_text(first, b"write") {
        return library_double(after(word(content, 3), b"double:")?);
    }
    if is_text(first, b"create-item") {
        return library_double(word(content, 7));
    }
    library_double(word(content, 6))
}

// The command with this first word.
fn command(first: &[u8], arguments: &mut Arguments, heap: Global) -> Result<Command, ParseError>
    ensures { Answers said result (starting_with first.now (first.now ∷ left arguments.old) arguments.old.other) }
{
    if is_text(first, b"publish") {
        return publish(arguments, heap);
    }
    Ok(plain(Verb::try_from(first)?, arguments)?)
}

// What the line says, a command or nothing. `other` is what the standard library reads of the line's Double.
pub fn parse(line: &[u8], other: Option<f64>, heap: Global) -> Result<Option<Command>, ParseError>
    ensures { Answers (option_map said) result (line_of line.now other) }
{
    let mut arguments = Arguments {
        words: Words {
            rest: content(line),
        },
        other,
    };
    let first = arguments.word();
    if first.is_empty() {
        return Ok(None);
    }
    Ok(Some(command(first, &mut arguments, heap)?))
}
