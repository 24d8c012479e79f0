ghost use Rattle.std.specs.Prelude.{◌≡◌, ◌==◌, ◌<◌, length, position, IfSome, vec_items};
ghost use Rattle.script_words.specs.Words.{words_in};
ghost use Rattle.scripts.specs.Arguments.{acknowledgement_of, acknowledgements_of};
ghost use Rattle.scripts.specs.Errors.{Answers};

use crate::error::ParseError;
use crate::expected::Expected;
use answers::acknowledgement::Acknowledgement;
use script_numbers::number::number;
use script_words::words::Words;
use std::alloc::Global;

// The place of the first colon.
fn colon(word: &[u8]) -> Option<usize>
    ensures place { result ≡ position (λ b. b == 58) word.now }
    ensures within { IfSome result (λ i. i < length word.now) }
{
    word.iter().position(|byte| *byte == b':')
}

// SUB:NUMBER.
pub fn acknowledgement(word: &[u8]) -> Option<Acknowledgement>
    ensures { result ≡ acknowledgement_of word.now }
{
    let colon = colon(word)?;
    Some(Acknowledgement {
        subscription: number(&word[..colon])?,
        number: number(&word[colon + 1..])?,
    })
}

// Each word is an acknowledgement.
pub fn acknowledgements(words: Words, heap: Global) -> Result<Vec<Acknowledgement>, ParseError>
    ensures { Answers vec_items result (acknowledgements_of (words_in words.entry.rest.now)) }
{
    let mut read = Vec::new(heap);
    for word in words {
        read.push(acknowledgement(word).ok_or(Expected::Acknowledgement)?)?;
    }
    Ok(read)
}
