ghost use Rattle.std.specs.Prelude.{◌≡◌};
ghost use Rattle.std.specs.Option.{ok_or};
ghost use Rattle.scripts.specs.Commands.{verb_of};
ghost use Rattle.scripts.specs.declared.expected.Expected.TheVariants.{Command};

use crate::expected::Expected;
use script_words::text::is_text;

// The first word of a command other than publish.
#[derive(Clone, Copy)]
pub enum Verb {
    New,
    Split,
    Write,
    Certificate,
    Today,
    Room,
    Results,
    CreateSubscription,
    ModifySubscription,
    DeleteSubscription,
    SetPublishing,
    CreateItem,
    ModifyItem,
    DeleteItem,
    SetMode,
    Republish,
    Tick,
    Queued,
    Kept,
    Waiting,
}

const VERBS: [(&[u8], Verb); 20] = [
    (b"new", Verb::New),
    (b"split", Verb::Split),
    (b"write", Verb::Write),
    (b"certificate", Verb::Certificate),
    (b"today", Verb::Today),
    (b"room", Verb::Room),
    (b"results", Verb::Results),
    (b"create-subscription", Verb::CreateSubscription),
    (b"modify-subscription", Verb::ModifySubscription),
    (b"delete-subscription", Verb::DeleteSubscription),
    (b"set-publishing", Verb::SetPublishing),
    (b"create-item", Verb::CreateItem),
    (b"modify-item", Verb::ModifyItem),
    (b"delete-item", Verb::DeleteItem),
    (b"set-mode", Verb::SetMode),
    (b"republish", Verb::Republish),
    (b"tick", Verb::Tick),
    (b"queued", Verb::Queued),
    (b"kept", Verb::Kept),
    (b"waiting", Verb::Waiting),
];

impl<'a> TryFrom<&'a [u8]> for Verb {
    type Error = Expected;

    ghost try_from_gives = { λ word r. r ≡ ok_or (verb_of word.now) Command };

    fn try_from(word: &'a [u8]) -> Result<Verb, Expected> {
        VERBS
            .iter()
            .find(|(text, _)| is_text(word, text))
            .map(|(_, verb)| *verb)
            .ok_or(Expected::Command)
    }
}
