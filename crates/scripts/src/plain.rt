// The commands other than publish.
ghost use Rattle.std.specs.Prelude.{◌≡◌, ◌∷◌, ℕ, List, drop, OnOk};
ghost use Rattle.scripts.specs.Arguments.{left};
ghost use Rattle.scripts.specs.Commands.{said_by, ended_by, subscription_of, monitoring_of, plain_of, write_of, results_of, create_subscription_of, modify_subscription_of, set_publishing_of, create_item_of, modify_item_of, set_mode_of};

use crate::arguments::Arguments;
use crate::command::Command;
use crate::expected::Expected;
use crate::verb::Verb;
use model::parameters::MonitoringParameters;
use script_numbers::number::number;
use script_words::text::is_text;
use subscriptions::parameters::SubscriptionParameters;
use values::check::RequestedFilter;
use values::value::Sample;

// MS K L M.
fn subscription(arguments: &mut Arguments) -> Result<SubscriptionParameters, Expected>
    ensures value { result ≡ subscription_of (left arguments.old) }
    ensures left { OnOk result (left arguments.new ≡ drop 4 (left arguments.old)) }
{
    Ok(SubscriptionParameters {
        milliseconds: arguments.signed()?,
        keep_alive: arguments.number()?,
        lifetime: arguments.number()?,
        limit: arguments.number()?,
    })
}

// TRIGGER TYPE D MS SIZE oldest|newest.
fn monitoring(
    arguments: &mut Arguments,
    client_handle: u32,
) -> Result<MonitoringParameters, Expected>
    ensures value { result ≡ monitoring_of (left arguments.old) client_handle arguments.old.other }
    ensures left { OnOk result (left arguments.new ≡ drop 6 (left arguments.old)) }
{
    let filter = RequestedFilter {
        trigger: arguments.number()?,
        deadband: arguments.number()?,
        deadband_value: arguments.double()?,
    };
    Ok(MonitoringParameters {
        client_handle,
        filter,
        sampling_interval: arguments.signed()?,
        queue_size: arguments.number()?,
        discard_oldest: arguments.policy()?,
    })
}

fn write(arguments: &mut Arguments) -> Result<Command, Expected>
    ensures { (verb : List ℕ) → ended_by (left arguments.new) result ≡ write_of (verb ∷ left arguments.old) arguments.old.other }
{
    Ok(Command::Write {
        node: arguments.number()?,
        code: arguments.number()?,
        sample: Sample {
            value: arguments.value()?,
            status: arguments.status()?,
            time: arguments.time()?,
        },
    })
}

fn results(arguments: &mut Arguments) -> Result<Command, Expected>
    ensures { (verb : List ℕ) → ended_by (left arguments.new) result ≡ results_of (verb ∷ left arguments.old) }
{
    let word = arguments.word();
    if is_text(word, b"match") {
        return Ok(Command::Results(None));
    }
    let places = number(word).ok_or(Expected::NumberOrMatch)?;
    Ok(Command::Results(Some(places)))
}

fn create_item(arguments: &mut Arguments) -> Result<Command, Expected>
    ensures { (verb : List ℕ) → ended_by (left arguments.new) result ≡ create_item_of (verb ∷ left arguments.old) arguments.old.other }
{
    let subscription = arguments.number()?;
    let node = arguments.number()?;
    let handle = arguments.number()?;
    let mode = arguments.number()?;
    Ok(Command::CreateItem {
        subscription,
        node,
        mode,
        parameters: monitoring(arguments, handle)?,
    })
}

fn modify_item(arguments: &mut Arguments) -> Result<Command, Expected>
    ensures { (verb : List ℕ) → ended_by (left arguments.new) result ≡ modify_item_of (verb ∷ left arguments.old) arguments.old.other }
{
    let subscription = arguments.number()?;
    let item = arguments.number()?;
    let handle = arguments.number()?;
    Ok(Command::ModifyItem {
        subscription,
        item,
        parameters: monitoring(arguments, handle)?,
    })
}

// The command whose words come next.
fn command(verb: Verb, arguments: &mut Arguments) -> Result<Command, Expected>
    ensures { (word : List ℕ) → ended_by (left arguments.new) result ≡ plain_of verb (word ∷ left arguments.old) arguments.old.other }
{
    match verb {
        Verb::New => Ok(Command::New(arguments.number()?)),
        Verb::Split => Ok(Command::Split(arguments.number()?)),
        Verb::Write => write(arguments),
        Verb::Certificate => Ok(Command::Certificate {
            node: arguments.number()?,
            day: arguments.number()?,
        }),
        Verb::Today => Ok(Command::Today(arguments.number()?)),
        Verb::Room => Ok(Command::Room(arguments.number()?)),
        Verb::Results => results(arguments),
        Verb::CreateSubscription => Ok(Command::CreateSubscription {
            parameters: subscription(arguments)?,
            enabled: arguments.switch()?,
        }),
        Verb::ModifySubscription => Ok(Command::ModifySubscription {
            id: arguments.number()?,
            parameters: subscription(arguments)?,
        }),
        Verb::DeleteSubscription => Ok(Command::DeleteSubscription(arguments.number()?)),
        Verb::SetPublishing => Ok(Command::SetPublishing {
            id: arguments.number()?,
            enabled: arguments.switch()?,
        }),
        Verb::CreateItem => create_item(arguments),
        Verb::ModifyItem => modify_item(arguments),
        Verb::DeleteItem => Ok(Command::DeleteItem {
            subscription: arguments.number()?,
            item: arguments.number()?,
        }),
        Verb::SetMode => Ok(Command::SetMode {
            subscription: arguments.number()?,
            item: arguments.number()?,
            mode: arguments.number()?,
        }),
        Verb::Republish => Ok(Command::Republish {
            subscription: arguments.number()?,
            number: arguments.number()?,
        }),
        Verb::Tick => Ok(Command::Tick(arguments.count()?)),
        Verb::Queued => Ok(Command::Queued),
        Verb::Kept => Ok(Command::Kept(arguments.number()?)),
        Verb::Waiting => Ok(Command::Waiting {
            subscription: arguments.number()?,
            item: arguments.number()?,
        }),
    }
}

// The command with this verb, whose words are the rest of the line.
pub fn plain(verb: Verb, arguments: &mut Arguments) -> Result<Command, Expected>
    ensures { (word : List ℕ) → said_by result ≡ plain_of verb (word ∷ left arguments.old) arguments.old.other }
{
    let command = command(verb, arguments)?;
    arguments.end()?;
    Ok(command)
}
