ghost use Rattle.std.specs.Prelude.{◌≡◌, ◌≤◌, [], ◌∷◌, length};
ghost use Rattle.subscription_table.specs.Slots.{slots};
ghost use Rattle.item_table.specs.Turn.{over};
ghost use Rattle.retransmission.specs.Rows.{rows};
ghost use Rattle.model.specs.State.{state_of};
ghost use Rattle.model.specs.Publish.{acknowledged, all_acknowledged, after_acknowledging};

use answers::acknowledgement::{Acknowledgement, AcknowledgementResult};
use model::live::find_live;
use model::state::EngineState;

// Drops the kept message that a client has received, and tells whether there was one.
fn acknowledge(state: &mut EngineState, acknowledgement: Acknowledgement) -> AcknowledgementResult
    ensures after { state_of state.new ≡ after_acknowledging (state_of state.old) (all_acknowledged (acknowledgement ∷ []) (slots state.old.subscriptions) (rows state.old.kept)) }
    ensures value { result ≡ (acknowledged acknowledgement (slots state.old.subscriptions) (rows state.old.kept)).result }
{
    let Some(subscription) = find_live(state, acknowledgement.subscription) else {
        return AcknowledgementResult::SubscriptionIdInvalid;
    };
    state.reset_idle(subscription);
    let known = state
        .kept
        .acknowledge(acknowledgement.subscription, acknowledgement.number);
    if known {
        AcknowledgementResult::Good
    } else {
        AcknowledgementResult::SequenceNumberUnknown
    }
}

// Takes the acknowledgements in order, and writes what each comes to.
pub fn acknowledge_all(
    state: &mut EngineState,
    acknowledgements: &[Acknowledgement],
    results: &mut [AcknowledgementResult],
)
    requires { length acknowledgements.now ≤ length results.old }
    ensures after { state_of state.new ≡ after_acknowledging (state_of state.old) (all_acknowledged acknowledgements.now (slots state.old.subscriptions) (rows state.old.kept)) }
    ensures results { results.new ≡ over (all_acknowledged acknowledgements.now (slots state.old.subscriptions) (rows state.old.kept)).results results.old }
{
    // Not zipped with the results: a proof knows nothing of what is written through `zip` over `iter_mut`.
    for (i, acknowledgement) in acknowledgements.iter().enumerate() {
        results[i] = acknowledge(state, *acknowledgement);
    }
}
