ghost use Rattle.std.specs.Prelude.{◌≡◌, ◌≤◌, [], map, length};
ghost use Rattle.numbers.specs.Items.{items};
ghost use Rattle.item_table.specs.Turn.{over};
ghost use Rattle.messages.specs.declared.response.ResponseKind.TheVariants.{NoSubscription};
ghost use Rattle.messages.specs.Responses.{refusing};
ghost use Rattle.model.specs.State.{state_of};
ghost use Rattle.model.specs.Subscribing.{delete_subscription};

use answers::fault::ServiceFault;
use messages::response::Response;
use model::state::EngineState;
use numbers::numbers::Numbers;

// Answers every queued request, oldest first: no subscription is left. Returns how many there were.
fn answer_all(requests: &mut Numbers, responses: &mut [Response]) -> usize
    requires { 8 ≤ length responses.old }
    ensures after { items requests.new ≡ [] }
    ensures value { result ≡ length (map (refusing NoSubscription) (items requests.old)) }
    ensures responses { responses.new ≡ over (map (refusing NoSubscription) (items requests.old)) responses.old }
{
    let handles = requests.as_slice();
    // Not zipped with the responses: a proof knows nothing of what is written through `zip` over `iter_mut`.
    for (i, handle) in handles.iter().enumerate() {
        responses[i] = Response::no_subscription(*handle);
    }
    let count = handles.len();
    requests.clear();
    count
}

// The subscription goes with its items and its kept messages. Where none is left, every queued
// request is answered. Returns the number of responses.
pub fn delete_subscription(
    state: &mut EngineState,
    id: u32,
    responses: &mut [Response],
) -> Result<usize, ServiceFault>
    ensures after { state_of state.new ≡ (delete_subscription (state_of state.old) id (length responses.old)).state }
    ensures value { result ≡ (delete_subscription (state_of state.old) id (length responses.old)).answer }
    ensures responses { responses.new ≡ over (delete_subscription (state_of state.old) id (length responses.old)).responses responses.old }
{
    if responses.len() < 8 {
        return Err(ServiceFault::ListTooShort);
    }
    state.live_subscription(id)?;
    state.subscriptions.remove(id);
    state.items.remove_all(id);
    state.kept.close(id);
    let _ = state.late.remove(id);
    if state.subscriptions.is_empty() {
        return Ok(answer_all(&mut state.requests, responses));
    }
    Ok(0)
}
