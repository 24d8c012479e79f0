ghost use Rattle.std.specs.Prelude.{◌≡◌, ◌≤◌, length, Some};
ghost use Rattle.fifo.specs.Lists.{first};
ghost use Rattle.numbers.specs.Items.{items as listed};
ghost use Rattle.item_table.specs.Turn.{over};
ghost use Rattle.subscriptions.specs.Facts.{live};
ghost use Rattle.model.specs.State.{state_of};
ghost use Rattle.model.specs.Publish.{answers_by, answers_first, queues, requested};

use messages::response::Response;
use model::state::EngineState;
use sending::message::send;
use subscriptions::subscription::Subscription;

// A late subscription answers: an ended one by its status change, a live one by a message. With more it joins the end of the
// late list again.
fn answer(
    state: &mut EngineState,
    handle: u32,
    mut subscription: Subscription,
    responses: &mut [Response],
)
    requires space { 8 ≤ length responses.old }
    ensures after { state_of state.new ≡ (answers_by (live subscription.figures.phase) (state_of state.old) handle subscription.figures).state }
    ensures responses { responses.new ≡ over (answers_by (live subscription.figures.phase) (state_of state.old) handle subscription.figures).responses responses.old }
{
    let _ = state.late.pop();
    let id = subscription.figures.id;
    if !subscription.is_live() {
        responses[0] = Response::status_change(handle, id, subscription.figures.number);
        state.subscriptions.remove(id);
        return;
    }
    let response = send(&mut state.items, &mut state.kept, &mut subscription, handle);
    responses[0] = response;
    if response.more {
        subscription.join_late_list();
        state.late.push(subscription.figures.id);
    }
    state.subscriptions.replace(subscription);
}

// Queues the request last; where eight are queued, the oldest is answered first.
fn queue(state: &mut EngineState, handle: u32, responses: &mut [Response]) -> usize
    requires space { 8 ≤ length responses.old }
    ensures after { state_of state.new ≡ (queues (state_of state.old) handle).state }
    ensures value { result ≡ length (queues (state_of state.old) handle).responses }
    ensures responses { responses.new ≡ over (queues (state_of state.old) handle).responses responses.old }
{
    if state.requests.is_full() {
        if let Some(oldest) = state.requests.pop() {
            responses[0] = Response::too_many_requests(oldest);
            state.requests.push(handle);
            return 1;
        }
    }
    state.requests.push(handle);
    0
}

// A request: it is refused where there is no subscription, answered by the first late one, or queued. How many responses are
// written: an `Option` of the response would be copied once more.
pub(crate) fn take_request(
    state: &mut EngineState,
    handle: u32,
    responses: &mut [Response],
) -> usize
    requires space { 8 ≤ length responses.old }
    ensures after { state_of state.new ≡ (requested (state_of state.old) handle).state }
    ensures value { result ≡ length (requested (state_of state.old) handle).responses }
    ensures responses { responses.new ≡ over (requested (state_of state.old) handle).responses responses.old }
{
    if state.subscriptions.is_empty() {
        responses[0] = Response::no_subscription(handle);
        return 1;
    }
    let Some(id) = state.late.front() else {
        return queue(state, handle, responses);
    };
    let Some(subscription) = state.subscriptions.lookup(id) else {
        return 0;
    };
    answer(state, handle, subscription, responses);
    1
}
