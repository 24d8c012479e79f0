ghost use Rattle.std.specs.Prelude.{◌≡◌, ◌≤◌, length};
ghost use Rattle.numbers.specs.Items.{items as listed};
ghost use Rattle.item_table.specs.Turn.{over};
ghost use Rattle.model.specs.State.{state_of};
ghost use Rattle.model.specs.Tick.{tick, passed, leaves};

use crate::cycle::pass_slot;
use crate::responses::Responses;
use answers::fault::ServiceFault;
use messages::response::Response;
use model::state::EngineState;
use sources::source::Source;

// The pass over the subscriptions, by rising id; how many responses are written.
fn pass_all(state: &mut EngineState, responses: &mut [Response]) -> usize
    requires room { length (listed state.old.late) ≤ 4 }
    requires space { 8 ≤ length responses.old }
    ensures after { state_of state.new ≡ leaves (state_of state.old) (passed (state_of state.old)) }
    ensures value { result ≡ length (passed (state_of state.old)).responses }
    ensures responses { responses.new ≡ over (passed (state_of state.old)).responses responses.old }
{
    let mut responses = Responses::new(responses);
    // By index: a pass writes the state, and the table of subscriptions is a part of it.
    for i in 0..state.subscriptions.len() {
        pass_slot(state, i, &mut responses);
    }
    responses.written
}

// One tick: the sampling pass over the items, then the pass over the subscriptions.
pub fn tick<S: Source>(
    state: &mut EngineState,
    source: &S,
    responses: &mut [Response],
) -> Result<usize, ServiceFault>
    requires { length (listed state.old.late) ≤ 4 }
    ensures after { state_of state.new ≡ (tick (S.Source.stands source.now) (state_of state.old) (length responses.old)).state }
    ensures value { result ≡ (tick (S.Source.stands source.now) (state_of state.old) (length responses.old)).answer }
    ensures responses { responses.new ≡ over (tick (S.Source.stands source.now) (state_of state.old) (length responses.old)).responses responses.old }
{
    // As in the two other calls that write responses: a checked list would be a type that is taken apart at once.
    if responses.len() < 8 {
        return Err(ServiceFault::ListTooShort);
    }
    state.items.tick(source);
    Ok(pass_all(state, responses))
}
