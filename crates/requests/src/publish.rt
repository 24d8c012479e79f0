ghost use Rattle.std.specs.Prelude.{◌≡◌, length};
ghost use Rattle.item_table.specs.Turn.{over};
ghost use Rattle.model.specs.State.{state_of};
ghost use Rattle.model.specs.Publish.{publish};

use crate::request::take_request;
use answers::acknowledgement::{Acknowledgement, AcknowledgementResult};
use answers::fault::ServiceFault;
use message_calls::acknowledge::acknowledge_all;
use messages::response::Response;
use model::state::EngineState;

// Publish: first the acknowledgements, in order, then the request. How many responses are written.
pub fn publish(
    state: &mut EngineState,
    handle: u32,
    acknowledgements: &[Acknowledgement],
    results: &mut [AcknowledgementResult],
    responses: &mut [Response],
) -> Result<usize, ServiceFault>
    ensures after { state_of state.new ≡ (publish (state_of state.old) handle acknowledgements.now (length responses.old) (length results.old)).state }
    ensures value { result ≡ (publish (state_of state.old) handle acknowledgements.now (length responses.old) (length results.old)).answer }
    ensures results { results.new ≡ over (publish (state_of state.old) handle acknowledgements.now (length responses.old) (length results.old)).results results.old }
    ensures responses { responses.new ≡ over (publish (state_of state.old) handle acknowledgements.now (length responses.old) (length results.old)).responses responses.old }
{
    if responses.len() < 8 {
        return Err(ServiceFault::ListTooShort);
    }
    if results.len() < acknowledgements.len() {
        return Err(ServiceFault::ListTooShort);
    }
    if acknowledgements.len() > 8 {
        return Err(ServiceFault::TooManyOperations);
    }
    acknowledge_all(state, acknowledgements, results);
    Ok(take_request(state, handle, responses))
}
