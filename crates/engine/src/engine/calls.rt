ghost use Rattle.std.specs.Prelude.{◌≡◌, length};
ghost use Rattle.numbers.specs.Items.{items};
ghost use Rattle.items.specs.Queue.{waiting_of};
ghost use Rattle.item_table.specs.Turn.{over};
ghost use Rattle.model.specs.State.{new_state};
ghost use Rattle.model.specs.Subscribing.{create_subscription, modify_subscription, set_publishing_mode, delete_subscription};
ghost use Rattle.model.specs.Monitoring.{create_item, modify_item, delete_item, set_monitoring_mode};
ghost use Rattle.model.specs.Publish.{publish};
ghost use Rattle.model.specs.Republish.{republish, filled, accepted};
ghost use Rattle.model.specs.Tick.{tick};
ghost use Rattle.model.specs.Queries.{shown_by, numbers_kept, samples_waiting};
ghost use Rattle.engine.specs.State.{state_in};

use crate::engine::Engine;
use answers::acknowledgement::{Acknowledgement, AcknowledgementResult};
use answers::fault::ServiceFault;
use item_calls::create_item::create_item;
use item_calls::delete_item::delete_item;
use item_calls::modify_item::modify_item;
use item_calls::set_monitoring_mode::set_monitoring_mode;
use item_calls::waiting_samples::waiting_samples;
use items::waiting::WaitingQueue;
use message_calls::kept_numbers::kept_numbers;
use message_calls::republish::republish;
use messages::message::Message;
use messages::response::Response;
use model::parameters::MonitoringParameters;
use model::revised::{CreatedItem, CreatedSubscription, RevisedItem};
use model::state::EngineState;
use numbers::numbers::Numbers;
use publishing::tick::tick;
use requests::publish::publish;
use sources::source::Source;
use subscription_calls::create_subscription::create_subscription;
use subscription_calls::delete_subscription::delete_subscription;
use subscription_calls::modify_subscription::modify_subscription;
use subscription_calls::set_publishing_mode::set_publishing_mode;
use subscriptions::parameters::{RevisedSubscription, SubscriptionParameters};

impl Engine {
    // A new engine, whose first id is `first_id`, or 1 where that is 0.
    pub fn new(first_id: u32) -> Self
        ensures { state_in result ≡ new_state first_id }
    {
        Engine {
            state: EngineState::new(first_id),
        }
    }

    // A new subscription: its id and its revised parameters.
    pub fn create_subscription(
        &mut self,
        parameters: SubscriptionParameters,
        enabled: bool,
    ) -> Result<CreatedSubscription, ServiceFault>
        ensures after { state_in self.new ≡ (create_subscription (state_in self.old) parameters enabled).state }
        ensures value { result ≡ (create_subscription (state_in self.old) parameters enabled).answer }
    {
        create_subscription(&mut self.state, parameters, enabled)
    }

    // Other parameters for a subscription, revised.
    pub fn modify_subscription(
        &mut self,
        id: u32,
        parameters: SubscriptionParameters,
    ) -> Result<RevisedSubscription, ServiceFault>
        ensures after { state_in self.new ≡ (modify_subscription (state_in self.old) id parameters).state }
        ensures value { result ≡ (modify_subscription (state_in self.old) id parameters).answer }
    {
        modify_subscription(&mut self.state, id, parameters)
    }

    // Publishing is enabled or disabled.
    pub fn set_publishing_mode(&mut self, id: u32, enabled: bool) -> Result<(), ServiceFault>
        ensures after { state_in self.new ≡ (set_publishing_mode (state_in self.old) id enabled).state }
        ensures value { result ≡ (set_publishing_mode (state_in self.old) id enabled).answer }
    {
        set_publishing_mode(&mut self.state, id, enabled)
    }

    // The subscription goes with its items and its kept messages. Where none is left, every queued request is answered; how
    // many responses are written.
    pub fn delete_subscription(
        &mut self,
        id: u32,
        responses: &mut [Response],
    ) -> Result<usize, ServiceFault>
        ensures after { state_in self.new ≡ (delete_subscription (state_in self.old) id (length responses.old)).state }
        ensures value { result ≡ (delete_subscription (state_in self.old) id (length responses.old)).answer }
        ensures responses { responses.new ≡ over (delete_subscription (state_in self.old) id (length responses.old)).responses responses.old }
    {
        delete_subscription(&mut self.state, id, responses)
    }

    // A new item on a node that the source knows: its id and its revised parameters. The mode may be any number, since a refusal
    // is what an unknown one is answered with.
    pub fn create_item<S: Source>(
        &mut self,
        source: &S,
        subscription: u32,
        node: u32,
        mode: u32,
        parameters: &MonitoringParameters,
    ) -> Result<CreatedItem, ServiceFault>
        ensures after { state_in self.new ≡ (create_item (S.Source.stands source.now) (state_in self.old) subscription node mode parameters.now).state }
        ensures value { result ≡ (create_item (S.Source.stands source.now) (state_in self.old) subscription node mode parameters.now).answer }
    {
        create_item(
            &mut self.state,
            source,
            subscription,
            node,
            mode,
            parameters,
        )
    }

    // Other settings for an item, which starts again: its revised parameters.
    pub fn modify_item(
        &mut self,
        subscription: u32,
        item: u32,
        parameters: &MonitoringParameters,
    ) -> Result<RevisedItem, ServiceFault>
        ensures after { state_in self.new ≡ (modify_item (state_in self.old) subscription item parameters.now).state }
        ensures value { result ≡ (modify_item (state_in self.old) subscription item parameters.now).answer }
    {
        modify_item(&mut self.state, subscription, item, parameters)
    }

    pub fn delete_item(&mut self, subscription: u32, item: u32) -> Result<(), ServiceFault>
        ensures after { state_in self.new ≡ (delete_item (state_in self.old) subscription item).state }
        ensures value { result ≡ (delete_item (state_in self.old) subscription item).answer }
    {
        delete_item(&mut self.state, subscription, item)
    }

    // Disabled 0, sampling 1, reporting 2; any number may be asked for, as in `create_item`.
    pub fn set_monitoring_mode(
        &mut self,
        subscription: u32,
        item: u32,
        mode: u32,
    ) -> Result<(), ServiceFault>
        ensures after { state_in self.new ≡ (set_monitoring_mode (state_in self.old) subscription item mode).state }
        ensures value { result ≡ (set_monitoring_mode (state_in self.old) subscription item mode).answer }
    {
        set_monitoring_mode(&mut self.state, subscription, item, mode)
    }

    // The acknowledgements, in order, then the request; how many responses are written.
    pub fn publish(
        &mut self,
        handle: u32,
        acknowledgements: &[Acknowledgement],
        results: &mut [AcknowledgementResult],
        responses: &mut [Response],
    ) -> Result<usize, ServiceFault>
        ensures after { state_in self.new ≡ (publish (state_in self.old) handle acknowledgements.now (length responses.old) (length results.old)).state }
        ensures value { result ≡ (publish (state_in self.old) handle acknowledgements.now (length responses.old) (length results.old)).answer }
        ensures results { results.new ≡ over (publish (state_in self.old) handle acknowledgements.now (length responses.old) (length results.old)).results results.old }
        ensures responses { responses.new ≡ over (publish (state_in self.old) handle acknowledgements.now (length responses.old) (length results.old)).responses responses.old }
    {
        publish(
            &mut self.state,
            handle,
            acknowledgements,
            results,
            responses,
        )
    }

    // Fills `message` with a kept message, as it was sent.
    pub fn republish(
        &mut self,
        subscription: u32,
        number: u32,
        message: &mut Message,
    ) -> Result<(), ServiceFault>
        ensures after { state_in self.new ≡ (republish (state_in self.old) subscription number).state }
        ensures value { result ≡ accepted (republish (state_in self.old) subscription number).answer }
        ensures filled { message.new ≡ filled (republish (state_in self.old) subscription number).answer message.old }
    {
        republish(&mut self.state, subscription, number, message)
    }

    // One tick of 50 ms: the items are sampled, then the publishing cycles run; how many responses are written.
    pub fn tick<S: Source>(
        &mut self,
        source: &S,
        responses: &mut [Response],
    ) -> Result<usize, ServiceFault>
        ensures after { state_in self.new ≡ (tick (S.Source.stands source.now) (state_in self.old) (length responses.old)).state }
        ensures value { result ≡ (tick (S.Source.stands source.now) (state_in self.old) (length responses.old)).answer }
        ensures responses { responses.new ≡ over (tick (S.Source.stands source.now) (state_in self.old) (length responses.old)).responses responses.old }
    {
        tick(&mut self.state, source, responses)
    }

    // The handles of the queued requests, oldest first.
    pub fn queued_handles(&self) -> &[u32]
        ensures { result.now ≡ (state_in self.now).requests }
    {
        self.state.requests.as_slice()
    }

    // The numbers of the messages kept of a live subscription, oldest first.
    pub fn kept_numbers(&self, subscription: u32) -> Result<Numbers, ServiceFault>
        ensures { shown_by items result ≡ numbers_kept (state_in self.now) subscription }
    {
        kept_numbers(&self.state, subscription)
    }

    // The waiting samples of an item, oldest first.
    pub fn waiting_samples(
        &self,
        subscription: u32,
        item: u32,
    ) -> Result<WaitingQueue, ServiceFault>
        ensures { shown_by waiting_of result ≡ samples_waiting (state_in self.now) subscription item }
    {
        waiting_samples(&self.state, subscription, item)
    }
}
