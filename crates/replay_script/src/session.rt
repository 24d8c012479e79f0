// The engine and the sources that a script works on.
use crate::answer::Answer;
use crate::error::CallError;
use answers::acknowledgement::{Acknowledgement, AcknowledgementResult};
use answers::fault::ServiceFault;
use engine::engine::Engine;
use messages::message::Message;
use messages::response::Response;
use scripts::command::Command;
use sources::certificates::Certificates;
use sources::image::ProcessImage;
use sources::joined::Joined;
use std::alloc::Global;
use std::io;

// The process image below the split, the certificates from it on. `results` is the length of the result list where it is not
// that of the acknowledgements.
#[derive(Clone, Copy)]
pub(crate) struct Session {
    engine: Engine,
    plant: Joined<ProcessImage, Certificates>,
    room: u32,
    results: Option<u32>,
}

// A list of the length that the script asks for.
fn list_of<T: Copy>(heap: Global, blank: T, places: usize) -> Result<Vec<T>, CallError> {
    vec![in heap; blank; places].map_err(|_| CallError::NoMemory(places))
}

fn print(rt: &HostRuntime, answer: Result<Answer, CallError>) -> io::Result<()> {
    match answer {
        Ok(answer) => rt.println(answer),
        Err(error) => rt.println(error),
    }
}

impl Session {
    pub(crate) fn new() -> Self {
        Session {
            engine: Engine::new(1),
            plant: Joined {
                first: ProcessImage::new(),
                second: Certificates::new(),
                split: 1000,
            },
            room: 8,
            results: None,
        }
    }

    fn response_list(&self, heap: Global) -> Result<Vec<Response>, CallError> {
        list_of(heap, Response::no_subscription(0), self.room as usize)
    }

    // A call that writes responses, and nothing beside them.
    fn respond<F: FnOnce(&mut Session, &mut [Response]) -> Result<usize, ServiceFault>>(
        &mut self,
        heap: Global,
        call: F,
    ) -> Result<Answer, CallError>
        requires { F.IsAlwaysCallable call }
    {
        let mut responses = self.response_list(heap)?;
        let count = call(self, &mut responses)?;
        Ok(Answer::responses(Vec::new(heap), responses, count))
    }

    fn tick(&mut self, heap: Global) -> Result<Answer, CallError> {
        self.respond(heap, |session, responses| {
            session.engine.tick(&session.plant, responses)
        })
    }

    fn delete_subscription(&mut self, heap: Global, id: u32) -> Result<Answer, CallError> {
        self.respond(heap, |session, responses| {
            session.engine.delete_subscription(id, responses)
        })
    }

    fn publish(
        &mut self,
        heap: Global,
        handle: u32,
        acknowledgements: &[Acknowledgement],
    ) -> Result<Answer, CallError> {
        let places = self
            .results
            .map_or(acknowledgements.len(), |places| places as usize);
        let mut responses = self.response_list(heap)?;
        let mut acknowledged = list_of(heap, AcknowledgementResult::Good, places)?;
        let count = self.engine.publish(
            handle,
            acknowledgements,
            &mut acknowledged,
            &mut responses,
        )?;
        acknowledged.truncate(acknowledgements.len());
        Ok(Answer::responses(acknowledged, responses, count))
    }

    fn republish(&mut self, subscription: u32, number: u32) -> Result<Answer, CallError> {
        let mut message = Message::default();
        self.engine.republish(subscription, number, &mut message)?;
        Ok(Answer::Message(message))
    }

    // Out of line: every other command would pay for the places of a new engine too.
    #[inline(never)]
    fn begin(&mut self, first_id: u32) {
        self.engine = Engine::new(first_id);
    }

    // Makes a command's call. Out of line, so that each tick of many does not pay for the locals of all calls.
    #[inline(never)]
    fn call(&mut self, heap: Global, command: &Command) -> Result<Answer, CallError> {
        match command {
            Command::New(first_id) => self.begin(*first_id),
            Command::Split(split) => self.plant.split = *split,
            Command::Room(room) => self.room = *room,
            Command::Results(places) => self.results = *places,
            Command::Write { node, code, sample } => {
                self.plant.first.write(*node, *code, *sample)?;
            }
            Command::Certificate { node, day } => self.plant.second.enter(*node, *day)?,
            Command::Today(day) => self.plant.second.set_today(*day)?,
            Command::SetPublishing { id, enabled } => {
                self.engine.set_publishing_mode(*id, *enabled)?;
            }
            Command::DeleteItem { subscription, item } => {
                self.engine.delete_item(*subscription, *item)?;
            }
            Command::SetMode {
                subscription,
                item,
                mode,
            } => self
                .engine
                .set_monitoring_mode(*subscription, *item, *mode)?,
            Command::CreateSubscription {
                parameters,
                enabled,
            } => {
                let created = self.engine.create_subscription(*parameters, *enabled)?;
                return Ok(Answer::CreatedSubscription(created));
            }
            Command::ModifySubscription { id, parameters } => {
                let revised = self.engine.modify_subscription(*id, *parameters)?;
                return Ok(Answer::RevisedSubscription(revised));
            }
            Command::DeleteSubscription(id) => return self.delete_subscription(heap, *id),
            Command::CreateItem {
                subscription,
                node,
                mode,
                parameters,
            } => {
                let created = self
                    .engine
                    .create_item(&self.plant, *subscription, *node, *mode, parameters)?;
                return Ok(Answer::CreatedItem(created));
            }
            Command::ModifyItem {
                subscription,
                item,
                parameters,
            } => {
                let revised = self.engine.modify_item(*subscription, *item, parameters)?;
                return Ok(Answer::RevisedItem(revised));
            }
            Command::Publish {
                handle,
                acknowledgements,
            } => return self.publish(heap, *handle, acknowledgements.as_slice()),
            Command::Republish {
                subscription,
                number,
            } => return self.republish(*subscription, *number),
            Command::Tick(_) => return self.tick(heap),
            Command::Queued => return Ok(Answer::Queued(self.engine.queued_handles())),
            Command::Kept(subscription) => {
                return Ok(Answer::Kept(self.engine.kept_numbers(*subscription)?));
            }
            Command::Waiting { subscription, item } => {
                let queue = self.engine.waiting_samples(*subscription, *item)?;
                return Ok(Answer::Waiting(queue));
            }
        }
        Ok(Answer::Done)
    }

    // Makes a command's call and prints its answer, a tick as often as the command says.
    pub(crate) fn run(&mut self, rt: &HostRuntime, command: &Command) -> io::Result<()> {
        let Command::Tick(count) = command else {
            return print(rt, self.call(rt.alloc(), command));
        };
        for _ in 0..*count {
            print(rt, self.tick(rt.alloc()))?;
        }
        Ok(())
    }
}
