use crate::output::{Notes, Numbers, Samples, ShownResponse};
use answers::acknowledgement::AcknowledgementResult;
use items::waiting::WaitingQueue;
use messages::message::Message;
use messages::response::Response;
use model::revised::{CreatedItem, CreatedSubscription, RevisedItem};
use numbers::numbers::Numbers as KeptNumbers;
use std::fmt;
use subscriptions::parameters::RevisedSubscription;

// What a command's call returned and wrote.
#[derive(Drop)]
pub(crate) enum Answer<'a> {
    Done,
    CreatedSubscription(CreatedSubscription),
    RevisedSubscription(RevisedSubscription),
    CreatedItem(CreatedItem),
    RevisedItem(RevisedItem),
    Message(Message),
    Responses {
        acknowledged: Vec<AcknowledgementResult>,
        responses: Vec<Response>,
    },
    Queued(&'a [u32]),
    Kept(KeptNumbers),
    Waiting(WaitingQueue),
}

impl<'a> Answer<'a> {
    // The results of the acknowledgements, and as many of the responses as the call wrote.
    pub(crate) fn responses(
        acknowledged: Vec<AcknowledgementResult>,
        mut responses: Vec<Response>,
        written: usize,
    ) -> Self {
        responses.truncate(written);
        Answer::Responses {
            acknowledged,
            responses,
        }
    }
}

impl<'a> fmt::Display for Answer<'a> {
    fn fmt<W: fmt::Write>(&self, f: &mut fmt::Formatter<W>) -> fmt::Result {
        match self {
            Answer::Done => write!(f, "ok"),
            Answer::CreatedSubscription(CreatedSubscription { id, revised }) => {
                let RevisedSubscription {
                    interval,
                    keep_alive,
                    lifetime,
                } = revised;
                write!(f, "ok {id} {interval} {keep_alive} {lifetime}")
            }
            Answer::RevisedSubscription(
                RevisedSubscription {
                    interval,
                    keep_alive,
                    lifetime,
                },
            ) => write!(f, "ok {interval} {keep_alive} {lifetime}"),
            Answer::CreatedItem(CreatedItem { id, revised }) => {
                let RevisedItem {
                    interval,
                    queue_size,
                } = revised;
                write!(f, "ok {id} {interval} {queue_size}")
            }
            Answer::RevisedItem(
                RevisedItem {
                    interval,
                    queue_size,
                },
            ) => write!(f, "ok {interval} {queue_size}"),
            Answer::Message(message) => {
                let number = message.number;
                let count = message.count;
                let notes = Notes(message.carried());
                write!(f, "message {number} {count}{notes}")
            }
            Answer::Responses {
                acknowledged,
                responses,
            } => {
                let count = responses.len();
                write!(f, "ok {count}")?;
                for result in acknowledged.iter() {
                    write!(f, "\nack {result}")?;
                }
                for response in responses.iter() {
                    let response = ShownResponse(response);
                    write!(f, "\n{response}")?;
                }
                Ok(())
            }
            Answer::Queued(handles) => {
                let handles = Numbers(handles);
                write!(f, "queued {handles}")
            }
            Answer::Kept(numbers) => {
                let numbers = Numbers(numbers.as_slice());
                write!(f, "kept {numbers}")
            }
            Answer::Waiting(queue) => {
                let samples = Samples(queue.as_slice());
                write!(f, "waiting {samples}")
            }
        }
    }
}
