ghost use Rattle.std.specs.Prelude.{◌≡◌, false, []};
ghost use Rattle.numbers.specs.Items.{items};
ghost use Rattle.messages.specs.Messages.{message_of, carried};
ghost use Rattle.messages.specs.Responses.{letter_of, response_of, notifying, keeping_alive, changing_status, refusing, kept_shown, notifications_shown};
ghost use Rattle.messages.specs.declared.response.ResponseKind.TheVariants.{TooManyRequests, NoSubscription};

use crate::message::Message;
use crate::padded::padded;
use numbers::numbers::Numbers;
use values::notification::Notification;

// What a response answers a request with: notifications, a keep-alive, the end of a subscription, or a refusal.
#[derive(Clone, Copy, PartialEq, Eq)]
pub enum ResponseKind {
    Notifications,
    KeepAlive,
    StatusChange,
    TooManyRequests,
    NoSubscription,
}

// The response to the request `handle`: the first `kept_count` of the kept numbers and the first `count` of the
// notifications, with zeros and empty notifications behind them. What a kind does not use is 0, false or empty: one record
// and no enum with fields, since a host gets every place. Arrays with their counts for the same reason.
#[derive(Clone, Copy)]
pub struct Response {
    pub kind: ResponseKind,
    pub handle: u32,
    pub subscription: u32,
    pub number: u32,
    pub kept: [u32; 8],
    pub kept_count: usize,
    pub more: bool,
    pub notifications: [Notification; 16],
    pub count: usize,
}

impl ResponseKind {
    // The letter that a log shows. Not by Display: programs print it, and tests compare it, as a char.
    pub fn letter(self) -> char
        ensures { result ≡ letter_of self }
    {
        match self {
            ResponseKind::Notifications => 'N',
            ResponseKind::KeepAlive => 'K',
            ResponseKind::StatusChange => 'S',
            ResponseKind::TooManyRequests => 'T',
            ResponseKind::NoSubscription => 'O',
        }
    }
}

impl Response {
    // Carries neither kept numbers nor notifications.
    fn bare(kind: ResponseKind, handle: u32, subscription: u32, number: u32) -> Self
        ensures { result ≡ response_of kind handle subscription (message_of number []) [] false }
    {
        Response {
            kind,
            handle,
            subscription,
            number,
            kept: [0; 8],
            kept_count: 0,
            more: false,
            notifications: [Notification::empty(); 16],
            count: 0,
        }
    }

    // A message with its notifications.
    pub fn notifications(
        handle: u32,
        subscription: u32,
        message: &Message,
        kept: &Numbers,
        more: bool,
    ) -> Self
        ensures value { result ≡ notifying handle subscription message.now (items kept.now) more }
        ensures kept { kept_shown result ≡ items kept.now }
        ensures carries { notifications_shown result ≡ carried message.now }
    {
        Response {
            kind: ResponseKind::Notifications,
            handle,
            subscription,
            number: message.number,
            kept: padded(kept, 0),
            kept_count: kept.len(),
            more,
            notifications: message.notifications,
            count: message.count,
        }
    }

    // A keep-alive shows the number of the next message.
    pub fn keep_alive(handle: u32, subscription: u32, number: u32, kept: &Numbers) -> Self
        ensures value { result ≡ keeping_alive handle subscription number (items kept.now) }
        ensures kept { kept_shown result ≡ items kept.now }
    {
        Response {
            kept: padded(kept, 0),
            kept_count: kept.len(),
            ..Response::bare(ResponseKind::KeepAlive, handle, subscription, number)
        }
    }

    // The subscription has ended; the number of its next message is shown.
    pub fn status_change(handle: u32, subscription: u32, number: u32) -> Self
        ensures { result ≡ changing_status handle subscription number }
    {
        Response::bare(ResponseKind::StatusChange, handle, subscription, number)
    }

    // The oldest request leaves a full queue.
    pub fn too_many_requests(handle: u32) -> Self
        ensures { result ≡ refusing TooManyRequests handle }
    {
        Response::bare(ResponseKind::TooManyRequests, handle, 0, 0)
    }

    // There is no subscription to answer.
    pub fn no_subscription(handle: u32) -> Self
        ensures { result ≡ refusing NoSubscription handle }
    {
        Response::bare(ResponseKind::NoSubscription, handle, 0, 0)
    }

    // The kept numbers, oldest first.
    pub fn shown_numbers(&self) -> &[u32]
        ensures { result.now ≡ kept_shown self.now }
    {
        &self.kept[0..self.kept_count.min(8)]
    }

    // The notifications in order.
    pub fn shown_notifications(&self) -> &[Notification]
        ensures { result.now ≡ notifications_shown self.now }
    {
        &self.notifications[0..self.count.min(16)]
    }
}
