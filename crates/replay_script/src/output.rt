// How responses, notifications and samples are printed.
use items::waiting::Waiting;
use messages::response::Response;
use std::fmt;
use values::notification::Notification;
use values::value::{Sample, Value};

// Numbers with commas between them, `-` where there is none.
#[derive(Clone, Copy)]
pub(crate) struct Numbers<'a>(pub(crate) &'a [u32]);

impl<'a> fmt::Display for Numbers<'a> {
    fn fmt<W: fmt::Write>(&self, f: &mut fmt::Formatter<W>) -> fmt::Result {
        let Some((first, others)) = self.0.split_first() else {
            return write!(f, "-");
        };
        write!(f, "{first}")?;
        for number in others {
            write!(f, ",{number}")?;
        }
        Ok(())
    }
}

// A value, a Double so that reading it gives the same one.
#[derive(Clone, Copy)]
struct Shown(Value);

impl fmt::Display for Shown {
    fn fmt<W: fmt::Write>(&self, f: &mut fmt::Formatter<W>) -> fmt::Result {
        match self.0 {
            Value::Empty => write!(f, "empty"),
            Value::Boolean(b) => write!(f, "{b}"),
            Value::Int32(n) => write!(f, "int32:{n}"),
            Value::Double(x) if x.is_nan() => write!(f, "double:nan"),
            Value::Double(x) => write!(f, "double:{x:?}"),
        }
    }
}

// Value, status, time and mark of a sample.
#[derive(Clone, Copy)]
struct Marked<'a> {
    sample: &'a Sample,
    overflow: bool,
}

impl<'a> fmt::Display for Marked<'a> {
    fn fmt<W: fmt::Write>(&self, f: &mut fmt::Formatter<W>) -> fmt::Result {
        let value = Shown(self.sample.value);
        let status = self.sample.status;
        let time = self.sample.time;
        let mark = if self.overflow { "overflow" } else { "-" };
        write!(f, "{value} 0x{status:08x} {time} {mark}")
    }
}

// The number of waiting samples and then each of them, `-` where there is none.
#[derive(Clone, Copy)]
pub(crate) struct Samples<'a>(pub(crate) &'a [Waiting]);

impl<'a> fmt::Display for Samples<'a> {
    fn fmt<W: fmt::Write>(&self, f: &mut fmt::Formatter<W>) -> fmt::Result {
        let count = self.0.len();
        if count == 0 {
            return write!(f, "-");
        }
        write!(f, "{count}")?;
        for waiting in self.0 {
            let sample = Marked {
                sample: &waiting.sample,
                overflow: waiting.overflow,
            };
            write!(f, "\n  sample {sample}")?;
        }
        Ok(())
    }
}

// Notifications, each on a line of its own.
#[derive(Clone, Copy)]
pub(crate) struct Notes<'a>(pub(crate) &'a [Notification]);

impl<'a> fmt::Display for Notes<'a> {
    fn fmt<W: fmt::Write>(&self, f: &mut fmt::Formatter<W>) -> fmt::Result {
        for notification in self.0 {
            let client_handle = notification.client_handle;
            let sample = Marked {
                sample: &notification.sample,
                overflow: notification.overflow,
            };
            write!(f, "\n  note {client_handle} {sample}")?;
        }
        Ok(())
    }
}

// A response and its notifications.
#[derive(Clone, Copy)]
pub(crate) struct ShownResponse<'a>(pub(crate) &'a Response);

impl<'a> fmt::Display for ShownResponse<'a> {
    fn fmt<W: fmt::Write>(&self, f: &mut fmt::Formatter<W>) -> fmt::Result {
        let response = self.0;
        let kind = response.kind.letter();
        let handle = response.handle;
        let subscription = response.subscription;
        let number = response.number;
        let more = u8::from(response.more);
        let count = response.count;
        let kept = Numbers(response.shown_numbers());
        let notes = Notes(response.shown_notifications());
        write!(
            f,
            "{kind} {handle} {subscription} {number} {more} {count} kept {kept}{notes}"
        )
    }
}
