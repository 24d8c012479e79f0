ghost use Rattle.std.specs.Prelude.{◌≡◌};
ghost use Rattle.values.specs.Notifications.{empty_notification};

use crate::value::Sample;

// A sample as it goes out: under the item's client handle, marked where samples were lost next to it.
#[derive(Clone, Copy, Default)]
pub struct Notification {
    pub client_handle: u32,
    pub sample: Sample,
    pub overflow: bool,
}

impl Notification {
    // Stands where there is no notification.
    pub fn empty() -> Self
        ensures { result ≡ empty_notification }
    {
        Self::default()
    }
}
