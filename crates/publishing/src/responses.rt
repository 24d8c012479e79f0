ghost use Rattle.std.specs.Prelude.{◌≡◌, ◌+◌, ◌<◌, length, slice_set};

use messages::response::Response;

// The places for the responses of a tick, of which the first `written` are written: the caller's list, since the engine takes
// no memory for one of its own.
#[derive(Drop)]
pub(crate) struct Responses<'a> {
    pub(crate) places: &'a mut [Response],
    pub(crate) written: usize,
}

impl<'a> Responses<'a> {
    pub(crate) fn new(places: &'a mut [Response]) -> Responses<'a>
        ensures same { result.places.ghost_name ≡ places.entry.ghost_name }
        ensures places { result.places.now ≡ places.old }
        ensures written { result.written ≡ 0 }
    {
        Responses { places, written: 0 }
    }

    pub(crate) fn push(&mut self, response: Response)
        requires { self.old.written < length self.old.places.now }
        ensures same { self.new.places.ghost_name ≡ self.old.places.ghost_name }
        ensures places { self.new.places.now ≡ slice_set self.old.places.now self.old.written response }
        ensures written { self.new.written ≡ self.old.written + 1 }
    {
        self.places[self.written] = response;
        self.written += 1;
    }
}
