ghost use Rattle.std.specs.Prelude.{◌≡◌, ℕ, Option as Opt};
ghost use Rattle.sources.specs.declared.source.Standing.{Standing as Stand};
ghost use Rattle.sources.specs.Standings.{Sound, sample_of};

use values::value::{Kind, Sample, Value};

// What a source stands at for a node that it knows.
#[derive(Clone, Copy)]
pub struct Standing {
    pub kind: Kind,
    pub sample: Sample,
}

const UNKNOWN_NODE: Sample = Sample {
    value: Value::Empty,
    status: 0x8034_0000,
    time: 0,
};

// A source knows a node or not, and its one query tells what it stands at, changing nothing.
pub trait Source {
    ghost stands: { Self → ℕ → Opt Stand };

    fn query(&self, node: u32) -> Option<Standing>
        ensures { result ≡ stands self.now node };

    // A known node's value is empty or of its kind.
    ghost sound: { (s : Self) (n : ℕ) → Sound (stands s n) };
}

// The sample that the source shows for a node; of an unknown node an empty value with Bad_NodeIdUnknown.
pub fn sampled<S: Source>(source: &S, node: u32) -> Sample
    ensures { result ≡ sample_of (S.Source.stands source.now node) }
{
    source
        .query(node)
        .map_or(UNKNOWN_NODE, |standing| standing.sample)
}
