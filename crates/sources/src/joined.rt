ghost use Rattle.std.specs.Prelude.{◌≡◌, ◌-◌, if◌then◌else◌, nat_lt};
ghost use Rattle.sources.specs.Standings.{sample_of};
ghost use Rattle.sources.specs.Image.{image_rows, image_stands};
ghost use Rattle.sources.specs.Plant.{plant_stands};
ghost use Rattle.std.proofs.Common.{rules};

use crate::certificates::Certificates;
use crate::image::ProcessImage;
use crate::source::{Source, Standing, sampled};
use values::value::Sample;

// Nodes below the split come from the first source, the others from the second, counted from the split.
#[derive(Clone, Copy)]
pub struct Joined<A, B> {
    pub first: A,
    pub second: B,
    pub split: u32,
}

impl<A: Source, B: Source> Source for Joined<A, B> {
    ghost stands = { λ s n. (if nat_lt n s.split then A.Source.stands s.first n else B.Source.stands s.second (n - s.split)) };

    ghost sound = { Prim.search rules };

    fn query(&self, node: u32) -> Option<Standing> {
        if node < self.split {
            self.first.query(node)
        } else {
            self.second.query(node - self.split)
        }
    }
}

// The sample of a plant's node: the process image below the split, the certificates from it on.
pub fn plant_sample(plant: &Joined<ProcessImage, Certificates>, node: u32) -> Sample
    ensures { result ≡ sample_of (plant_stands plant.now node) }
{
    sampled(plant, node)
}

// The sample of a node of a plant with a second process image behind it.
pub fn extended_plant_sample(
    extended: &Joined<Joined<ProcessImage, Certificates>, ProcessImage>,
    node: u32,
) -> Sample
    ensures { result ≡ sample_of (if nat_lt node extended.now.split then plant_stands extended.now.first node else image_stands (image_rows extended.now.second) (node - extended.now.split)) }
{
    sampled(extended, node)
}
