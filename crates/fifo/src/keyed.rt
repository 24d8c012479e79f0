ghost use Rattle.std.specs.Prelude.{◌≡◌, ℕ};

// A record with a number by which it is looked up.
pub trait Keyed: Copy {
    ghost tag: { Self → ℕ };

    fn key(&self) -> u32
        ensures { result ≡ tag self.now };
}

impl Keyed for u32 {
    ghost tag = { λ n. n };

    fn key(&self) -> u32 {
        *self
    }
}
