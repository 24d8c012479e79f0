ghost use Rattle.std.specs.Prelude.{◌≡◌, Bool, false, int_lt, Float};
ghost use Rattle.std.specs.Float.Ieee.{lt};
ghost use Rattle.values.specs.Beyond.{NotBelowZero, beyond_int, beyond_double};
ghost use Rattle.std.proofs.Common.{rules};
ghost use Rattle.values.specs.Swap;

// A kind of number: whether two of them lie more than d apart.
pub trait Number: Copy {
    ghost beyond: { Float → Self → Self → Bool };

    fn is_beyond(self, other: Self, d: f64) -> bool
        ensures { result ≡ beyond d self other };

    // No number is beyond d of itself.
    ghost itself: { (d : Float) (x : Self) → NotBelowZero d → beyond d x x ≡ false };

    // The order of the two does not matter.
    ghost either: { (d : Float) (x y : Self) → NotBelowZero d → beyond d x y ≡ beyond d y x };
}

// The larger minus the smaller: the difference of two 32-bit numbers is exact in the 53 binary digits of an f64.
fn difference(larger: i32, smaller: i32) -> f64
    requires { int_lt larger smaller ≡ false }
    ensures exact { (d : Float) → lt d result ≡ beyond_int d larger smaller }
    ensures turned { (d : Float) → lt d result ≡ beyond_int d smaller larger }
{
    // By `as`, of which the check finds that it is exact; of `f64::from` it does not.
    larger as f64 - smaller as f64
}

impl Number for i32 {
    ghost beyond = { beyond_int };

    ghost itself = { Prim.search rules };

    ghost either = { Prim.search rules };

    fn is_beyond(self, other: i32, d: f64) -> bool {
        if self > other {
            difference(self, other) > d
        } else {
            difference(other, self) > d
        }
    }
}

impl Number for f64 {
    ghost beyond = { beyond_double };

    ghost itself = { λ d x h. Swap.itself d x };

    ghost either = { λ d x y h. Swap.either d x y };

    fn is_beyond(self, other: f64, d: f64) -> bool {
        if self.is_nan() {
            return !other.is_nan();
        }
        if other.is_nan() {
            return true;
        }
        if self == other {
            return false;
        }
        if self > other {
            self - other > d
        } else {
            other - self > d
        }
    }
}
