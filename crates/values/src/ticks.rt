ghost use Rattle.std.specs.Prelude.{◌≡◌};
ghost use Rattle.values.specs.Ticks.{ticks_of};

// A tick stands for 50 ms.
const TICK: u32 = 50;

// Requested milliseconds as whole ticks, rounded up and held within 1 to 60,000; none and fewer are 1 tick.
pub fn ticks(milliseconds: i32) -> u32
    ensures { result ≡ ticks_of milliseconds }
{
    if milliseconds <= 0 {
        return 1;
    }
    milliseconds.unsigned_abs().div_ceil(TICK).clamp(1, 60_000)
}
