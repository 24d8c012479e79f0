ghost use Rattle.std.specs.Prelude.{◌≡◌};
ghost use Rattle.subscriptions.specs.Revision.{revision};

use crate::figures::Revised;
use crate::parameters::SubscriptionParameters;
use values::ticks::ticks;

// The figures that a client gets for those it asks for.
pub fn revise(parameters: SubscriptionParameters) -> Revised
    ensures { result ≡ revision parameters }
{
    let keep_alive = parameters.keep_alive.clamp(1, 1_000);
    Revised {
        interval: ticks(parameters.milliseconds),
        keep_alive,
        lifetime: parameters.lifetime.max(3 * keep_alive).min(30_000),
        limit: match parameters.limit {
            0 => 16,
            limit => limit.min(16),
        },
    }
}
