ghost use Rattle.std.specs.Prelude.{◌≡◌};
ghost use Rattle.model.specs.Monitoring.{settings_of};

use items::item::Settings;
use items::steps::sampling_ticks;
use model::parameters::MonitoringParameters;
use subscriptions::subscription::Subscription;
use values::checked::CheckedFilter;

// The settings of an item of the subscription, with its checked filter.
pub(crate) fn settings(
    parameters: &MonitoringParameters,
    filter: CheckedFilter,
    subscription: &Subscription,
) -> Settings
    ensures { result ≡ settings_of parameters.now filter subscription.now.figures }
{
    Settings {
        client_handle: parameters.client_handle,
        filter,
        interval: sampling_ticks(
            parameters.sampling_interval,
            subscription.figures.revised.interval,
        ),
        discard_oldest: parameters.discard_oldest,
    }
}
