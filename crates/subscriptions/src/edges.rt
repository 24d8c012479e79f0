ghost use Rattle.std.specs.Prelude.{◌≡◌, ◌∷◌, [], pos};
ghost use Rattle.subscriptions.specs.declared.figures.Outcome.TheVariants.{Rests, Joins, Ends};
ghost use Rattle.subscriptions.specs.Edges.{EdgeFigures, asking};

use crate::figures::Outcome;
use crate::parameters::SubscriptionParameters;
use crate::revision::revise;
use crate::subscription::Subscription;

fn figures()
    ensures { EdgeFigures }
{}

// 50 ms, the two counts, and as many notifications in a message as fit.
fn ask(keep_alive: u32, lifetime: u32) -> SubscriptionParameters
    ensures { result ≡ asking (pos 50) keep_alive lifetime 0 }
{
    SubscriptionParameters {
        milliseconds: 50,
        keep_alive,
        lifetime,
        limit: 0,
    }
}

// What comes of three cycles that find no request, with a keep-alive count of 1 and a lifetime count of 3.
fn three_cycles() -> [Outcome; 3]
    ensures { result ≡ Joins ∷ Rests ∷ Ends ∷ [] }
{
    let mut s = Subscription::new(1, ask(1, 3), true);
    [
        s.cycle(false, false),
        s.cycle(false, false),
        s.cycle(false, false),
    ]
}

// The figures at the edges, shown of the definitions and answered by the code: the keep-alive count for 0, the lifetime
// count for 2 and 5, and what comes of three cycles that find no request, with counts of 1 and 3.
pub fn edge_figures() -> (u32, u32, [Outcome; 3])
    ensures figures { EdgeFigures }
    ensures value { result ≡ (1, 6, Joins ∷ Rests ∷ Ends ∷ []) }
{
    figures();
    let outcomes = three_cycles();
    (
        revise(ask(0, 0)).keep_alive,
        revise(ask(2, 5)).lifetime,
        outcomes,
    )
}
