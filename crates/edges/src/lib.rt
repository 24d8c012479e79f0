// The figures at the edges, of all layers in one place.
#![tactic(auto)]

ghost use Rattle.std.specs.Prelude.{◌≡◌, true, false, ◌∷◌, []};
ghost use Rattle.values.specs.Edges.{EdgeFigures as ChangeFigures};
ghost use Rattle.items.specs.Edges.{EdgeFigures as ItemFigures};
ghost use Rattle.subscriptions.specs.Edges.{EdgeFigures as SubscriptionFigures};
ghost use Rattle.subscriptions.specs.declared.figures.Outcome.TheVariants.{Rests, Joins, Ends};

use items::edges;
use subscriptions::edges as subscription_figures;
use subscriptions::figures::Outcome;
use values::laws;

// What the code answers at the edges.
#[derive(Clone, Copy)]
pub struct Edges {
    pub changes: [bool; 6],
    pub intervals: [u32; 4],
    pub counts: (u32, u32, [Outcome; 3]),
}

// The edge figures of changes, of queues and intervals, and of subscriptions: shown of the definitions, and answered by the
// code.
pub fn edge_figures() -> Edges
    ensures changes { ChangeFigures }
    ensures items { ItemFigures }
    ensures subscriptions { SubscriptionFigures }
    ensures changed { result.changes ≡ false ∷ true ∷ true ∷ false ∷ false ∷ true ∷ [] }
    ensures intervals { result.intervals ≡ 1 ∷ 1 ∷ 2 ∷ 60000 ∷ [] }
    ensures counts { result.counts ≡ (1, 6, Joins ∷ Rests ∷ Ends ∷ []) }
{
    Edges {
        changes: laws::edge_figures(),
        intervals: edges::edge_figures(),
        counts: subscription_figures::edge_figures(),
    }
}
