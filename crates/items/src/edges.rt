ghost use Rattle.std.specs.Prelude.{◌≡◌, [], ◌∷◌};
ghost use Rattle.items.specs.Edges.{EdgeFigures};

use values::ticks::ticks;

fn figures()
    ensures { EdgeFigures }
{}

// The figures at the edges, shown of the definitions, and those of the intervals answered by the code, in ticks.
pub fn edge_figures() -> [u32; 4]
    ensures figures { EdgeFigures }
    ensures intervals { result ≡ 1 ∷ 1 ∷ 2 ∷ 60000 ∷ [] }
{
    figures();
    [ticks(0), ticks(50), ticks(51), ticks(3_000_001)]
}
