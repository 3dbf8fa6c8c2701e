//! A law on products, a call that does nothing.
ghost use Rattle.std.specs.Prelude.{◌↔◌, ℕ, Bool, List};
ghost use Rattle.decision_graphs.specs.Label.{Layered};
ghost use Rattle.decision_graphs.specs.Reaching.{AreSetsOf};
ghost use Rattle.graph_products.specs.declared.pair.Pair.{Pair};
ghost use Rattle.graph_products.specs.declared.row.Row.{Row};
ghost use Rattle.graph_products.specs.Products.{IsProductOf, PairReaches, PairIsReached};

/// Choices of two graphs that are made together by allowed rows lead to a pair of labels exactly where allowed rows
/// lead in their product to the label that stands for the pair. So `Graph::reach` marks exactly the pairs that can
/// be reached, for the sets of all rows as well as for those of some; and `Marks::path_to` gives the rows.
pub fn pairs_are_reached()
    ensures { (g h p : Layered) (rss : List (List Row)) (pairs : List Pair) (sets : List (List Bool)) (a b : ℕ)
        → IsProductOf g h rss p pairs → AreSetsOf p.layers sets
        → PairReaches g h rss sets a b ↔ PairIsReached p pairs sets a b }
{}
