//! Laws of contractions and their views. A clause cannot speak of every set of items, so each says it of
//! lists; the lemmas behind them say it of any set, for proofs above. They are public in `proofs/`:
//! `ItemSets`, `StandsLemmas` (`compose`), `KeepLemmas` (`keep_only`), `SupplyLemmas` (`supply`),
//! `ViewLemmas`, `SameLemmas`, `MoveLemmas`, `LawLemmas`, and `RisingLemmas` on lists of kept nodes.
ghost use Rattle.std.specs.Prelude.{◌≡◌, ◌↔◌, ℕ, Bool, List};
ghost use Rattle.station_graph.specs.Diagram.{Diagram};
ghost use Rattle.station_graph.specs.Connection.{Item};
ghost use Rattle.station_graph.specs.Alike.{SamePositions};
ghost use Rattle.station_graph.specs.Views.{SameGapView, SameLoadView};
ghost use Rattle.contraction.specs.Answers.{Answers, Keeps, IsContraction, SameGap, SameLoad};
ghost use Rattle.contraction.specs.Stands.{Among, IsItem, GapStandsFor, LoadStandsFor};
ghost use Rattle.contraction.specs.Composing.{Composes, Restricts, ComposesGap, ComposesLoad};
ghost use Rattle.contraction.specs.Renaming.{KeepsOrder, mapped};

/// `compose` respects each view: values with the same gap views have compositions with the same gap
/// view, and so for load views.
pub fn composition_respects_views()
    ensures gap { (x1 y1 c1 x2 y2 c2 : Answers) → IsContraction c1 → IsContraction c2
        → Composes x1 y1 c1 → Composes x2 y2 c2 → SameGap x1 x2 → SameGap y1 y2 → SameGap c1 c2 }
    ensures load { (x1 y1 c1 x2 y2 c2 : Answers)
        → IsContraction x1 → IsContraction y1 → IsContraction c1
        → IsContraction x2 → IsContraction y2 → IsContraction c2
        → Composes x1 y1 c1 → Composes x2 y2 c2 → SameLoad x1 x2 → SameLoad y1 y2 → SameLoad c1 c2 }
{}

/// So do `compose_gap` and `compose_load`, on the same nodes.
pub fn one_view_respects_it()
    ensures gap { (x1 y1 c1 x2 y2 c2 : Answers) → c1.kept ≡ c2.kept
        → ComposesGap x1 y1 c1 → ComposesGap x2 y2 c2 → SameGap x1 x2 → SameGap y1 y2 → SameGap c1 c2 }
    ensures load { (x1 y1 c1 x2 y2 c2 : Answers)
        → IsContraction x1 → IsContraction y1 → IsContraction x2 → IsContraction y2 → c1.kept ≡ c2.kept
        → ComposesLoad x1 y1 c1 → ComposesLoad x2 y2 c2 → SameLoad x1 x2 → SameLoad y1 y2 → SameLoad c1 c2 }
{}

/// A view that is composed alone is that of the composition, on the same nodes.
pub fn one_view_is_that_of_both()
    ensures gap { (x y c r g : Answers)
        → Composes x y c → Restricts c r → ComposesGap x y g → r.kept ≡ g.kept → SameGap r g }
    ensures load { (x y c r l : Answers) → IsContraction x → IsContraction y
        → Composes x y c → Restricts c r → ComposesLoad x y l → r.kept ≡ l.kept → SameLoad r l }
{}

/// What two values are together in one view is a matter of their answers place by place and of the order of their
/// nodes, not of which nodes they are: other nodes in the same order may stand in place of them. So a composition that
/// was worked out once need not be worked out again on other nodes.
pub fn nodes_in_one_order_compose_alike()
    ensures gap { (f : ℕ → ℕ) (x y c : Answers) → KeepsOrder f
        → ComposesGap x y c ↔ ComposesGap (mapped f x) (mapped f y) (mapped f c) }
    ensures load { (f : ℕ → ℕ) (x y c : Answers) → KeepsOrder f
        → ComposesLoad x y c ↔ ComposesLoad (mapped f x) (mapped f y) (mapped f c) }
{}

/// `keep_only` respects each view.
pub fn restriction_respects_views()
    ensures gap { (c1 r1 c2 r2 : Answers) → r1.kept ≡ r2.kept
        → Restricts c1 r1 → Restricts c2 r2 → SameGap c1 c2 → SameGap r1 r2 }
    ensures load { (c1 r1 c2 r2 : Answers) → r1.kept ≡ r2.kept
        → Restricts c1 r1 → Restricts c2 r2 → SameLoad c1 c2 → SameLoad r1 r2 }
{}

/// Two values on the same nodes that stand for some items in two positions have the same gap answers
/// exactly where the items have one gap view in both positions, and so for load views.
pub fn values_tell_views()
    ensures gap { (items : List Item) (d : Diagram) (v w : List Bool) (x y : Answers)
        → x.kept ≡ y.kept
        → GapStandsFor (Among items) d v x → GapStandsFor (Among items) d w y
        → SameGap x y ↔ SameGapView (Keeps x.kept) (Among items) d v w }
    ensures load { (items : List Item) (d : Diagram) (v w : List Bool) (x y : Answers)
        → x.kept ≡ y.kept
        → LoadStandsFor (Among items) d v x → LoadStandsFor (Among items) d w y
        → SameLoad x y ↔ SameLoadView (Keeps x.kept) (Among items) d v w }
{}

/// What one value stands for, each value with the same view stands for too. So one of them may be kept
/// in place of all.
pub fn same_views_stand()
    ensures gap { (items : List Item) (d : Diagram) (v : List Bool) (x y : Answers)
        → SameGap x y → GapStandsFor (Among items) d v x → GapStandsFor (Among items) d v y }
    ensures load { (items : List Item) (d : Diagram) (v : List Bool) (x y : Answers)
        → IsContraction x → IsContraction y
        → SameLoad x y → LoadStandsFor (Among items) d v x → LoadStandsFor (Among items) d v y }
{}

/// What a value stands for is a matter of which items of the station are in the list, not of their order
/// or number.
pub fn same_items_stand()
    ensures gap { (items others : List Item) (d : Diagram) (v : List Bool) (c : Answers)
        → ((item : Item) → IsItem d item → Among items item ↔ Among others item)
        → GapStandsFor (Among items) d v c → GapStandsFor (Among others) d v c }
    ensures load { (items others : List Item) (d : Diagram) (v : List Bool) (c : Answers)
        → ((item : Item) → IsItem d item → Among items item ↔ Among others item)
        → LoadStandsFor (Among items) d v c → LoadStandsFor (Among others) d v c }
{}

/// What a value stands for is a matter of the positions of the items' own switches alone.
pub fn own_positions_stand()
    ensures gap { (items : List Item) (d : Diagram) (v w : List Bool) (c : Answers)
        → SamePositions (Among items) v w
        → GapStandsFor (Among items) d v c → GapStandsFor (Among items) d w c }
    ensures load { (items : List Item) (d : Diagram) (v w : List Bool) (c : Answers)
        → SamePositions (Among items) v w
        → LoadStandsFor (Among items) d v c → LoadStandsFor (Among items) d w c }
{}

/// Values that keep the same nodes have one list of them.
pub fn same_nodes_are_one_list()
    ensures { (x y : Answers) → IsContraction x → IsContraction y
        → ((n : ℕ) → Keeps x.kept n ↔ Keeps y.kept n) → x.kept ≡ y.kept }
{}

/// A gap view is its own, and values with the gap view of a third have one.
pub fn gap_views_are_equal()
    ensures own { (x : Answers) → SameGap x x }
    ensures back { (x y : Answers) → SameGap x y → SameGap y x }
    ensures on { (x y z : Answers) → SameGap x y → SameGap y z → SameGap x z }
{}

/// So for load views.
pub fn load_views_are_equal()
    ensures own { (x : Answers) → SameLoad x x }
    ensures back { (x y : Answers) → SameLoad x y → SameLoad y x }
    ensures on { (x y z : Answers) → SameLoad x y → SameLoad y z → SameLoad x z }
{}

/// Items that have one view in two positions on some nodes have one on fewer.
pub fn fewer_nodes_tell_less()
    ensures gap { (items : List Item) (d : Diagram) (v w : List Bool) (kept fewer : List ℕ)
        → ((n : ℕ) → Keeps fewer n → Keeps kept n)
        → SameGapView (Keeps kept) (Among items) d v w
        → SameGapView (Keeps fewer) (Among items) d v w }
    ensures load { (items : List Item) (d : Diagram) (v w : List Bool) (kept fewer : List ℕ)
        → ((n : ℕ) → Keeps fewer n → Keeps kept n)
        → SameLoadView (Keeps kept) (Among items) d v w
        → SameLoadView (Keeps fewer) (Among items) d v w }
{}
