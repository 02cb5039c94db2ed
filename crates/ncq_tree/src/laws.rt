//! Laws of normal forests and of their order. The functions do nothing: each is its contract.
ghost use Rattle.std.specs.Prelude.{◌≡◌, List, true};
ghost use Rattle.std.specs.Cmp.{IsTotalOrder};
ghost use Rattle.std.specs.Cmp.Lexicographic.{slice_cmp};
ghost use Rattle.std.specs.List.{list_all};
ghost use Rattle.std.specs.declared.cmp.Ordering.TheVariants.{Equal};
ghost use Rattle.ncq_tree.specs.declared.model.Node.{Node};
ghost use Rattle.ncq_tree.specs.Normal.{is_normal, node_is_distinct, normal};

use crate::model::Node;

/// The law of `normal`: a normal forest is its own normal form.
pub fn normal_stays()
    ensures { (forest : List Node) → is_normal forest ≡ true → normal forest ≡ forest }
{}

/// The law of `normal`: where no element has two attributes of one name, the normal form is normal.
pub fn normal_is_made()
    ensures { (forest : List Node) → list_all node_is_distinct forest ≡ true
        → is_normal (normal forest) ≡ true }
{}

/// The law of `order`: it is total, and it answers `Equal` for equal forests alone.
pub fn order_is_total()
    ensures total { IsTotalOrder (slice_cmp ⟦<Node as Ord>⟧.cmp) }
    ensures equal { (a b : List _) → slice_cmp ⟦<Node as Ord>⟧.cmp a b ≡ Equal → a ≡ b }
{}
