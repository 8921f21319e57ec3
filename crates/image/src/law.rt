//! What holds of all images: bytes are the image of at most one node. Each law is the contract of a
//! function that does nothing.
ghost use Rattle.std.specs.Prelude.{◌≡◌, ◌↔◌, ℕ, List};
ghost use Rattle.image_parts.specs.Layouts.{layout_for};
ghost use Rattle.image_parts.specs.declared.layout.Layout.{Layout};
ghost use Rattle.model.specs.View.{NodeView, kept_view};
ghost use Rattle.image.specs.Images.{IsTooLarge, image_of};
ghost use Rattle.image.specs.Conditions.{IsSaved};
ghost use Rattle.node.specs.Invariant.{IsStanding};
ghost use Rattle.image.specs.Nodes.{Spells};

/// Bytes spell at most one node, and a node has at most one spelling in each layout. All messages
/// and numbers of a node that has a spelling count as saved. A node that has a spelling in some
/// layout has one in the layout in which it is written, unless that is too long for an image. The
/// function does nothing; its contract states the law.
pub fn nodes_spelled()
    ensures one_node { (l k : Layout) (bytes : List ℕ) (m n : NodeView) → Spells l bytes m
        → Spells k bytes n → m ≡ n }
    ensures one_spelling { (l : Layout) (n : NodeView) (bytes others : List ℕ)
        → Spells l bytes n → Spells l others n → bytes ≡ others }
    ensures saved { (l : Layout) (bytes : List ℕ) (n : NodeView) → Spells l bytes n
        → kept_view n ≡ n }
    ensures written { (l : Layout) (bytes : List ℕ) (n : NodeView) → Spells l bytes n
        → (IsTooLarge n → ⊥)
        → Spells (layout_for n.local.shape) (image_of n) n }
{}

/// A node that has a spelling is well-formed exactly if it meets the conditions of a saved node. So
/// each node that is saved meets them, and each node that meets them is read. The function does
/// nothing; its contract states the law.
pub fn nodes_saved()
    ensures { (l : Layout) (bytes : List ℕ) (n : NodeView) → Spells l bytes n
        → (IsSaved n ↔ IsStanding n) }
{}
