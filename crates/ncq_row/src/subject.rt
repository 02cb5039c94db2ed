//! The element that a shape is matched with.
ghost use Rattle.std.specs.Prelude.{◌≡◌, [], ◌∷◌, IfOk};
ghost use Rattle.ncq_tree.specs.declared.model.Node.TheVariants.{Element as element_node};
ghost use Rattle.ncq_row.specs.Subjects.{IsSubject, element_of};

use crate::nodes::Nodes;
use ncq_base::{Copied, Shared};
use ncq_flat::Written;
use ncq_tree::{Element, Forest, Node};
use std::alloc::{AllocError, Global};

/// An element that rows have to copy, or one that they can share, with the tree that was made of
/// it.
#[derive(Clone, Copy)]
pub(crate) enum Subject<'a> {
    Lone(&'a Element),
    Shared(&'a Shared<Written>, &'a Element),
}

impl<'a> Subject<'a> {
    pub(crate) fn element(self) -> &'a Element
        ensures { result.now ≡ element_of self.entry }
    {
        match self {
            Subject::Lone(element) => element,
            Subject::Shared(_, tree) => tree,
        }
    }

    /// The element alone: shared where it can be, or else a copy.
    pub(crate) fn whole(self, alloc: Global) -> Result<Nodes, AllocError>
        requires { IsSubject self }
        ensures { IfOk result (λ n. n ≡ element_node (element_of self.entry) ∷ []) }
    {
        match self {
            Subject::Lone(element) => {
                let mut forest = Forest::with_capacity(alloc, 1)?;
                forest.push(Node::Element(element.copy(alloc)?))?;
                Ok(Nodes::new(forest))
            }
            Subject::Shared(written, _) => Nodes::shared(written),
        }
    }
}
