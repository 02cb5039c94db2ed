//! The elements that a path reaches.
ghost use Rattle.std.specs.Prelude.{◌≡◌, ◌++◌, [], ◌∷◌, if◌then◌else◌, ℕ, List, map};
ghost use Rattle.std.specs.Prelude.{OnOk, IfOk, true};
ghost use Rattle.ncq_path.specs.After.{IsAfter};
ghost use Rattle.ncq_path.specs.Deciding.{in_path};
ghost use Rattle.ncq_path.specs.Formed.{is_formed};
ghost use Rattle.ncq_row.specs.Reached.{reached_behind};

use ncq_path::{Machine, Path, State, accepts, compile, start, step};
use ncq_tree::{Element, Node};
use std::alloc::{AllocError, Global};

/// What a path reaches from an element.
#[derive(Drop)]
pub(crate) struct Reached<'a> {
    /// Whether it reaches the element itself.
    pub(crate) itself: bool,
    /// The elements below it, in document order.
    pub(crate) below: Vec<&'a Element>,
}

/// What a part with this path may choose at the element.
pub(crate) fn reached_by_part<'a>(
    alloc: Global,
    path: &Path,
    element: &'a Element,
) -> Result<Reached<'a>, AllocError>
    requires { is_formed path.now ≡ true }
    ensures itself { IfOk result (λ r. r.itself ≡ in_path path.now []) }
    ensures below { IfOk result (λ r.
        map (λ e. e.now) r.below.items ≡ reached_behind path.now [] element.now.children) }
{
    let machine = compile(alloc, path)?;
    let state = start(&machine);
    reached_along(alloc, &machine, state, element)
}

/// What an arm with this path reaches in the element.
pub(crate) fn reached_by_arm<'a>(
    alloc: Global,
    path: &Path,
    element: &'a Element,
) -> Result<Reached<'a>, AllocError>
    requires { is_formed path.now ≡ true }
    ensures itself { IfOk result (λ r. r.itself ≡ in_path path.now (element.now.name ∷ [])) }
    ensures below { IfOk result (λ r. map (λ e. e.now) r.below.items
        ≡ reached_behind path.now (element.now.name ∷ []) element.now.children) }
{
    let machine = compile(alloc, path)?;
    let state = step(&machine, start(&machine), element.name.as_slice());
    reached_along(alloc, &machine, state, element)
}

/// What the machine's path reaches from the element, behind the names that led to the state.
fn reached_along<'a>(
    alloc: Global,
    machine: &Machine,
    state: State,
    element: &'a Element,
) -> Result<Reached<'a>, AllocError>
    ensures itself { (tags : List (List ℕ)) → IsAfter machine.now tags state
        → IfOk result (λ r. r.itself ≡ in_path machine.now tags) }
    ensures below { (tags : List (List ℕ)) → IsAfter machine.now tags state → IfOk result (λ r.
        map (λ e. e.now) r.below.items ≡ reached_behind machine.now tags element.now.children) }
{
    let mut below = Vec::new(alloc);
    add_reached(machine, state, element.children.as_slice(), &mut below)?;
    Ok(Reached {
        itself: accepts(machine, state),
        below,
    })
}

/// Appends the elements that the machine's path leads to among the nodes, behind the names that led
/// to the state.
#[cycle(reach)]
fn add_reached<'a>(
    machine: &Machine,
    state: State,
    nodes: &'a [Node],
    found: &mut Vec<&'a Element>,
) -> Result<(), AllocError>
    ensures { (tags : List (List ℕ)) → IsAfter machine.now tags state → OnOk result
        (map (λ e. e.now) found.new.items
        ≡ map (λ e. e.now) found.old.items ++ reached_behind machine.now tags nodes.now) }
{
    if state.is_empty() {
        return Ok(());
    }
    for node in nodes {
        add_reached_at(machine, state, node, found)?;
    }
    Ok(())
}

/// The same at and below one node.
#[cycle(reach)]
fn add_reached_at<'a>(
    machine: &Machine,
    state: State,
    node: &'a Node,
    found: &mut Vec<&'a Element>,
) -> Result<(), AllocError>
    ensures { (tags : List (List ℕ)) → IsAfter machine.now tags state → OnOk result
        (map (λ e. e.now) found.new.items
        ≡ map (λ e. e.now) found.old.items ++ reached_behind machine.now tags (node.now ∷ [])) }
{
    match node {
        Node::Text(_) => Ok(()),
        Node::Element(element) => {
            let next = step(machine, state, element.name.as_slice());
            add_accepted(machine, next, element, found)?;
            add_reached(machine, next, element.children.as_slice(), found)
        }
    }
}

/// Appends the element, where the names that led to the state are in the path.
fn add_accepted<'a>(
    machine: &Machine,
    state: State,
    element: &'a Element,
    found: &mut Vec<&'a Element>,
) -> Result<(), AllocError>
    ensures { (tags : List (List ℕ)) → IsAfter machine.now tags state → OnOk result
        (map (λ e. e.now) found.new.items ≡ map (λ e. e.now) found.old.items
        ++ (if in_path machine.now tags then element.now ∷ [] else [])) }
{
    if accepts(machine, state) {
        found.push(element)?;
    }
    Ok(())
}
