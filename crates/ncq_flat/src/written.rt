//! An element as its canonical lines.
ghost use Rattle.std.specs.Prelude.{◌≡◌, [], ◌∷◌, ◌++◌, ◌↔◌, ℕ, List, Ok, true};
ghost use Rattle.std.specs.Prelude.{IfOk, IsTrue};
ghost use Rattle.ncq_base.specs.Lines.{IsClean, lines_in, text_of};
ghost use Rattle.ncq_tree.specs.declared.model.Node.TheVariants.{Element as element_node};
ghost use Rattle.ncq_tree.specs.Normal.{node_is_normal};
ghost use Rattle.ncq_pyx.specs.Canonical.{node_lines, bytes_of_lines, is_named, written_lines};
ghost use Rattle.ncq_pyx.specs.declared.item.Item.TheVariants.{Put};
ghost use Rattle.ncq_tree.specs.declared.model.Element.{Element};
ghost use Rattle.ncq_tree.specs.Texts.{string_value};
ghost use Rattle.ncq_flat.specs.Checked.{is_checked};
ghost use Rattle.ncq_flat.specs.Insides.{inside_of};

use crate::reading::lines_of;
use crate::said::string_value;
use ncq_base::{Bytes, first_line};
use ncq_pyx::{Item, Items, read_nested, write_element};
use ncq_tree::Element;
use std::alloc::{AllocError, Global};
use std::marker::Model;

/// A proper element as its canonical lines. Contracts see the element.
#[derive(Drop)]
pub struct Written {
    lines: Vec<u8>,
}

impl Model for Written {
    ghost use Rattle.ncq_tree.specs.declared.model.Element.{Element};
    ghost use Rattle.ncq_tree.specs.contracts.model.Element.{the_row};
    ghost use Rattle.ncq_flat.specs.Flat.{element_in, IsCanonical};

    ghost Value = { Element };

    ghost coded = { the_row.coded };

    ghost view = { λ f. element_in f.lines.items };

    ghost invariant = { λ f. IsCanonical f.lines.items };
}

impl Written {
    /// The element, written. The only error is want of memory.
    pub fn new(alloc: Global, element: &Element) -> Result<Written, AllocError>
        requires normal { node_is_normal (element_node element.now) ≡ true }
        requires named { is_named (element_node element.now) ≡ true }
        ensures { IfOk result (λ f. f ≡ element.now) }
    {
        let mut lines = Vec::new(alloc);
        write_element(element, &mut lines)?;
        Ok(Written { lines })
    }

    /// The element of whole lines that are checked, which are copied as they stand. The only error
    /// is want of memory.
    pub(crate) fn of_checked(alloc: Global, text: &[u8]) -> Result<Written, AllocError>
        requires whole { text.now ≡ text_of (lines_in text.now) }
        requires checked { is_checked (lines_in text.now) ≡ true }
        ensures lines { IfOk result (λ f. lines_in text.now ≡ node_lines (element_node f)) }
        ensures normal { IfOk result (λ f. node_is_normal (element_node f) ≡ true) }
        ensures named { IfOk result (λ f. is_named (element_node f) ≡ true) }
    {
        let lines = Vec::from_slice(alloc, text)?;
        Ok(Written { lines })
    }

    /// The name of the element: what stands behind the first byte of the first line.
    pub fn name(&self) -> &[u8]
        ensures { result.now ≡ self.now.name }
    {
        name_in(self.lines.as_slice())
    }

    /// The lines from inside the element on: those of its attributes and children, and the one that
    /// closes it.
    pub fn inside(&self) -> &[u8]
        ensures { lines_in result.now ≡ inside_of self.now [] }
    {
        behind_line(self.lines.as_slice())
    }

    /// The element as a tree, which is made anew from its lines. The only error is want of memory.
    pub fn element(&self, alloc: Global) -> Result<Element, AllocError>
        ensures { IfOk result (λ e. e ≡ self.now) }
    {
        let text = self.lines.as_slice();
        let lines = lines_of(alloc, text)?;
        match read_nested(alloc, &lines, text.len()) {
            Ok(items) => first_put(items),
            Err(_) => Err(AllocError),
        }
    }

    /// The string value of the element: that of its children. The only error is want of memory.
    pub fn string_value(&self, alloc: Global) -> Result<Bytes, AllocError>
        ensures { IfOk result (λ b. b ≡ string_value self.now.children) }
    {
        string_value(alloc, self.inside())
    }

    /// Whether the two are the same element: whether their lines are the same.
    pub fn is_same(&self, other: &Written) -> bool
        ensures { IsTrue result ↔ (self.now ≡ other.now) }
    {
        self.lines.as_slice() == other.lines.as_slice()
    }

    /// The canonical lines, each ended by LF. The element is proper.
    pub fn lines(&self) -> &[u8]
        ensures lines { result.now ≡ bytes_of_lines (node_lines (element_node self.now)) }
        ensures written { result.now ≡ written_lines self.now }
        ensures normal { node_is_normal (element_node self.now) ≡ true }
        ensures named { is_named (element_node self.now) ≡ true }
    {
        self.lines.as_slice()
    }
}

/// The element that the one item puts.
fn first_put(items: Items) -> Result<Element, AllocError>
    ensures { (e : Element) → items ≡ Put e ∷ [] → result ≡ Ok e }
{
    match items.into_vec().pop() {
        Some(Item::Put(element)) => Ok(element),
        _ => Err(AllocError),
    }
}

/// What stands behind the first byte of the first line.
fn name_in(text: &[u8]) -> &[u8]
    ensures { (mark : ℕ) (name rest : List ℕ) → IsClean (mark ∷ name)
        → text.now ≡ (mark ∷ name) ++ 10 ∷ rest → result.now ≡ name }
{
    let Some((line, _)) = first_line(text) else {
        return &[];
    };
    match line {
        [_, name @ ..] => name,
        _ => &[],
    }
}

/// What stands behind the first line.
fn behind_line(text: &[u8]) -> &[u8]
    ensures { (line : List ℕ) (lines : List (List ℕ)) → lines_in text.now ≡ line ∷ lines
        → lines_in result.now ≡ lines }
{
    match first_line(text) {
        Some((_, more)) => more,
        None => &[],
    }
}
