//! Reading a block: a stack of the open elements, and the items of those that were closed.
ghost use Rattle.std.specs.Prelude.{◌≡◌, ◌≤◌, ◌<◌, ◌+◌, ◌^◌, [], ◌∷◌, ◌++◌, IfOk, OnOk, vec_len};
ghost use Rattle.std.specs.Option.{option_copied};
ghost use Rattle.std.specs.List.{list_all};
ghost use Rattle.ncq_pyx.specs.Items.{item_is_proper};
ghost use Rattle.ncq_pyx.specs.Faults.{block_of, max_nesting};
ghost use Rattle.ncq_pyx.specs.Spells.{innermost, fits, Reads, IsAnswer, Gives};
ghost use Rattle.std.specs.Prelude.{List, Result, true};
ghost use Rattle.ncq_tree.specs.declared.model.Node.TheVariants.{Text};
ghost use Rattle.ncq_pyx.specs.declared.item.Item.{Item};
ghost use Rattle.ncq_pyx.specs.declared.error.PyxError.{PyxError};
ghost use Rattle.ncq_pyx.specs.Reading.{frames_of, names_of, given_of, ErasesOutside, Takes};
ghost use Rattle.ncq_pyx.specs.Reading.{Places, Answers, Ends, refusal_of};

use crate::error::PyxError;
use crate::item::{Item, Items};
use crate::tag::TagAttributes;
use crate::turns::{Stop, Turn, turn_of};
use ncq_base::{Bytes, Lines, first_line};
use ncq_tree::{Attribute, Element, Forest, Node, normal_element};
use std::alloc::{AllocError, Global};

/// An element that is open: its name, and what was read of it so far.
#[derive(Drop)]
pub(crate) struct OpenElement {
    name: Bytes,
    attributes: TagAttributes,
    children: Forest,
}

/// What was read of a block so far.
#[derive(Drop)]
pub(crate) struct Reader {
    alloc: Global,
    /// The open elements, the innermost last.
    stack: Vec<OpenElement>,
    /// Whether attributes of the innermost may come.
    in_tag: bool,
    items: Items,
}

impl OpenElement {
    /// The element as it was read.
    fn into_element(self) -> Element
        ensures { result ≡ record {
          name = self.name;
          attributes = self.attributes;
          children = self.children;
        } }
    {
        let OpenElement {
            name,
            attributes,
            children,
        } = self;
        Element {
            name,
            attributes: attributes.into_attributes(),
            children,
        }
    }
}

impl Reader {
    /// Nothing was read.
    fn new(alloc: Global) -> Reader
        ensures stack { result.stack.items ≡ [] }
        ensures items { result.items ≡ [] }
    {
        Reader {
            alloc,
            stack: Vec::new(alloc),
            in_tag: false,
            items: Items::new(alloc),
        }
    }

    /// The name of the innermost open element.
    fn innermost(&self) -> Option<&Bytes>
        ensures { option_copied result ≡ innermost (names_of (frames_of self.now)) }
    {
        match self.stack.last() {
            Some(element) => Some(&element.name),
            None => None,
        }
    }

    /// The attributes of the innermost open element, where more may come.
    fn given(&self) -> Option<&TagAttributes>
        ensures { option_copied result ≡ given_of self.now.in_tag (frames_of self.now) }
    {
        match self.stack.last() {
            Some(element) if self.in_tag => Some(&element.attributes),
            _ => None,
        }
    }

    /// Puts the element, which was closed, into the one around it, or among the items.
    fn place(&mut self, element: Element) -> Result<(), AllocError>
        ensures { OnOk result (Places self.old self.new element) }
    {
        match self.stack.pop() {
            Some(mut outer) => {
                outer.children.push(Node::Element(element))?;
                self.stack.push(outer)?;
            }
            None => {
                let element = normal_element(self.alloc, element)?;
                self.items.push(Item::Put(element))?;
            }
        }
        Ok(())
    }

    /// Does what the line does.
    #[tactic(auto, using(crate::proofs::Steps::closing))]
    fn apply(&mut self, turn: Turn) -> Result<(), AllocError>
        requires { ErasesOutside (vec_len self.old.stack) turn }
        ensures { OnOk result (Takes self.old self.new turn) }
    {
        match turn {
            Turn::Nothing => {}
            Turn::Begin(name) => {
                self.stack.push(OpenElement {
                    name,
                    attributes: TagAttributes::new(self.alloc),
                    children: Forest::new(self.alloc),
                })?;
                self.in_tag = true;
            }
            Turn::Give(attribute) => {
                if let Some(mut top) = self.stack.pop() {
                    top.attributes = top.attributes.with(self.alloc, attribute)?;
                    self.stack.push(top)?;
                }
            }
            Turn::Say(text) => {
                self.in_tag = false;
                if let Some(mut top) = self.stack.pop() {
                    say(self.alloc, &mut top.children, text)?;
                    self.stack.push(top)?;
                }
            }
            Turn::Finish => {
                self.in_tag = false;
                if let Some(top) = self.stack.pop() {
                    self.place(top.into_element())?;
                }
            }
            Turn::Erase(key) => self.items.push(Item::Remove(key))?,
        }
        Ok(())
    }

    /// Takes the next line.
    fn step(&mut self, line: &[u8], limit: usize) -> Result<(), Stop>
        requires { vec_len self.old.stack ≤ limit }
        ensures answer { Answers limit self.old self.new line.now result }
        ensures depth { OnOk result (vec_len self.new.stack ≤ limit) }
    {
        let turn = turn_of(self.alloc, self.innermost(), self.given(), line)?;
        if !fits(limit, self.stack.len(), &turn) {
            return Err(Stop::TooDeep);
        }
        self.apply(turn)?;
        Ok(())
    }
}

/// Puts the text behind the children. Where it is the first it takes room for itself alone: most
/// elements with a text have nothing else.
fn say(alloc: Global, children: &mut Forest, text: Bytes) -> Result<(), AllocError>
    ensures { OnOk result (children.new ≡ children.old ++ Text text ∷ []) }
{
    if children.len() == 0 {
        *children = Forest::with_capacity(alloc, 1)?;
    }
    children.push(Node::Text(text))?;
    Ok(())
}

/// Whether no more elements are open behind the turn, if so many are before it.
fn fits(limit: usize, depth: usize, turn: &Turn) -> bool
    ensures { result ≡ fits limit depth turn.now }
{
    match turn {
        Turn::Begin(_) => depth < limit,
        _ => true,
    }
}

/// The error for the line of this number, counted from 1.
fn refusal(why: Stop, line: u64) -> PyxError
    ensures { result ≡ refusal_of line why }
{
    match why {
        Stop::Fault => PyxError::BadLine { line },
        Stop::TooDeep => PyxError::TooDeep { line },
        Stop::OutOfMemory => PyxError::OutOfMemory,
    }
}

/// How many elements may be open in one another.
pub const MAX_NESTING: usize = 512;

/// The items that the lines spell, each element proper: in normal form, with PYX names.
/// `BadLine` comes where the first line after which no continuation is a block is this one, counted
/// from 1; where the lines end inside an element it is their number plus 1. `TooDeep` comes in its
/// place where that line is good but for opening an element inside 512 others. `OutOfMemory` is
/// want of memory.
pub fn read_block(alloc: Global, lines: &Lines) -> Result<Items, PyxError>
    ensures reads { Reads max_nesting lines.now result }
    ensures exactly { (answer : Result (List Item) PyxError) →
        Reads max_nesting lines.now answer → IsAnswer answer → Gives result answer }
    ensures proper { IfOk result (λ items. list_all item_is_proper items ≡ true) }
    ensures block { Gives result (block_of max_nesting lines.now) }
{
    read_nested(alloc, lines, MAX_NESTING)
}

/// The items that the lines spell, with at most so many elements open in one another.
pub fn read_nested(alloc: Global, lines: &Lines, limit: usize) -> Result<Items, PyxError>
    ensures reads { Reads limit lines.now result }
    ensures exactly { (answer : Result (List Item) PyxError) →
        Reads limit lines.now answer → IsAnswer answer → Gives result answer }
    ensures proper { IfOk result (λ items. list_all item_is_proper items ≡ true) }
    ensures block { Gives result (block_of limit lines.now) }
{
    read_lines(alloc, lines, limit)
}

/// Takes line by line, up to the first that is not taken.
fn read_lines(alloc: Global, lines: &Lines, limit: usize) -> Result<Items, PyxError>
    ensures { Reads limit lines.now result }
{
    let mut reader = Reader::new(alloc);
    let mut number = 0;
    let mut rest = lines.text();
    while let Some((line, behind)) = first_line(rest) {
        number += 1;
        if let Err(why) = reader.step(line, limit) {
            return Err(refusal(why, number));
        }
        rest = behind;
    }
    finish(reader, number)
}

/// The items, where no element is open behind the lines.
fn finish(reader: Reader, count: u64) -> Result<Items, PyxError>
    requires { count < 2 ^ 63 }
    ensures { Ends reader count result }
{
    let Reader { stack, items, .. } = reader;
    if stack.is_empty() {
        Ok(items)
    } else {
        Err(PyxError::BadLine { line: count + 1 })
    }
}
