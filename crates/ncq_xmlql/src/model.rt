//! Statements, queries, patterns and templates as values.
use ncq_base::{Bytes, Op, Sequence};
use ncq_path::Path;

/// A variable, by its name without the `$`, or the bytes of a literal.
pub enum Operand {
    Variable(Bytes),
    Literal(Bytes),
}

impl Drop for Operand {
    fn drop(self) {
        match self {
            Operand::Variable(variable) => drop(variable),
            Operand::Literal(literal) => drop(literal),
        }
    }
}

/// An attribute of a pattern: its value is compared with a literal or bound to a variable.
#[derive(Drop)]
pub struct PatternAttribute {
    pub name: Bytes,
    pub value: Operand,
}

/// The attributes of a pattern, in the order in which they are written.
pub type PatternAttributes = Sequence<PatternAttribute>;

/// What stands between the tags of a pattern: patterns, or one literal or variable. Empty content
/// is `Parts` without a pattern.
#[cycle(pattern)]
#[derive(Drop)]
pub enum Content {
    Parts(Patterns),
    Value(Operand),
}

/// What a pattern binds besides: nothing, the whole element, or its children.
#[derive(Drop)]
pub enum Suffix {
    Plain,
    ElementAs(Bytes),
    ContentAs(Bytes),
}

/// A pattern of elements.
#[cycle(pattern)]
#[derive(Drop)]
pub struct Pattern {
    /// The path to the elements.
    pub tag: Path,
    pub attributes: PatternAttributes,
    pub content: Content,
    pub suffix: Suffix,
}

/// Patterns, in the order in which they are written.
pub type Patterns = Sequence<Pattern>;

/// An item of a query: patterns under the root of a source, a comparison, or a predicate.
pub enum QueryItem {
    /// The arms are one pattern or more.
    Match {
        root: Bytes,
        arms: Patterns,
        source: Bytes,
    },
    /// One side at least is a variable.
    Condition {
        left: Operand,
        op: Op,
        right: Operand,
    },
    /// The variable satisfies the predicate, whose name is in lower case. The argument is in its
    /// own case and without quotation marks.
    Satisfies {
        variable: Bytes,
        predicate: Bytes,
        argument: Option<Bytes>,
    },
}

impl Drop for QueryItem {
    fn drop(self) {
        match self {
            QueryItem::Match { root, arms, source } => {
                drop(root);
                drop(arms);
                drop(source);
            }
            QueryItem::Condition { left, op: _, right } => {
                drop(left);
                drop(right);
            }
            QueryItem::Satisfies {
                variable,
                predicate,
                argument,
            } => {
                drop(variable);
                drop(predicate);
                drop(argument);
            }
        }
    }
}

/// The items of a query, in their order. The first is a match.
pub type QueryItems = Sequence<QueryItem>;

/// An attribute of an element that a template makes.
#[derive(Drop)]
pub struct TemplateAttribute {
    pub name: Bytes,
    pub value: Operand,
}

/// The attributes of such an element, in the order in which they are written.
pub type TemplateAttributes = Sequence<TemplateAttribute>;

/// What is made of each binding.
#[derive(Drop)]
pub enum Template {
    Variable(Bytes),
    Literal(Bytes),
    Element {
        tag: Bytes,
        attributes: TemplateAttributes,
        content: Templates,
    },
}

/// The content of an element that a template makes, in its order.
pub type Templates = Sequence<Template>;

/// What is asked, and what is made of each answer.
pub struct Query {
    pub items: QueryItems,
    /// Whether each forest of the answer is asked once.
    pub distinct: bool,
    pub template: Template,
}

impl Drop for Query {
    fn drop(self) {
        let Query {
            items,
            distinct: _,
            template,
        } = self;
        drop(items);
        drop(template);
    }
}

/// A statement that creates a continuous query.
pub struct Statement {
    pub name: Bytes,
    pub query: Query,
    /// The word behind `DO`, in lower case.
    pub action: Bytes,
    /// The word or the quoted text behind the action, in its own case and without quotation marks.
    pub argument: Option<Bytes>,
    /// The written start, an instant.
    pub start: Option<u64>,
    /// The written interval between two firings. It is 0 where none is written.
    pub every: u64,
    /// The written expiry, an instant.
    pub expire: Option<u64>,
}

impl Drop for Statement {
    fn drop(self) {
        let Statement {
            name,
            query,
            action,
            argument,
            start: _,
            every: _,
            expire: _,
        } = self;
        drop(name);
        drop(query);
        drop(action);
        drop(argument);
    }
}
