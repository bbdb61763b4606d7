// Items and types as the author of a schema writes them.

/// A place in a text: the line and the column of a character, both from 1; 0 and 0 where there is no text.
#[derive(Clone, Copy, PartialEq, Eq)]
pub struct Place {
    pub line: u32,
    pub column: u32,
}

/// The items of a text, and all types and expressions that are written in it. Items name types, and types and expressions
/// their parts, by their index in `types` and `expressions`.
///
/// Any values can be compiled: an index that leads nowhere, or round in a circle, is refused there.
#[derive(Drop)]
pub struct Source {
    pub items: Vec<Item>,
    pub types: Vec<Type>,
    pub expressions: Vec<Expression>,
}

/// A struct, an enum, an alias of a type or a constant.
#[derive(Drop)]
pub struct Item {
    /// That of its name.
    pub place: Place,
    pub name: String,
    /// Without lifetimes.
    pub parameters: Vec<Parameter>,
    pub kind: ItemKind,
}

/// What an item is.
#[derive(Drop)]
pub enum ItemKind {
    Struct(Fields),
    Enum {
        /// Of `#[borsh(use_discriminant = ..)]`, if it is there.
        use_discriminant: Option<bool>,
        variants: Vec<Variant>,
    },
    /// `type Name<..> = TYPE;`: the index of the type.
    Alias(usize),
    /// `const NAME: .. = EXPRESSION;`: the index of the expression.
    Constant(usize),
}

/// A type parameter, or a constant one (`const N: usize`).
#[derive(Drop)]
pub struct Parameter {
    pub name: String,
    pub constant: bool,
}

/// The fields of a struct or of a variant.
#[derive(Drop)]
pub enum Fields {
    Named(Vec<Field>),
    Unnamed(Vec<Field>),
    Empty,
}

/// A field.
#[derive(Drop)]
pub struct Field {
    pub place: Place,
    /// Empty where the fields have no names.
    pub name: String,
    /// The index of its type.
    pub written: usize,
    /// Whether it has `#[borsh(skip)]`.
    pub skipped: bool,
}

/// A variant of an enum.
#[derive(Drop)]
pub struct Variant {
    /// That of its name.
    pub place: Place,
    pub name: String,
    /// The index of the expression behind `=`, if there is one.
    pub discriminant: Option<usize>,
    pub fields: Fields,
}

/// A type as it is written.
#[derive(Drop)]
pub struct Type {
    pub place: Place,
    pub kind: TypeKind,
}

/// The form of a type.
#[derive(Drop)]
pub enum TypeKind {
    /// A path: its last segment, and the indices in `types` of what stands in `<..>` there, without lifetimes. `str` and `u8`
    /// are paths too, and so is an argument that is the name of a constant.
    Path { name: String, arguments: Vec<usize> },
    /// `&T` or `&mut T`.
    Reference(usize),
    /// `[T]`.
    Slice(usize),
    /// `[T; EXPRESSION]`: the type, and the expression.
    Array { element: usize, length: usize },
    /// `(A, B, ..)`; `()` has none.
    Tuple(Vec<usize>),
    /// A number, or an expression in braces, that stands as an argument of a path: its index in `expressions`.
    Constant(usize),
}

/// An expression of whole numbers.
#[derive(Drop)]
pub struct Expression {
    pub place: Place,
    pub kind: ExpressionKind,
}

/// The form of an expression.
#[derive(Drop)]
pub enum ExpressionKind {
    Number(u64),
    /// A constant, or a constant parameter.
    Name(String),
    /// `-a`.
    Negated(usize),
    /// `a + b`, and so on.
    Binary {
        operator: Operator,
        left: usize,
        right: usize,
    },
}

/// What two numbers are put together by.
#[derive(Clone, Copy, PartialEq, Eq)]
pub enum Operator {
    Add,
    Subtract,
    Multiply,
    Divide,
    Remainder,
    ShiftLeft,
    ShiftRight,
    And,
    Or,
    Xor,
}
