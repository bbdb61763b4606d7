// The types that the format has, by the names that they are written with.
ghost use Rattle.std.specs.Prelude.{◌≡◌, ℕ, List, MatchOption};
ghost use Rattle.borsh_source.specs.Errors.{IsNoFormat};
ghost use Rattle.borsh_source.specs.declared.formats.Kind.{Kind};
ghost use Rattle.borsh_source.specs.Formats.{IsFormat, IsOtherKind, most_arguments, non_zero_widths, read_arguments, widths};
ghost use Rattle.borsh_source.specs.Lists.{IsListed};

/// How a type of the format is made of its arguments.
#[derive(Clone, Copy, PartialEq, Eq)]
pub enum Kind {
    /// So many bytes.
    Bytes(u8),
    /// A text.
    Text,
    /// A list of bytes, as `Vec<u8>`.
    Octets,
    /// No bytes, whatever the arguments are.
    Phantom,
    /// What its argument is.
    Through,
    List,
    Map,
    Option,
    Result,
    /// Both ends.
    Range,
    RangeFrom,
    RangeTo,
    RangeFull,
    Ipv4Addr,
    Ipv6Addr,
    IpAddr,
    SocketAddrV4,
    SocketAddrV6,
    SocketAddr,
    /// The parts in order. It has no name by which it is written, nor has an array.
    Tuple,
    /// So many elements.
    Array(usize),
}

/// How many arguments of a type of the format are read.
pub fn read_arguments(kind: Kind) -> usize
    ensures { result ≡ read_arguments kind }
{
    match kind {
        Kind::Map | Kind::Result => 2,
        Kind::Through | Kind::List | Kind::Option | Kind::Range | Kind::RangeFrom | Kind::RangeTo =>
            1,
        _ => 0,
    }
}

/// How many arguments a type of the format may be written with: a hasher and an allocator stand behind those that are read.
pub fn most_arguments(kind: Kind) -> usize
    ensures { result ≡ most_arguments kind }
{
    match kind {
        Kind::Map => 4,
        Kind::List => 3,
        Kind::Result | Kind::Through => 2,
        Kind::Phantom | Kind::Option | Kind::Range | Kind::RangeFrom | Kind::RangeTo => 1,
        _ => 0,
    }
}

// The name that the schema of a type of so many bytes has, and how many.
fn width_of(name: &str) -> Option<(&'static str, u8)>
    ensures { MatchOption result ((stem : List ℕ) (width : ℕ) → IsListed (name.now, stem, width) widths → ⊥)
        (λ p. IsListed (name.now, p.0.now, p.1) widths) }
{
    match name {
        "u8" => Some(("u8", 1)),
        "u16" => Some(("u16", 2)),
        "u32" => Some(("u32", 4)),
        "u64" => Some(("u64", 8)),
        "u128" => Some(("u128", 16)),
        "i8" => Some(("i8", 1)),
        "i16" => Some(("i16", 2)),
        "i32" => Some(("i32", 4)),
        "i64" => Some(("i64", 8)),
        "i128" => Some(("i128", 16)),
        "usize" => Some(("u64", 8)),
        "isize" => Some(("i64", 8)),
        "bool" => Some(("bool", 1)),
        "f32" => Some(("f32", 4)),
        "f64" => Some(("f64", 8)),
        "Uuid" => Some(("Uuid", 16)),
        _ => None,
    }
}

// The same of the numbers other than zero.
fn non_zero_width_of(name: &str) -> Option<(&'static str, u8)>
    ensures { MatchOption result ((stem : List ℕ) (width : ℕ) → IsListed (name.now, stem, width) non_zero_widths → ⊥)
        (λ p. IsListed (name.now, p.0.now, p.1) non_zero_widths) }
{
    match name {
        "NonZeroU8" => Some(("NonZeroU8", 1)),
        "NonZeroU16" => Some(("NonZeroU16", 2)),
        "NonZeroU32" => Some(("NonZeroU32", 4)),
        "NonZeroU64" => Some(("NonZeroU64", 8)),
        "NonZeroU128" => Some(("NonZeroU128", 16)),
        "NonZeroUsize" => Some(("NonZeroUsize", 8)),
        "NonZeroI8" => Some(("NonZeroI8", 1)),
        "NonZeroI16" => Some(("NonZeroI16", 2)),
        "NonZeroI32" => Some(("NonZeroI32", 4)),
        "NonZeroI64" => Some(("NonZeroI64", 8)),
        "NonZeroI128" => Some(("NonZeroI128", 16)),
        _ => None,
    }
}

// What any other type is.
fn kind_of(name: &str) -> Option<Kind>
    ensures { MatchOption result ((kind : Kind) → IsOtherKind name.now kind → ⊥) (IsOtherKind name.now) }
{
    match name {
        "String" | "str" => Some(Kind::Text),
        "Bytes" | "BytesMut" => Some(Kind::Octets),
        "PhantomData" => Some(Kind::Phantom),
        "Box" | "Rc" | "Arc" | "Cow" | "Wrapping" => Some(Kind::Through),
        "Vec" | "VecDeque" | "LinkedList" | "BTreeSet" | "HashSet" | "IndexSet" => Some(Kind::List),
        "BTreeMap" | "HashMap" | "IndexMap" => Some(Kind::Map),
        "Option" => Some(Kind::Option),
        "Result" => Some(Kind::Result),
        "Range" | "RangeInclusive" => Some(Kind::Range),
        "RangeFrom" => Some(Kind::RangeFrom),
        "RangeTo" | "RangeToInclusive" => Some(Kind::RangeTo),
        "RangeFull" => Some(Kind::RangeFull),
        "Ipv4Addr" => Some(Kind::Ipv4Addr),
        "Ipv6Addr" => Some(Kind::Ipv6Addr),
        "IpAddr" => Some(Kind::IpAddr),
        "SocketAddrV4" => Some(Kind::SocketAddrV4),
        "SocketAddrV6" => Some(Kind::SocketAddrV6),
        "SocketAddr" => Some(Kind::SocketAddr),
        _ => None,
    }
}

/// The type of the format that is written with this name: the beginning of its schema's name, and what it is.
pub fn format_of<'a>(name: &'a str) -> Option<(&'a str, Kind)>
    ensures { MatchOption result (IsNoFormat name.now) (λ p. IsFormat name.now p.0.now p.1) }
{
    if let Some((stem, width)) = width_of(name) {
        return Some((stem, Kind::Bytes(width)));
    }
    if let Some((stem, width)) = non_zero_width_of(name) {
        return Some((stem, Kind::Bytes(width)));
    }
    let kind = kind_of(name)?;
    Some((name, kind))
}
