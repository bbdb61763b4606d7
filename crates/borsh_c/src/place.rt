// Where a refusal is, for C.
ghost use Rattle.std.specs.Prelude.{◌≡◌, ◌+◌, ◌≤◌};
ghost use Rattle.borsh_c.specs.Places.{offset_of};

/// Where a refusal is: a byte of the value or of the JSON, and a part of the text that is the path of a part of the value. Each may be
/// absent.
#[repr(C)]
#[derive(Clone, Copy, Debug, PartialEq, Eq)]
pub struct Place {
    pub has_offset: bool,
    pub has_path: bool,
    pub offset: usize,
    /// How many bytes of the text come before the path.
    pub path_start: usize,
    pub path_length: usize,
}

/// A part of a text: how many bytes come before it, and how many it has.
#[derive(Clone, Copy, Debug, PartialEq, Eq)]
pub struct Span {
    pub start: usize,
    pub length: usize,
}

/// What refuses nothing has no place.
pub const NOWHERE: Place = Place {
    has_offset: false,
    has_path: false,
    offset: 0,
    path_start: 0,
    path_length: 0,
};

/// The place that a text of so many bytes tells. A path that isn't within it is cut.
pub fn place_in(length: usize, offset: Option<usize>, path: Option<Span>) -> Place
    ensures offset { offset_of result ≡ offset }
    ensures within { result.path_start + result.path_length ≤ length }
{
    let span = path.unwrap_or(Span {
        start: 0,
        length: 0,
    });
    let start = span.start.min(length);
    Place {
        has_offset: offset.is_some(),
        has_path: path.is_some(),
        offset: offset.unwrap_or(0),
        path_start: start,
        path_length: span.length.min(length - start),
    }
}
