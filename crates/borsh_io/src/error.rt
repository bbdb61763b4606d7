// Errors of readers, writers and codecs. Left open of each call: none.
ghost use Rattle.std.specs.Prelude.{◌≡◌, ◌≢◌, OnOk, IfErr, IsNone, IsSomeAnd, MatchOption, None, Some};
ghost use Rattle.borsh_io.specs.Errors.{error_kind, error_text, text_bytes, kind_text, display_text};
ghost use Rattle.borsh_io.specs.declared.error.ErrorKind.TheVariants.{OutOfMemory};
ghost use Rattle.borsh_io.specs.declared.error.Text.TheVariants.{Owned};

use std::alloc::{AllocError, AllocFailed};
use std::fmt;
use std::fmt::{Debug, Display, Formatter};

/// The text of the error for collections whose elements have empty encodings: a short input could
/// announce any number of them.
pub const ERROR_ZST_FORBIDDEN: &str =
    "Collections of zero-sized types are not allowed due to deny-of-service concerns on deserialization.";

/// What kind of error it is. Kinds compare in the order of this list.
#[derive(Clone, Copy, Debug, PartialEq, Eq, PartialOrd, Ord, Hash)]
pub enum ErrorKind {
    NotFound,
    PermissionDenied,
    ConnectionRefused,
    ConnectionReset,
    ConnectionAborted,
    NotConnected,
    AddrInUse,
    AddrNotAvailable,
    BrokenPipe,
    AlreadyExists,
    WouldBlock,
    InvalidInput,
    /// The bytes are no encoding, or the value has none.
    InvalidData,
    TimedOut,
    /// The writer has no room.
    WriteZero,
    /// Nothing was read or written, and the call may be made again.
    Interrupted,
    Other,
    /// The input ended before a buffer was full.
    UnexpectedEof,
    /// An allocation failed.
    OutOfMemory,
}

impl ErrorKind {
    /// The text of an error that has none of its own.
    ///
    /// ```
    /// assert_eq!(rt; ErrorKind::WriteZero.as_str(), "write zero");
    /// ```
    pub fn as_str(&self) -> &'static str
        ensures { result.now ≡ kind_text self.now }
    {
        match *self {
            ErrorKind::NotFound => "entity not found",
            ErrorKind::PermissionDenied => "permission denied",
            ErrorKind::ConnectionRefused => "connection refused",
            ErrorKind::ConnectionReset => "connection reset",
            ErrorKind::ConnectionAborted => "connection aborted",
            ErrorKind::NotConnected => "not connected",
            ErrorKind::AddrInUse => "address in use",
            ErrorKind::AddrNotAvailable => "address not available",
            ErrorKind::BrokenPipe => "broken pipe",
            ErrorKind::AlreadyExists => "entity already exists",
            ErrorKind::WouldBlock => "operation would block",
            ErrorKind::InvalidInput => "invalid input parameter",
            ErrorKind::InvalidData => "invalid data",
            ErrorKind::TimedOut => "timed out",
            ErrorKind::WriteZero => "write zero",
            ErrorKind::Interrupted => "operation interrupted",
            ErrorKind::Other => "other os error",
            ErrorKind::UnexpectedEof => "unexpected end of file",
            ErrorKind::OutOfMemory => "out of memory",
        }
    }
}

/// The text of an error: fixed in the program, or put together when the error came up.
#[derive(Debug, Drop)]
pub enum Text {
    Fixed(&'static str),
    Owned(String),
}

impl Text {
    /// The text.
    ///
    /// ```
    /// assert_eq!(rt; Text::from("not a colour").as_str(), "not a colour");
    /// ```
    pub fn as_str(&self) -> &str
        ensures { result.now ≡ text_bytes self.now }
    {
        match self {
            Text::Fixed(text) => *text,
            Text::Owned(text) => text.as_str(),
        }
    }
}

impl From<&'static str> for Text {
    ghost from_gives = { λ text made. text_bytes made ≡ text.now };

    fn from(text: &'static str) -> Text {
        Text::Fixed(text)
    }
}

impl From<String> for Text {
    ghost from_gives = { λ text made. made ≡ Owned text };

    fn from(text: String) -> Text {
        Text::Owned(text)
    }
}

/// An error of a kind, with a text of its own or that of its kind. Making one doesn't allocate.
#[derive(Debug, Drop)]
pub struct Error {
    kind: ErrorKind,
    text: Option<Text>,
}

/// The result of a call that reads, writes, encodes or decodes.
pub type Result<T> = std::result::Result<T, Error>;

impl Error {
    /// An error with a text of its own, from a `&'static str`, a `String` or a [`Text`].
    ///
    /// ```
    /// let error = Error::new(ErrorKind::InvalidData, "not a colour");
    /// assert_eq!(rt; error.message(), "not a colour");
    /// ```
    pub fn new<T: Into<Text>>(kind: ErrorKind, text: T) -> Error
        ensures kind { error_kind result ≡ kind }
        ensures text { IsSomeAnd (error_text result) (T.converts text) }
    {
        Error {
            kind,
            text: Some(text.into()),
        }
    }

    /// An error of the kind `Other` with a text of its own.
    ///
    /// ```
    /// let error = Error::other("the device is gone");
    /// ```
    pub fn other<T: Into<Text>>(text: T) -> Error
        ensures kind { error_kind result ≡ ErrorKind.Other }
        ensures text { IsSomeAnd (error_text result) (T.converts text) }
    {
        Error::new(ErrorKind::Other, text)
    }

    /// The error's own text, if it has one.
    ///
    /// ```
    /// assert_eq!(rt; Error::other("the device is gone").get_ref(), Some("the device is gone"));
    /// assert!(rt; Error::from(ErrorKind::TimedOut).get_ref().is_none());
    /// ```
    pub fn get_ref(&self) -> Option<&str>
        ensures { MatchOption (error_text self.now) (IsNone result)
            (λ text. IsSomeAnd result (λ s. s.now ≡ text_bytes text)) }
    {
        match &self.text {
            Some(text) => Some(text.as_str()),
            None => None,
        }
    }

    /// What the error displays: its own text, or else that of its kind.
    ///
    /// ```
    /// assert_eq!(rt; Error::from(ErrorKind::TimedOut).message(), "timed out");
    /// ```
    pub fn message(&self) -> &str
        ensures { result.now ≡ display_text (error_kind self.now) (error_text self.now) }
    {
        match &self.text {
            Some(text) => text.as_str(),
            None => self.kind.as_str(),
        }
    }

    /// The error's own text, if it has one, taken out of it.
    ///
    /// ```
    /// if let Some(text) = error.into_inner() {
    ///     println!(rt; "{}", text.as_str())?;
    /// }
    /// ```
    pub fn into_inner(self) -> Option<Text>
        ensures { result ≡ error_text self }
    {
        self.text
    }

    /// The kind of the error.
    ///
    /// ```
    /// assert_eq!(rt; Error::other("the device is gone").kind(), ErrorKind::Other);
    /// ```
    pub fn kind(&self) -> ErrorKind
        ensures { result ≡ error_kind self.now }
    {
        self.kind
    }
}

/// `Ok` of an interruption, and any other error as it is: a loop that reads until it isn't interrupted
/// applies it to each error.
///
/// ```
/// loop {
///     match reader.read(buffer) {
///         Ok(n) => return Ok(n),
///         Err(e) => pass_over(e)?,
///     }
/// }
/// ```
pub fn pass_over(error: Error) -> Result<()>
    ensures ok { OnOk result (error_kind error ≡ ErrorKind.Interrupted) }
    ensures err { IfErr result (λ e. (e ≡ error) × (error_kind error ≢ ErrorKind.Interrupted)) }
{
    if matches!(error.kind, ErrorKind::Interrupted) {
        return Ok(());
    }
    Err(error)
}

impl From<ErrorKind> for Error {
    ghost from_gives = { λ kind e. (error_kind e ≡ kind) × (error_text e ≡ None) };

    fn from(kind: ErrorKind) -> Error {
        Error { kind, text: None }
    }
}

impl From<AllocError> for Error {
    ghost from_gives = { λ _ e. (error_kind e ≡ OutOfMemory) × (error_text e ≡ None) };

    fn from(_error: AllocError) -> Error {
        Error::from(ErrorKind::OutOfMemory)
    }
}

impl<T: Drop> From<AllocFailed<T>> for Error {
    ghost from_gives = { λ _ e. (error_kind e ≡ OutOfMemory) × (error_text e ≡ None) };

    fn from(_error: AllocFailed<T>) -> Error {
        Error::from(ErrorKind::OutOfMemory)
    }
}

impl Display for Error {
    ghost output = { λ e. Some (display_text (error_kind e) (error_text e)) };

    fn fmt<W: fmt::Write>(&self, f: &mut Formatter<W>) -> fmt::Result {
        match &self.text {
            Some(text) => Display::fmt(text.as_str(), f),
            None => f.write_str(self.kind.as_str()),
        }
    }
}

impl std::error::Error for Error {}
