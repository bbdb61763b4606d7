// How names stand in texts.

use std::fmt;

/// A name in a text: an identifier as it is, any other name in quotation marks, with a backslash before each quotation mark and
/// backslash in it. So it is seen where a name ends.
///
/// ```
/// assert_eq!(rt; format!(in alloc; "{}", Name("Vec<u8>"))?.as_str(), "\"Vec<u8>\"");
/// ```
#[derive(Clone, Copy, Debug, PartialEq, Eq)]
pub struct Name<'a>(pub &'a str);

impl<'a> fmt::Display for Name<'a> {
    fn fmt<W: fmt::Write>(&self, f: &mut fmt::Formatter<W>) -> fmt::Result {
        if is_identifier(self.0) {
            return f.write_str(self.0);
        }
        f.write_char('"')?;
        for c in self.0.chars() {
            if c == '"' || c == '\\' {
                f.write_char('\\')?;
            }
            f.write_char(c)?;
        }
        f.write_char('"')
    }
}

/// Whether a name is letters, digits and underscores of ASCII, with no digit in front.
fn is_identifier(name: &str) -> bool {
    let bytes = name.as_bytes();
    match bytes {
        [] => false,
        [first, ..] => {
            let are_words = bytes
                .iter()
                .all(|byte| byte.is_ascii_alphanumeric() || *byte == b'_');
            !first.is_ascii_digit() && are_words
        }
    }
}
