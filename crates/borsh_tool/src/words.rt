// The words of the command line.
use std::env::FillError;
use std::io;
use std::rt::Env;

/// How many bytes a word has at most.
const LONGEST: usize = 131072;

/// The words of the command line. The paths of std are texts, so of a word that isn't UTF-8 it is told how such a file can be given,
/// and there are no words then.
pub fn words_of(rt: &HostRuntime) -> io::Result<Option<Vec<String>>> {
    let mut words = Vec::new(rt.alloc());
    let mut room: Vec<u8> = Vec::new(rt.alloc());
    room.resize(LONGEST, 0)?;
    for index in 0..usize::MAX {
        let length = match rt.arg(index, room.as_mut_slice()) {
            Ok(length) => length,
            Err(FillError::NotPresent) => break,
            Err(FillError::TooLong) => return Err(io::Error::from(io::ErrorKind::InvalidInput)),
        };
        let Some(word) = word_of(rt, room.as_slice().get(..length).unwrap_or(&[]))? else {
            return Ok(None);
        };
        words.push(word)?;
    }
    Ok(Some(words))
}

/// A word of these bytes.
fn word_of(rt: &HostRuntime, bytes: &[u8]) -> io::Result<Option<String>> {
    if let Ok(word) = std::str::from_utf8(bytes) {
        return Ok(Some(String::from_str(rt.alloc(), word)?));
    }
    let name = bytes.escape_ascii();
    rt.eprintln(format_args!(
        "borsh: {name}: this name isn't UTF-8, so no path; give the file as standard input: - <FILE"
    ))?;
    Ok(None)
}
