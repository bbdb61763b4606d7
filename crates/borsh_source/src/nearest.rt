// The known name that is nearest to an unknown one.
use crate::tree::Source;
use std::alloc::{AllocError, Global};
use strsim::levenshtein;

// The names of the format that are likely to be misspelled: the others differ in digits.
const LIKELY: &str =
    "bool usize isize String str Option Result Vec VecDeque LinkedList BTreeMap BTreeSet HashMap HashSet IndexMap IndexSet Box Rc Arc Cow PhantomData Range RangeInclusive Uuid IpAddr SocketAddr";

// The nearer of two names, by how many edits lead to each; the first of equals.
fn nearer<'a>(
    alloc: Global,
    name: &str,
    other: &'a str,
    best: Option<(&'a str, usize)>,
) -> Result<Option<(&'a str, usize)>, AllocError> {
    let edits = levenshtein(alloc, name, other)?;
    match best {
        Some((known, least)) => if edits < least {
            Ok(Some((other, edits)))
        } else {
            Ok(Some((known, least)))
        },
        None => Ok(Some((other, edits))),
    }
}

/// The name of an item of the tree, or of a type of the format, to which the fewest edits lead, if these are at most half as
/// many as the name has bytes. The only error is that an allocation failed. Left open: which of several.
///
/// ```
/// let meant = nearest_name(alloc, &source, "Acount")?;
/// ```
pub fn nearest_name(
    alloc: Global,
    source: &Source,
    name: &str,
) -> Result<Option<String>, AllocError> {
    let mut best: Option<(&str, usize)> = None;
    for item in &source.items {
        best = nearer(alloc, name, item.name.as_str(), best)?;
    }
    for known in LIKELY.split(' ') {
        best = nearer(alloc, name, known, best)?;
    }
    match best {
        Some((known, edits)) => if edits <= name.len() / 2 {
            Ok(Some(String::from_str(alloc, known)?))
        } else {
            Ok(None)
        },
        None => Ok(None),
    }
}
