// The rows of a file, by sections.
use std::alloc::{AllocError, Global};

/// A section of a file of rows.
#[derive(Drop)]
pub struct Section<'a> {
    pub name: &'a str,
    pub rows: Vec<&'a str>,
}

/// The sections of a file. Lines that begin with `#` are the heading of the rows below them, and its first line is the name of
/// their section.
pub fn sections_of<'a>(alloc: Global, text: &'a str) -> Result<Vec<Section<'a>>, AllocError> {
    let mut sections: Vec<Section<'a>> = Vec::new(alloc);
    let mut in_heading = false;
    for line in text.lines() {
        let heading = line.strip_prefix("# ");
        match heading {
            Some(_) if in_heading => {}
            Some(name) => {
                let rows = Vec::new(alloc);
                sections.push(Section { name, rows })?;
            }
            None => {
                if let Some(section) = sections.last_mut() {
                    if !line.is_empty() {
                        section.rows.push(line)?;
                    }
                }
            }
        }
        in_heading = heading.is_some();
    }
    Ok(sections)
}
