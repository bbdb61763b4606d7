// Whether all encodings of a name are empty.
ghost use Rattle.borsh_walks.specs.Container.{Reaches, zero_size_references};
ghost use Rattle.borsh_walks.specs.Counts.{definitions_of, LooksOn};
ghost use Rattle.borsh_walks.specs.Definitions.{shape_of};
ghost use Rattle.borsh_walks.specs.ZeroAnswer.{DecidesZeroSize, ZeroCounted, ZeroMarked, ZeroTable, zero_size_parts};
ghost use Rattle.std.specs.Prelude.{◌≡◌, IfOk, OnOk, is_none};

use crate::counted::{Counted, Question};
use crate::definition::Definition;
use crate::parts::zero_size_part;
use crate::stack::Spot;
use std::alloc::{AllocError, Global};
use std::collections::BTreeMap;

/// Whether the definition says without its parts that it is not of zero size.
pub fn never_zero(definition: &Definition) -> bool
    ensures { result ≡ is_none (zero_size_references (shape_of definition.now)) }
{
    match definition {
        Definition::Primitive(size) => *size != 0,
        Definition::Sequence { length_width, .. } => *length_width != 0,
        Definition::Enum { tag_width, .. } => *tag_width != 0,
        Definition::Tuple { .. } | Definition::Struct { .. } => false,
    }
}

/// Whether the name is of zero size. A name on the stack is marked `false`: if it is met again, it is not of zero size, and
/// neither is any name below it on the stack; its mark is `true` once all its parts are of zero size. Left open: memory.
pub fn is_zero<'a, 'm: 'a>(
    alloc: Global,
    name: &'a str,
    table: &mut BTreeMap<&'a str, bool>,
    counted: &mut Counted<'m, '_>,
) -> Result<bool, AllocError>
    requires { ZeroTable (definitions_of counted.old) table.old }
    ensures same { LooksOn counted.old counted.new }
    ensures answer { IfOk result (DecidesZeroSize (definitions_of counted.old) name.now) }
    ensures table { OnOk result (ZeroTable (definitions_of counted.old) table.new) }
    ensures marked { OnOk result (ZeroMarked (definitions_of counted.old) name.now table.old table.new) }
    ensures counts { ZeroCounted (λ x. Reaches (definitions_of counted.old) zero_size_parts name.now x)
        counted.old counted.new table.old table.new result }
{
    if let Some(zero) = table.get(name) {
        return Ok(*zero);
    }
    let Some(definition) = counted.look(Question::Zero, name) else {
        return Ok(false);
    };
    table.insert(name, false)?;
    let mut stack: Vec<Spot<'a>> = Vec::new(alloc);
    let mut spot = Spot::at(name, definition);
    loop {
        if never_zero(spot.definition) {
            return Ok(false);
        }
        match zero_size_part(spot.definition, spot.next) {
            Some(part) => match table.get(part) {
                Some(true) => spot.next += 1,
                Some(false) => return Ok(false),
                None => {
                    let Some(definition) = counted.look(Question::Zero, part) else {
                        return Ok(false);
                    };
                    table.insert(part, false)?;
                    stack.push(spot)?;
                    spot = Spot::at(part, definition);
                }
            },
            None => {
                table.insert(spot.name, true)?;
                match stack.pop() {
                    Some(above) => spot = above,
                    None => return Ok(true),
                }
            }
        }
    }
}
