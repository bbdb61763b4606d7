// The values of expressions.
ghost use Rattle.std.specs.Prelude.{IfOk, IfSome};
ghost use Rattle.borsh_source.specs.Errors.{Answers};
ghost use Rattle.borsh_source.specs.Numbers.{Applies, Evaluates, IsNumber};
ghost use Rattle.borsh_source.specs.Views.{IsIndexed, given_in, parameters_of, source_of};

use crate::context::{Context, element, nowhere, spend, within};
use crate::error::{Cause, CompileError, refused};
use crate::tree::{ExpressionKind, ItemKind, Operator, Place};
use crate::uses::{Given, Scope, given_as, outside};

// The number that two numbers give, if it is one from 0 to 2^64 - 1.
fn applied(operator: Operator, left: u64, right: u64) -> Option<u64>
    ensures { IfSome result (λ n. Applies operator left right n) }
{
    match operator {
        Operator::Add => left.checked_add(right),
        Operator::Subtract => left.checked_sub(right),
        Operator::Multiply => left.checked_mul(right),
        Operator::Divide => if right == 0 { None } else { Some(left / right) },
        Operator::Remainder => if right == 0 { None } else { Some(left % right) },
        Operator::ShiftLeft => if right < 64 {
            left.checked_mul(1 << right)
        } else {
            None
        },
        Operator::ShiftRight => if right < 64 {
            Some(left >> right)
        } else {
            None
        },
        Operator::And => Some(left & right),
        Operator::Or => Some(left | right),
        Operator::Xor => Some(left ^ right),
    }
}

/// The value of the expression at an index.
#[cycle(numbers)]
pub fn value_of(
    context: &Context<'_>,
    scope: Scope<'_>,
    at: usize,
    depth: u32,
    left: &mut u64,
) -> Result<u64, CompileError>
    requires { IsIndexed context.now }
    ensures { Answers (source_of context.now) result (λ n. Evaluates (source_of context.now)
        (parameters_of scope.entry) (given_in scope.entry) at n) }
{
    let Some(written) = element(&context.source.expressions, at) else {
        return Err(nowhere(context));
    };
    spend(context, written.place, 1, left)?;
    let less = within(context, written.place, depth)?;
    match &written.kind {
        ExpressionKind::Number(number) => Ok(*number),
        ExpressionKind::Name(name) => {
            number_named(context, scope, name.as_str(), written.place, less, left)
        }
        ExpressionKind::Negated(_) => Err(refused(
            context.alloc,
            written.place,
            Cause::NoValue,
            "",
        )),
        ExpressionKind::Binary {
            operator,
            left: first,
            right: second,
        } => {
            let first = value_of(context, scope, *first, less, left)?;
            let second = value_of(context, scope, *second, less, left)?;
            match applied(*operator, first, second) {
                Some(number) => Ok(number),
                None => Err(refused(context.alloc, written.place, Cause::NoValue, "")),
            }
        }
    }
}

/// The number of a name: a constant parameter, or a constant.
#[cycle(numbers)]
pub fn number_named(
    context: &Context<'_>,
    scope: Scope<'_>,
    name: &str,
    place: Place,
    depth: u32,
    left: &mut u64,
) -> Result<u64, CompileError>
    requires { IsIndexed context.now }
    ensures { Answers (source_of context.now) result (λ n. IsNumber (source_of context.now)
        (parameters_of scope.entry) (given_in scope.entry) name.now n) }
{
    if let Some(given) = given_as(scope.parameters, scope.given, name) {
        return match given {
            Given::Number(number) => Ok(*number),
            _ => Err(refused(context.alloc, place, Cause::NoNumber, name)),
        };
    }
    let Some((_, item)) = context.item(name, place)? else {
        return Err(refused(context.alloc, place, Cause::UnknownConstant, name));
    };
    let ItemKind::Constant(expression) = &item.kind else {
        return Err(refused(context.alloc, place, Cause::NoNumber, name));
    };
    let less = within(context, place, depth)?;
    value_of(context, outside(), *expression, less, left)
}
