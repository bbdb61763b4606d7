// Whether a type takes a member, as far as names tell.
ghost use Rattle.borsh_json.specs.Words.{IsGivenUp, IsNoJsonReason, IsRepresented, Member, ShowsNoJson, definitions_in, definitions_of, forms_in, map_of, root_of};
ghost use Rattle.std.specs.Prelude.{IfErr, OnOk};

use crate::error::JsonError;
use crate::output::Output;
use crate::table::Table;
use borsh_values::Plan;
use borsh_walks::Definition;
use std::alloc::Global;
use std::collections::BTreeMap;

/// Whether `bytes` may be taken for a value of `root`, or signed as one, without its type: as [`to_json`](crate::to_json), but no
/// text is kept, and each refusal is the same.
///
/// So it refuses bytes that are no member of `root`, or that its type would refuse as far as names tell: a `bool` that is neither 0
/// nor 1, a `String` that isn't UTF-8, a non-zero number of 0, a NaN, a set or map whose keys don't ascend, as far as their order
/// is told; and also what has no JSON: two fields or variants of one name, lists with a length whose elements and maps whose keys have
/// no bytes, and values that nest more than 128 deep.
///
/// Determined: after `Ok` some JSON text represents the bytes as [`to_json`](crate::to_json)'s does, and what one represents is
/// refused with `OutOfMemory`, `Ambiguous` or `TooDeep` alone; the errors are as there. Left open: memory.
///
/// ```
/// assert!(rt; check_strict(alloc, "bool", &definitions, &[1]).is_ok());
/// assert!(rt; check_strict(alloc, "bool", &definitions, &[2]).is_err());
/// ```
pub fn check_strict<'a>(
    alloc: Global,
    root: &'a str,
    map: &'a BTreeMap<String, Definition>,
    bytes: &[u8],
) -> Result<(), JsonError<'a>>
    ensures member { OnOk result (Member (definitions_in map.now) root.now bytes.now) }
    ensures represented { OnOk result (IsRepresented (forms_in map.now) root.now bytes.now) }
    ensures reason { IfErr result (λ e. IsNoJsonReason (definitions_in map.now) root.now bytes.now e) }
    ensures refused { IfErr result (λ e. ShowsNoJson (forms_in map.now) root.now bytes.now e) }
    ensures complete { IsRepresented (forms_in map.now) root.now bytes.now → IfErr result IsGivenUp }
{
    let plan = Plan::new(alloc, root, map)?;
    let json = Table::new(alloc, &plan)?;
    json.check_strict(bytes)
}

impl<'a, 'l> Table<'a, 'l> {
    /// As the function [`check_strict`]. Left open: as there.
    pub fn check_strict(&self, bytes: &[u8]) -> Result<(), JsonError<'a>>
        ensures member { let l = self.now.plan.now in
            OnOk result (Member (definitions_of l) (root_of l) bytes.now) }
        ensures represented { let l = self.now.plan.now in
            OnOk result (IsRepresented (forms_in (map_of l)) (root_of l) bytes.now) }
        ensures reason { let l = self.now.plan.now in
            IfErr result (λ e. IsNoJsonReason (definitions_of l) (root_of l) bytes.now e) }
        ensures refused { let l = self.now.plan.now in
            IfErr result (λ e. ShowsNoJson (forms_in (map_of l)) (root_of l) bytes.now e) }
        ensures complete { let l = self.now.plan.now in
            IsRepresented (forms_in (map_of l)) (root_of l) bytes.now → IfErr result IsGivenUp }
    {
        self.write(bytes, Output::Nothing)?;
        Ok(())
    }
}
