// Ranges: their ends.
ghost use Rattle.std.specs.Prelude.{◌≡◌, codes, false, refl};
ghost use Rattle.std.specs.Range.{range_inclusive_start, range_inclusive_end, range_inclusive_exhausted};
ghost use Rattle.borsh_definitions.specs.Described.{defined, both, none};
ghost use Rattle.borsh_definitions.proofs.Laws.Members.{describes_contramap, describes_decoded_with, describes_parts, all_one, all_more};
ghost use Rattle.borsh_definitions.specs.Names.{applied};
ghost use Rattle.borsh_definitions.specs.Types.{range_of, range_from, range_to};
ghost use Rattle.borsh_definitions.proofs.Laws.Quoted.{decoded_with_described, fields_described, no_fields_described, range_described, struct_described};

use super::definitions::{DefinitionMap, SchemaResult};
use super::parts::{add_with_parts, field};
use super::schema::BorshSchema;
use borsh_walks::{Declaration, Definition, Fields};
use std::alloc::Global;
use std::ops::{Range, RangeFrom, RangeInclusive, RangeTo, RangeToInclusive};

impl<T: BorshSchema> BorshSchema for Range<T> {
    ghost name = { applied (codes "Range<") T.name };

    ghost parts = { defined (applied (codes "Range<") T.name) (range_of T.name) (both T.parts none) };

    ghost described = { range_described (λ r. (r.start, r.end)) (codes "Range<") T.described };

    fn declaration(alloc: Global) -> SchemaResult<Declaration> {
        let start = T::declaration(alloc)?;
        Ok(format!(in alloc; "Range<{start}>")?)
    }

    fn add_definitions_recursively(alloc: Global, map: &mut DefinitionMap) -> SchemaResult<()> {
        let fields = Fields::NamedFields(vec![in alloc;
            field::<T>(alloc, "start")?,
            field::<T>(alloc, "end")?,
        ]?);
        let definition = Definition::Struct { fields };
        add_with_parts::<(T, ())>(alloc, Self::declaration(alloc)?, definition, map)
    }

    ghost describes = { λ C h. describes_contramap (λ r. (r.start, r.end))
        (describes_parts h.0 (all_more (T.describes C h.1.0) (all_one (T.describes C h.1.0)))) };
}

impl<T: BorshSchema> BorshSchema for RangeInclusive<T> {
    ghost name = { applied (codes "RangeInclusive<") T.name };

    ghost parts = { defined (applied (codes "RangeInclusive<") T.name) (range_of T.name)
        (both T.parts none) };

    ghost described = { decoded_with_described (λ r. range_inclusive_exhausted r ≡ false)
        (range_described (λ r. (range_inclusive_start r, range_inclusive_end r))
        (codes "RangeInclusive<") T.described) };

    fn declaration(alloc: Global) -> SchemaResult<Declaration> {
        let start = T::declaration(alloc)?;
        Ok(format!(in alloc; "RangeInclusive<{start}>")?)
    }

    fn add_definitions_recursively(alloc: Global, map: &mut DefinitionMap) -> SchemaResult<()> {
        let fields = Fields::NamedFields(vec![in alloc;
            field::<T>(alloc, "start")?,
            field::<T>(alloc, "end")?,
        ]?);
        let definition = Definition::Struct { fields };
        add_with_parts::<(T, ())>(alloc, Self::declaration(alloc)?, definition, map)
    }

    ghost describes = { λ C h. describes_decoded_with (λ r. range_inclusive_exhausted r ≡ false)
        (describes_contramap (λ r. (range_inclusive_start r, range_inclusive_end r))
        (describes_parts h.0 (all_more (T.describes C h.1.0) (all_one (T.describes C h.1.0))))) };
}

impl<T: BorshSchema> BorshSchema for RangeFrom<T> {
    ghost name = { applied (codes "RangeFrom<") T.name };

    ghost parts = { defined (applied (codes "RangeFrom<") T.name) (range_from T.name) (both T.parts none) };

    ghost described = { struct_described (λ r. (r.start, tt))
        (fields_described T.described no_fields_described) refl };

    fn declaration(alloc: Global) -> SchemaResult<Declaration> {
        let start = T::declaration(alloc)?;
        Ok(format!(in alloc; "RangeFrom<{start}>")?)
    }

    fn add_definitions_recursively(alloc: Global, map: &mut DefinitionMap) -> SchemaResult<()> {
        let fields = Fields::NamedFields(vec![in alloc; field::<T>(alloc, "start")?]?);
        let definition = Definition::Struct { fields };
        add_with_parts::<(T, ())>(alloc, Self::declaration(alloc)?, definition, map)
    }

    ghost describes = { λ C h. describes_contramap (λ r. r.start)
        (describes_parts h.0 (all_one (T.describes C h.1.0))) };
}

impl<T: BorshSchema> BorshSchema for RangeTo<T> {
    ghost name = { applied (codes "RangeTo<") T.name };

    ghost parts = { defined (applied (codes "RangeTo<") T.name) (range_to T.name) (both T.parts none) };

    ghost described = { struct_described (λ r. (r.end, tt))
        (fields_described T.described no_fields_described) refl };

    fn declaration(alloc: Global) -> SchemaResult<Declaration> {
        let end = T::declaration(alloc)?;
        Ok(format!(in alloc; "RangeTo<{end}>")?)
    }

    fn add_definitions_recursively(alloc: Global, map: &mut DefinitionMap) -> SchemaResult<()> {
        let fields = Fields::NamedFields(vec![in alloc; field::<T>(alloc, "end")?]?);
        let definition = Definition::Struct { fields };
        add_with_parts::<(T, ())>(alloc, Self::declaration(alloc)?, definition, map)
    }

    ghost describes = { λ C h. describes_contramap (λ r. r.end)
        (describes_parts h.0 (all_one (T.describes C h.1.0))) };
}

impl<T: BorshSchema> BorshSchema for RangeToInclusive<T> {
    ghost name = { applied (codes "RangeToInclusive<") T.name };

    ghost parts = { defined (applied (codes "RangeToInclusive<") T.name) (range_to T.name)
        (both T.parts none) };

    ghost described = { struct_described (λ r. (r.end, tt))
        (fields_described T.described no_fields_described) refl };

    fn declaration(alloc: Global) -> SchemaResult<Declaration> {
        let end = T::declaration(alloc)?;
        Ok(format!(in alloc; "RangeToInclusive<{end}>")?)
    }

    fn add_definitions_recursively(alloc: Global, map: &mut DefinitionMap) -> SchemaResult<()> {
        let fields = Fields::NamedFields(vec![in alloc; field::<T>(alloc, "end")?]?);
        let definition = Definition::Struct { fields };
        add_with_parts::<(T, ())>(alloc, Self::declaration(alloc)?, definition, map)
    }

    ghost describes = { λ C h. describes_contramap (λ r. r.end)
        (describes_parts h.0 (all_one (T.describes C h.1.0))) };
}
