// Lists: a count of four bytes and the elements in order.
ghost use Rattle.std.specs.Prelude.{codes};
ghost use Rattle.std.specs.Arc.{arc_slice_items};
ghost use Rattle.std.specs.Box.{boxed_slice_items};
ghost use Rattle.std.specs.Cow.{cow_slice_items};
ghost use Rattle.std.specs.Rc.{rc_slice_items};
ghost use Rattle.borsh_definitions.proofs.Laws.Members.{describes_contramap, describes_counted, describes_elements};
ghost use Rattle.borsh_definitions.specs.Names.{applied};
ghost use Rattle.borsh_definitions.specs.Types.{list_definitions};
ghost use Rattle.borsh_definitions.proofs.Laws.Quoted.{contramap_described, list_described, slice_described};

use super::definitions::{DefinitionMap, SchemaResult};
use super::parts::add_list;
use super::schema::BorshSchema;
use borsh_walks::Declaration;
use std::alloc::Global;
use std::borrow::CowSlice;
use std::boxed::BoxedSlice;
use std::collections::{LinkedList, VecDeque};
use std::rc::RcSlice;
use std::sync::ArcSlice;

impl<T: BorshSchema> BorshSchema for Vec<T> {
    ghost name = { applied (codes "Vec<") T.name };

    ghost parts = { list_definitions (codes "Vec<") T.name T.parts };

    ghost described = { contramap_described (λ v. v.items) (list_described (codes "Vec<") T.described) };

    fn declaration(alloc: Global) -> SchemaResult<Declaration> {
        let element = T::declaration(alloc)?;
        Ok(format!(in alloc; "Vec<{element}>")?)
    }

    fn add_definitions_recursively(alloc: Global, map: &mut DefinitionMap) -> SchemaResult<()> {
        add_list::<T>(alloc, Self::declaration(alloc)?, map)
    }

    ghost describes = { λ C h. describes_contramap (λ v. v.items)
        (describes_elements h.0 (T.describes C h.1.0)) };
}

impl<T: BorshSchema> BorshSchema for VecDeque<T> {
    ghost name = { applied (codes "VecDeque<") T.name };

    ghost parts = { list_definitions (codes "VecDeque<") T.name T.parts };

    ghost described = { contramap_described (λ v. v.items) (list_described (codes "VecDeque<") T.described) };

    fn declaration(alloc: Global) -> SchemaResult<Declaration> {
        let element = T::declaration(alloc)?;
        Ok(format!(in alloc; "VecDeque<{element}>")?)
    }

    fn add_definitions_recursively(alloc: Global, map: &mut DefinitionMap) -> SchemaResult<()> {
        add_list::<T>(alloc, Self::declaration(alloc)?, map)
    }

    ghost describes = { λ C h. describes_contramap (λ v. v.items)
        (describes_elements h.0 (T.describes C h.1.0)) };
}

impl<T: BorshSchema> BorshSchema for LinkedList<T> {
    ghost name = { applied (codes "LinkedList<") T.name };

    ghost parts = { list_definitions (codes "LinkedList<") T.name T.parts };

    ghost described = { list_described (codes "LinkedList<") T.described };

    fn declaration(alloc: Global) -> SchemaResult<Declaration> {
        let element = T::declaration(alloc)?;
        Ok(format!(in alloc; "LinkedList<{element}>")?)
    }

    fn add_definitions_recursively(alloc: Global, map: &mut DefinitionMap) -> SchemaResult<()> {
        add_list::<T>(alloc, Self::declaration(alloc)?, map)
    }

    ghost describes = { λ C h. describes_elements h.0 (T.describes C h.1.0) };
}

impl<T: BorshSchema> BorshSchema for BoxedSlice<T> {
    ghost name = { applied (codes "Vec<") T.name };

    ghost parts = { list_definitions (codes "Vec<") T.name T.parts };

    ghost described = { contramap_described boxed_slice_items (list_described (codes "Vec<") T.described) };

    fn declaration(alloc: Global) -> SchemaResult<Declaration> {
        let element = T::declaration(alloc)?;
        Ok(format!(in alloc; "Vec<{element}>")?)
    }

    fn add_definitions_recursively(alloc: Global, map: &mut DefinitionMap) -> SchemaResult<()> {
        add_list::<T>(alloc, Self::declaration(alloc)?, map)
    }

    ghost describes = { λ C h. describes_contramap boxed_slice_items
        (describes_elements h.0 (T.describes C h.1.0)) };
}

impl<T: BorshSchema> BorshSchema for RcSlice<T> {
    ghost name = { applied (codes "Vec<") T.name };

    ghost parts = { list_definitions (codes "Vec<") T.name T.parts };

    ghost described = { contramap_described rc_slice_items (list_described (codes "Vec<") T.described) };

    fn declaration(alloc: Global) -> SchemaResult<Declaration> {
        let element = T::declaration(alloc)?;
        Ok(format!(in alloc; "Vec<{element}>")?)
    }

    fn add_definitions_recursively(alloc: Global, map: &mut DefinitionMap) -> SchemaResult<()> {
        add_list::<T>(alloc, Self::declaration(alloc)?, map)
    }

    ghost describes = { λ C h. describes_contramap rc_slice_items
        (describes_elements h.0 (T.describes C h.1.0)) };
}

impl<T: BorshSchema> BorshSchema for ArcSlice<T> {
    ghost name = { applied (codes "Vec<") T.name };

    ghost parts = { list_definitions (codes "Vec<") T.name T.parts };

    ghost described = { contramap_described arc_slice_items
        (list_described (codes "Vec<") T.described) };

    fn declaration(alloc: Global) -> SchemaResult<Declaration> {
        let element = T::declaration(alloc)?;
        Ok(format!(in alloc; "Vec<{element}>")?)
    }

    fn add_definitions_recursively(
        alloc: Global,
        definitions: &mut DefinitionMap,
    ) -> SchemaResult<()> {
        add_list::<T>(alloc, Self::declaration(alloc)?, definitions)
    }

    ghost describes = { λ C h. describes_contramap arc_slice_items
        (describes_elements h.0 (T.describes C h.1.0)) };
}

impl<T: BorshSchema> BorshSchema for CowSlice<'_, T> {
    ghost name = { applied (codes "Vec<") T.name };

    ghost parts = { list_definitions (codes "Vec<") T.name T.parts };

    ghost described = { contramap_described cow_slice_items (list_described (codes "Vec<") T.described) };

    fn declaration(alloc: Global) -> SchemaResult<Declaration> {
        let element = T::declaration(alloc)?;
        Ok(format!(in alloc; "Vec<{element}>")?)
    }

    fn add_definitions_recursively(alloc: Global, map: &mut DefinitionMap) -> SchemaResult<()> {
        add_list::<T>(alloc, Self::declaration(alloc)?, map)
    }

    ghost describes = { λ C h. describes_contramap cow_slice_items
        (describes_elements h.0 (T.describes C h.1.0)) };
}

impl<T: BorshSchema> BorshSchema for &[T] {
    ghost name = { applied (codes "Vec<") T.name };

    ghost parts = { list_definitions (codes "Vec<") T.name T.parts };

    ghost described = { contramap_described (λ r. r.now) (slice_described (codes "Vec<") T.described) };

    fn declaration(alloc: Global) -> SchemaResult<Declaration> {
        let element = T::declaration(alloc)?;
        Ok(format!(in alloc; "Vec<{element}>")?)
    }

    fn add_definitions_recursively(alloc: Global, map: &mut DefinitionMap) -> SchemaResult<()> {
        add_list::<T>(alloc, Self::declaration(alloc)?, map)
    }

    ghost describes = { λ C h. describes_contramap (λ r. r.now)
        (describes_counted h.0 (T.describes C h.1.0)) };
}
