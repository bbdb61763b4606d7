// The schemas of two of the types, as a user writes them.
ghost use Rattle.std.specs.Prelude.{codes, refl, ◌∷◌, []};
ghost use Rattle.borsh.specs.Schema.Container.{first_variant, later_variant};
ghost use Rattle.borsh.specs.Schema.Laws.Members.{describes_contramap, describes_number, describes_elements, describes_unit, describes_parts, describes_choice, all_none, all_one, choice_more, choice_none};
ghost use Rattle.borsh.specs.Schema.Laws.Quoted.{struct_described, struct_parts};
ghost use Rattle.borsh_samples.specs.MyEnum.{my_enum, my_enum_view};
ghost use Rattle.borsh_samples.specs.Schemas.{my_enum_definitions};

use super::my_enum::MyEnum;
use super::readme::A;
use borsh::BorshSchema;
use borsh::derived::{Case, Fork};
use borsh::schema::{
    Declaration, DefinitionMap, FieldTypes, SchemaResult, add_enum, add_named, declared,
};
use std::alloc::Global;

impl BorshSchema for A {
    ghost name = { codes "A" };

    ghost parts = { struct_parts (codes "A") (codes "x" ∷ codes "y" ∷ [])
        ⟦<(u64, (String, ())) as FieldTypes>⟧.described };

    ghost described = { struct_described (λ v. (v.x, (v.y, tt)))
        ⟦<(u64, (String, ())) as FieldTypes>⟧.described refl };

    fn declaration(alloc: Global) -> SchemaResult<Declaration> {
        declared(alloc, "A")
    }

    fn add_definitions_recursively(alloc: Global, map: &mut DefinitionMap) -> SchemaResult<()> {
        add_named::<(u64, (String, ()))>(alloc, "A", &["x", "y"], map)
    }

    ghost describes = { Self.described.describes };
}

impl BorshSchema for MyEnum {
    ghost name = { codes "MyEnum" };

    ghost parts = { my_enum_definitions };

    ghost described = { record {
      codec = my_enum;
      describes = λ C h. describes_contramap my_enum_view
          (describes_choice h.0
          (choice_more first_variant refl
          (describes_parts h.1.0.0 all_none)
          (choice_more (later_variant first_variant) refl
          (describes_parts h.1.1.0.0 (all_one (describes_number 1 h.1.1.0.1.0.0)))
          (choice_more
          (later_variant (later_variant first_variant))
          refl
          (describes_parts h.1.1.1.0
          (all_one
          (describes_contramap (λ v. v.items)
          (describes_elements h.1.1.1.1.0.0
          (describes_number 1 h.1.1.1.1.0.1.0.0)))))
          choice_none))));
    } };

    fn declaration(alloc: Global) -> SchemaResult<Declaration> {
        declared(alloc, "MyEnum")
    }

    fn add_definitions_recursively(alloc: Global, map: &mut DefinitionMap) -> SchemaResult<()> {
        add_enum::<Fork<Case<0, ()>, Fork<Case<1, (u8, ())>, Case<2, (Vec<u8>, ())>>>>(
            alloc,
            "MyEnum",
            &[("Zero", &[]), ("One", &[]), ("Many", &[])],
            map,
        )
    }

    ghost describes = { Self.described.describes };
}
