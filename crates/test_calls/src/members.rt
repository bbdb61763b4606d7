// Which bytes are members of a name: names that lead back to themselves, and enums without variants; types whose definitions
// are well-formed.
ghost use Rattle.std.specs.Prelude.{◌≡◌, true, List, ℕ, [], ◌∷◌, Option, Some, None};
ghost use Rattle.borsh.specs.Schema.Container.{Shape, sequence, product, choice};
ghost use Rattle.borsh.specs.WellFormed.{are_well_formed};
ghost use Rattle.test_calls.specs.Members.{HasOneMember, HasNoMember};

use borsh::schema::{BorshSchema, BorshSchemaContainer};
use example_generated::enums::Message;
use example_generated::library::Library;
use example_generated::readme::Stock;

/// A list of itself that is always empty has one member: the count, in four bytes.
fn a_list_of_itself_without_elements()
    ensures { (C : List ℕ → Option Shape) (x : List ℕ) → C x ≡ Some (sequence 4 0 0 x) → HasOneMember C x (0 ∷ 0 ∷ 0 ∷ 0 ∷ []) }
{}

/// A tuple of itself has no member.
fn a_tuple_of_itself()
    ensures { (C : List ℕ → Option Shape) (x : List ℕ) → C x ≡ Some (product (x ∷ [])) → HasNoMember C x }
{}

/// An enum without variants has no member.
fn an_enum_without_variants()
    ensures { (C : List ℕ → Option Shape) (x : List ℕ) (width : ℕ) → C x ≡ Some (choice width []) → HasNoMember C x }
{}

/// A name without a definition has no member.
fn a_name_without_a_definition()
    ensures { (C : List ℕ → Option Shape) (x : List ℕ) → C x ≡ None → HasNoMember C x }
{}

/// A generated enum, and structs of the library's types; the schema of schemas: lists, a map, a range, tuples, structs and enums.
fn definitions_are_well_formed()
    ensures message { are_well_formed ⟦<Message as BorshSchema>⟧.name
        ⟦<Message as BorshSchema>⟧.parts ≡ true }
    ensures library { are_well_formed ⟦<Library as BorshSchema>⟧.name
        ⟦<Library as BorshSchema>⟧.parts ≡ true }
    ensures stock { are_well_formed ⟦<Stock as BorshSchema>⟧.name
        ⟦<Stock as BorshSchema>⟧.parts ≡ true }
    ensures schemas { are_well_formed ⟦<BorshSchemaContainer as BorshSchema>⟧.name
        ⟦<BorshSchemaContainer as BorshSchema>⟧.parts ≡ true }
{}

#[test]
fn members_of_names_are_known() {
    a_list_of_itself_without_elements();
    a_tuple_of_itself();
    an_enum_without_variants();
    a_name_without_a_definition();
    definitions_are_well_formed();
}
