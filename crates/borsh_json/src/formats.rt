// The format's own types: a name is one of theirs if it is composed of the names of its parts, and has their definition. Names are
// compared with the composed ones and never taken apart, since a container may give any definition to any name.
ghost use Rattle.borsh_json.specs.Words.{HasForm, IsCollection, IsMapName, IsNamed, IsOption, IsSetName, IsUnit, choice, form_of, form_of_struct, forms_of, joined, plan_names, sequence, tuple, unnamed, variant_bytes};
ghost use Rattle.std.specs.Prelude.{◌≡◌, ◌++◌, ◌∷◌, [], ℕ, List, Decides, MatchBool, MatchOption, Some, codes, map, option_map, slice_get, string_bytes};

use crate::definitions::Definitions;
use borsh_walks::{Declaration, Definition, DiscriminantValue, Fields, VariantName};

/// What of a name comes behind these pieces; none if it doesn't begin with them.
pub fn behind<'n>(name: &'n str, pieces: &[&str]) -> Option<&'n str>
    ensures { MatchOption result ((rest : List ℕ) → name.now ≡ joined pieces.now ++ rest → ⊥)
        (λ rest. name.now ≡ joined pieces.now ++ rest.now) }
{
    let mut rest = name;
    for piece in pieces {
        rest = rest.strip_prefix(*piece)?;
    }
    Some(rest)
}

/// Whether a name is these pieces, one after another.
pub fn is_composed(name: &str, pieces: &[&str]) -> bool
    ensures { Decides result (name.now ≡ joined pieces.now) }
{
    match behind(name, pieces) {
        Some(rest) => rest.is_empty(),
        None => false,
    }
}

/// The place of the value of an `Option`; none if the name at the place isn't one.
pub fn option_part(
    definitions: &Definitions<'_, '_>,
    at: usize,
    definition: &Definition,
) -> Option<usize>
    ensures { (x : List ℕ) → HasForm definitions.now at (form_of definition.now) x →
        MatchOption result ((p : List ℕ) → IsOption (forms_of definitions.now) x p → ⊥)
        (λ k. (p : List ℕ) × IsNamed definitions.now k p × IsOption (forms_of definitions.now) x p) }
{
    let Definition::Enum {
        tag_width,
        variants,
    } = definition
    else {
        return None;
    };
    if *tag_width == 1 && are_of_option(definitions, at, variants.as_slice()) {
        Some(definitions.part(at, 1))
    } else {
        None
    }
}

/// Whether the variants of the name at a place are those of an `Option`.
fn are_of_option(
    definitions: &Definitions<'_, '_>,
    at: usize,
    variants: &[(DiscriminantValue, VariantName, Declaration)],
) -> bool
    ensures { let vs = map variant_bytes variants.now in
        (x : List ℕ) → HasForm definitions.now at (choice 1 vs) x → MatchBool result
        ((p : List ℕ) × (slice_get (map (λ v. v.2) vs) 1 ≡ Some p) × IsOption (forms_of definitions.now) x p)
        ((p : List ℕ) → IsOption (forms_of definitions.now) x p → ⊥) }
{
    if variants.len() != 2 {
        return false;
    }
    let (none, some) = (&variants[0], &variants[1]);
    if !is_variant(none, 0, "None") {
        return false;
    }
    if !is_variant(some, 1, "Some") {
        return false;
    }
    if !is_unit(definitions, definitions.part(at, 0)) {
        return false;
    }
    is_option_name(definitions.name(at), some)
}

/// Whether the name at a place is `()`, without bytes.
fn is_unit(definitions: &Definitions<'_, '_>, at: usize) -> bool
    ensures { (x : List ℕ) → IsNamed definitions.now at x →
        Decides result (IsUnit (forms_of definitions.now) x) }
{
    definitions.name(at) == "()" && definitions.is_zero_size(at)
}

fn is_variant(variant: &(DiscriminantValue, VariantName, Declaration), tag: i64, name: &str) -> bool
    ensures { Decides result ((variant.now.0 ≡ tag) × (string_bytes variant.now.1 ≡ name.now)) }
{
    variant.0 == tag && variant.1.as_str() == name
}

fn is_option_name(name: &str, some: &(DiscriminantValue, VariantName, Declaration)) -> bool
    ensures { Decides result (name.now ≡ codes "Option<" ++ string_bytes some.now.2 ++ codes ">") }
{
    is_composed(name, &["Option<", some.2.as_str(), ">"])
}

/// Whether a struct has one field, without a name.
pub fn is_newtype(definition: &Definition) -> bool
    ensures { MatchBool result ((p : List ℕ) × (form_of definition.now ≡ unnamed (p ∷ [])))
        ((p : List ℕ) → form_of definition.now ≡ unnamed (p ∷ []) → ⊥) }
{
    match definition {
        Definition::Struct { fields } => has_one_unnamed(fields),
        _ => false,
    }
}

fn has_one_unnamed(fields: &Fields) -> bool
    ensures { MatchBool result ((p : List ℕ) × (form_of_struct fields.now ≡ unnamed (p ∷ [])))
        ((p : List ℕ) → form_of_struct fields.now ≡ unnamed (p ∷ []) → ⊥) }
{
    match fields {
        Fields::UnnamedFields(parts) => parts.len() == 1,
        _ => false,
    }
}

/// Whether a definition is that of a list with a length prefix of four bytes, of any length.
pub fn is_list(definition: &Definition) -> bool
    ensures { MatchBool result ((e : List ℕ) × (form_of definition.now ≡ sequence 4 0 4294967295 e))
        ((e : List ℕ) → form_of definition.now ≡ sequence 4 0 4294967295 e → ⊥) }
{
    match definition {
        Definition::Sequence {
            length_width: 4,
            length_range,
            ..
        } => length_range.start == 0 && length_range.end == 4294967295,
        _ => false,
    }
}

/// What the elements of a list are.
#[derive(Clone, Copy)]
pub enum Collection {
    /// Elements in any order.
    List,
    /// Those of a set.
    Set,
    /// The entries of a map, with keys and values of the names at these places.
    Map(usize, usize),
}

/// What the elements of a sequence are.
pub fn collection_of(
    definitions: &Definitions<'_, '_>,
    at: usize,
    definition: &Definition,
) -> Collection
    ensures { (x : List ℕ) → HasForm definitions.now at (form_of definition.now) x →
        IsCollection (forms_of definitions.now) (plan_names definitions.now.plan.now) x result }
{
    let Definition::Sequence { elements, .. } = definition else {
        return Collection::List;
    };
    if !is_list(definition) {
        return Collection::List;
    }
    if is_set_name(definitions.name(at), elements.as_str()) {
        return Collection::Set;
    }
    let pair = definitions.part(at, 0);
    if is_entry(definitions.name(at), definitions.get(pair)) {
        Collection::Map(definitions.part(pair, 0), definitions.part(pair, 1))
    } else {
        Collection::List
    }
}

/// Whether a name is that of a map, of whose entries this is the definition.
fn is_entry(name: &str, definition: Option<&Definition>) -> bool
    ensures { let form = option_map (λ d. form_of d.now) definition.entry in MatchBool result
        ((k v : List ℕ) × (form ≡ Some (tuple (k ∷ v ∷ []))) × IsMapName name.now k v)
        ((k v : List ℕ) → form ≡ Some (tuple (k ∷ v ∷ [])) → IsMapName name.now k v → ⊥) }
{
    let Some(definition) = definition else {
        return false;
    };
    match definition {
        Definition::Tuple { elements } => is_map_name(name, elements.as_slice()),
        _ => false,
    }
}

fn is_set_name(name: &str, element: &str) -> bool
    ensures { Decides result (IsSetName name.now element.now) }
{
    if is_composed(name, &["BTreeSet<", element, ">"]) {
        return true;
    }
    is_composed(name, &["HashSet<", element, ">"])
}

/// Whether a name is that of a map, of which these are the key and the value.
fn is_map_name(name: &str, parts: &[Declaration]) -> bool
    ensures { MatchBool result
        ((k v : List ℕ) × (map (λ p. string_bytes p) parts.now ≡ k ∷ v ∷ []) × IsMapName name.now k v)
        ((k v : List ℕ) → map (λ p. string_bytes p) parts.now ≡ k ∷ v ∷ [] → IsMapName name.now k v → ⊥) }
{
    if parts.len() != 2 {
        return false;
    }
    let (key, value) = (parts[0].as_str(), parts[1].as_str());
    if is_composed(name, &["BTreeMap<", key, ", ", value, ">"]) {
        return true;
    }
    is_composed(name, &["HashMap<", key, ", ", value, ">"])
}
