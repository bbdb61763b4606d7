// Containers: a type's name and the definitions that it leads to. Left open of each call: none.
ghost use Rattle.std.specs.Prelude.{◌≡◌, Decides, Some, None, OnOk, IfOk, IfErr, OnErr, option_map, string_bytes};
ghost use Rattle.std.specs.Borrow.{sem};
ghost use Rattle.std.specs.Option.{option_copied_mut};
ghost use Rattle.std.specs.String.{string_cmp};
ghost use Rattle.std.specs.BTreeMap.{IsOrdered, IsUnchanged};
ghost use Rattle.borsh_schema.specs.Containers.{declaration_of, map_of, definition_of, left_of, IsContainerOf, DescribesRoot, ReplacesDefinition};
ghost use Rattle.borsh_definitions.specs.Described.{nothing_defined};
ghost use Rattle.borsh_schema.specs.Joined.{AreConsistent, BuildFault};
ghost use Rattle.borsh_schema.specs.Lending.{LendsDefinition};

use super::definitions::{DefinitionMap, SchemaResult};
use super::schema::BorshSchema;
use borsh_walks::{Declaration, Definition};
use std::alloc::{AllocError, Global};
use std::collections::btree_map;

/// A schema as a value: a type's name, the root, and a map from names to definitions.
#[derive(Clone, Debug, PartialEq, Eq, Drop)]
pub struct BorshSchemaContainer {
    pub(crate) declaration: Declaration,
    pub(crate) definitions: DefinitionMap,
}

impl BorshSchemaContainer {
    /// The container with this root and these definitions. Nothing is checked: see [`validate`](BorshSchemaContainer::validate).
    ///
    /// ```
    /// let container = BorshSchemaContainer::new(String::from_str(alloc, "u8")?, definitions);
    /// ```
    pub fn new(declaration: Declaration, definitions: DefinitionMap) -> BorshSchemaContainer
        ensures declaration { declaration_of result ≡ declaration }
        ensures definitions { map_of result ≡ definitions }
    {
        BorshSchemaContainer {
            declaration,
            definitions,
        }
    }

    /// The container of a type. Each encoding is a member of its root.
    ///
    /// Returns `Redefinition` of a name of the type that has two different definitions, and
    /// `OutOfMemory` if an allocation fails. Left open: memory; which of several such names is reported.
    ///
    /// ```
    /// let container = BorshSchemaContainer::for_type::<Option<u8>>(alloc)?;
    /// assert_eq!(rt; container.declaration().as_str(), "Option<u8>");
    /// ```
    pub fn for_type<T: BorshSchema>(alloc: Global) -> SchemaResult<BorshSchemaContainer>
        ensures ok { IfOk result (λ c. IsContainerOf T.name T.parts c) }
        ensures err { IfErr result (λ e. BuildFault nothing_defined T.parts e) }
        ensures language { IfOk result (λ c. DescribesRoot T.codec c) }
        ensures ascending { IfOk result (λ c. IsOrdered string_cmp (map_of c)) }
    {
        let mut definitions = DefinitionMap::new(alloc);
        T::add_definitions_recursively(alloc, &mut definitions)?;
        let container = BorshSchemaContainer::new(T::declaration(alloc)?, definitions);
        // For the prover: `definitions` ensures that the names ascend.
        container.definitions();
        Ok(container)
    }

    /// Whether this is the container of a type. The errors are those of
    /// [`for_type`](BorshSchemaContainer::for_type). Left open: as there.
    ///
    /// ```
    /// assert!(rt; container.is_of_type::<Option<u8>>(alloc)?);
    /// ```
    pub fn is_of_type<T: BorshSchema>(&self, alloc: Global) -> SchemaResult<bool>
        ensures ok { IfOk result (λ yes. Decides yes (IsContainerOf T.name T.parts self.now)) }
        ensures consistent { OnOk result (AreConsistent T.parts) }
        ensures err { IfErr result (λ e. BuildFault nothing_defined T.parts e) }
    {
        let own = BorshSchemaContainer::for_type::<T>(alloc)?;
        Ok(self.definitions.len() == own.definitions.len() && *self == own)
    }

    /// The name of the root.
    ///
    /// ```
    /// println!(rt; "{}", container.declaration())?;
    /// ```
    pub fn declaration(&self) -> &Declaration
        ensures { result.now ≡ declaration_of self.now }
    {
        &self.declaration
    }

    /// The names with their definitions, by ascending name.
    ///
    /// ```
    /// for (name, definition) in container.definitions() {
    ///     println!(rt; "{name}")?;
    /// }
    /// ```
    pub fn definitions(&self) -> Definitions<'_>
        ensures entries { left_of result ≡ (map_of self.now).entries }
        ensures ascending { IsOrdered string_cmp (map_of self.now) }
    {
        Definitions {
            entries: self.definitions.iter(),
        }
    }

    /// The definitions by their names, as the calls of `borsh_values` and `borsh_json` take them.
    ///
    /// ```
    /// let answer = is_member(alloc, container.declaration(), container.as_map(), bytes)?;
    /// ```
    pub fn as_map(&self) -> &DefinitionMap
        ensures { result.now ≡ map_of self.now }
    {
        &self.definitions
    }

    /// The definition of a name, if it has one.
    ///
    /// ```
    /// let definition = container.get_definition("u8");
    /// ```
    pub fn get_definition(&self, declaration: &str) -> Option<&Definition>
        ensures { option_map (λ d. d.now) result ≡ definition_of self.now declaration.now }
    {
        self.definitions.get(declaration)
    }

    /// The definition of a name, if it has one, to be changed in place.
    ///
    /// ```
    /// if let Some(definition) = container.get_mut_definition("u8") {
    ///     *definition = Definition::Primitive(2);
    /// }
    /// ```
    pub fn get_mut_definition(&mut self, declaration: &str) -> Option<&mut Definition>
        ensures* writes_back { sem 𝓛 (LendsDefinition self.entry declaration.now result) }
        ensures value { option_copied_mut result ≡ definition_of self.old declaration.now }
    {
        self.definitions.get_mut(declaration)
    }

    /// Gives a name a definition, and returns the one that it had, if any. If an allocation fails, the
    /// container is unchanged, and what was given is dropped. Left open: memory.
    ///
    /// ```
    /// let name = String::from_str(alloc, "u8")?;
    /// let earlier = container.insert_definition(name, Definition::Primitive(1))?;
    /// ```
    pub fn insert_definition(
        &mut self,
        declaration: Declaration,
        definition: Definition,
    ) -> Result<Option<Definition>, AllocError>
        ensures declaration { declaration_of self.new ≡ declaration_of self.old }
        ensures replaced { IfOk result (λ d. d ≡ definition_of self.old (string_bytes declaration)) }
        ensures ok { OnOk result
            (ReplacesDefinition self.old self.new (string_bytes declaration) (Some definition)) }
        ensures err { OnErr result (IsUnchanged (map_of self.old) (map_of self.new)) }
    {
        Ok(self.definitions.insert(declaration, definition)?)
    }

    /// Removes the definition of a name, and returns it, if there was one.
    ///
    /// ```
    /// let removed = container.remove_definition("u8");
    /// ```
    pub fn remove_definition(&mut self, declaration: &str) -> Option<Definition>
        ensures declaration { declaration_of self.new ≡ declaration_of self.old }
        ensures removed { result ≡ definition_of self.old declaration.now }
        ensures others { ReplacesDefinition self.old self.new declaration.now None }
    {
        self.definitions.remove(declaration)
    }
}

/// The names of a container with their definitions, by ascending name.
#[derive(Drop)]
pub struct Definitions<'a> {
    entries: btree_map::Iter<'a, Declaration, Definition>,
}

impl<'a> Iterator for Definitions<'a> {
    type Item = (&'a Declaration, &'a Definition);

    ghost use Rattle.std.specs.Prelude.{length};
    ghost use Rattle.std.specs.Iterator.{at_most};
    ghost use Rattle.std.specs.Map.Iter.{TakesFirst, deref_pair};

    ghost next_gives = { λ s r t. TakesFirst deref_pair (left_of s) r (left_of t) };

    ghost remaining = { λ s. at_most (length (left_of s)) };

    fn next(&mut self) -> Option<(&'a Declaration, &'a Definition)> {
        self.entries.next()
    }
}
