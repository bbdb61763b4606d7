// What can be asked of a container: whether it keeps the rules, and how long its encodings may be.
ghost use Rattle.borsh_schema.specs.Questions.{Validates, ValidatesCounting, Sizes, SizesCounting};

use super::container::BorshSchemaContainer;
use borsh_walks::{
    Counted, Expansions, SchemaContainerValidateError, SchemaMaxSerializedSizeError, check_rules,
    root_size,
};
use std::alloc::Global;

impl BorshSchemaContainer {
    /// Checks that each name that the root refers to, directly or through other definitions, has a definition that keeps the
    /// rules, which [`check_rules`] lists. An error says which name breaks which rule; `OutOfMemory` is returned if an allocation
    /// fails. Left open: memory; which of several broken rules is reported; how many definitions are visited.
    ///
    /// ```
    /// container.validate(alloc)?;
    /// ```
    pub fn validate(&self, alloc: Global) -> Result<(), SchemaContainerValidateError>
        ensures { Validates self.now result }
    {
        let mut counts = Expansions::NONE;
        self.validate_counted(alloc, &mut counts)
    }

    /// [`BorshSchemaContainer::validate`], which adds the number of definitions that it visits to
    /// `counts`. Left open: as of [`check_rules`].
    ///
    /// ```
    /// container.validate_counted(alloc, &mut counts)?;
    /// ```
    pub fn validate_counted(
        &self,
        alloc: Global,
        counts: &mut Expansions,
    ) -> Result<(), SchemaContainerValidateError>
        ensures { ValidatesCounting self.now counts.old counts.new result }
    {
        let mut counted = Counted::new(&self.definitions, counts);
        check_rules(alloc, self.declaration.as_str(), &mut counted)
    }

    /// The greatest size of the root in bytes, as the definitions give it. No encoding is longer. If
    /// `validate` accepts the container and its enums have variants, some member of the root has that size.
    ///
    /// Returns `Overflow` if it doesn't fit in a `usize`, `Recursive` if a definition that it needs
    /// contains itself, `MissingDefinition` if one is missing, and `OutOfMemory` if an allocation fails.
    /// Left open: memory; which of several causes is reported; how many definitions are visited.
    ///
    /// ```
    /// let most = container.max_serialized_size(alloc)?;
    /// ```
    pub fn max_serialized_size(&self, alloc: Global) -> Result<usize, SchemaMaxSerializedSizeError>
        ensures { Sizes self.now result }
    {
        let mut counts = Expansions::NONE;
        self.max_serialized_size_counted(alloc, &mut counts)
    }

    /// [`BorshSchemaContainer::max_serialized_size`], which adds the number of definitions that it
    /// visits to `counts`. Left open: as of [`root_size`].
    ///
    /// ```
    /// let most = container.max_serialized_size_counted(alloc, &mut counts)?;
    /// ```
    pub fn max_serialized_size_counted(
        &self,
        alloc: Global,
        counts: &mut Expansions,
    ) -> Result<usize, SchemaMaxSerializedSizeError>
        ensures { SizesCounting self.now counts.old counts.new result }
    {
        let mut counted = Counted::new(&self.definitions, counts);
        root_size(alloc, self.declaration.as_str(), &mut counted)
    }
}
