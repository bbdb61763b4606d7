// Schemas: which bytes a type has, as a map from names to definitions.
pub use borsh_schema::{
    BorshSchema, BorshSchemaContainer, CaseWith, DefinitionMap, Definitions, FieldTypes,
    SchemaBuildError, SchemaResult, VariantTypes, add_definition, add_enum, add_enum_with,
    add_named, add_named_with, add_unit, add_unnamed, add_unnamed_with, add_with_parts, declared,
    declared_with, field, variant,
};
pub use borsh_walks::{
    Counted, Declaration, Definition, DiscriminantValue, Expansions, FieldName, Fields,
    LengthRange, Question, SchemaContainerValidateError, SchemaMaxSerializedSizeError, VariantName,
    check_rules, root_size,
};
