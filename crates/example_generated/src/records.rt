// Structs.

/// No fields: the encoding is empty.
// derive: borsh, schema
#[derive(Drop)]
pub struct Marker;

/// One field: the bytes are its bytes.
// derive: borsh, schema
#[derive(Drop)]
pub struct Code(pub u8);

/// A field that isn't encoded: it isn't in the schema either, and has its default after decoding.
// derive: borsh, schema
#[derive(Drop)]
pub struct Session {
    pub user: u32,
    pub hits: u64, // skip
    pub token: [u8; 4],
}

/// Arrays, in one another too, and fields of types that are marked as well.
// derive: borsh, schema
#[derive(Drop)]
pub struct Block {
    pub hash: [u8; 32],
    pub rows: [[u16; 3]; 2],
    /// Who signed the block.
    pub signers: Vec<Code>,
    pub origin: Option<(Code, Marker)>,
}

/// More fields than a tuple has places: they are encoded in two groups.
// derive: borsh, schema
#[derive(Drop)]
pub struct Panel(
    pub u8,
    pub u16,
    pub u32,
    pub u64,
    pub i8,
    pub i16,
    pub i32,
    pub i64,
    pub bool,
    pub u8,
    pub String,
    pub u16,
    pub Option<u8>,
    pub Vec<u8>,
    pub i64,
    pub i32,
    pub i16,
    pub i8,
    pub u64,
    pub u32,
    pub u16,
    pub u8,
    pub bool,
);
