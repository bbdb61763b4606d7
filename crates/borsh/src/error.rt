// The texts of two errors.
pub use borsh_de::refusals::ERROR_WRONG_ORDER_OF_KEYS;
pub use borsh_io::error::ERROR_ZST_FORBIDDEN;
