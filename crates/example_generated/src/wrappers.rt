// Structs around a marked type that holds memory.
use super::keys::Place;
use std::rc::Rc;

/// A list as the only field.
// derive: borsh
#[derive(Drop)]
pub struct Route(pub Vec<Place>);

/// A box as the only field.
// derive: borsh
#[derive(Drop)]
pub struct Home(pub Box<Place>);

/// A shared value as the only field.
// derive: borsh
#[derive(Drop)]
pub struct Known(pub Rc<Place>);

/// References: a value is encoded, and none is decoded.
// derive: borsh
#[derive(Drop)]
pub struct Note<'a> {
    pub text: &'a str,
    pub place: &'a Place,
}
