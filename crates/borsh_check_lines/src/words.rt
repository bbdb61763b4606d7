// The words that name a type.
ghost use Rattle.std.specs.Prelude.{◌≡◌, map, List, ℕ, Some, None, IfOk};
ghost use Rattle.borsh_io.specs.Lines.{IsLine};
ghost use Rattle.borsh_check_lines.specs.Words.{Meaning, meaning, meaning_of, row, word_named, all_words};

use borsh::schema::{BorshSchema, BorshSchemaContainer};
use borsh::{BorshDeserialize, BorshSerialize};
use borsh_samples::{A, MyEnum, MyStruct, One, OneOrZero};
use bytes::Bytes;
use indexmap::{IndexMap, IndexSet};
use std::alloc::{AllocError, Global};
use std::boxed::BoxedSlice;
use std::collections::{BTreeMap, BTreeSet, HashMap, HashSet, LinkedList, VecDeque};
use std::net::{IpAddr, SocketAddr, SocketAddrV6};
use std::num::NonZeroI16;
use std::ops::{Range, RangeFrom, RangeFull, RangeInclusive, RangeTo, RangeToInclusive};
use std::rc::RcStr;
use uuid::Uuid;

/// A question that is asked about the type of a word. Its answer is a line.
pub(crate) trait Question {
    /// What answers the question about a type of this meaning.
    ghost answers: { Self → Meaning → List ℕ → Type 0 };

    /// The answer for a type that has a schema.
    fn answer<T: BorshSerialize + BorshDeserialize + BorshSchema>(
        &self,
        alloc: Global,
    ) -> Result<Vec<u8>, AllocError>
        ensures answers { IfOk result (λ out.
            answers self.now (meaning_of T.codec (Some (T.name, T.parts))) out.items) }
        ensures line { IfOk result (λ out. IsLine out.items) };

    /// The answer for a type that has none.
    fn answer_without_schema<T: BorshSerialize + BorshDeserialize>(
        &self,
        alloc: Global,
    ) -> Result<Vec<u8>, AllocError>
        ensures answers { IfOk result (λ out. answers self.now (meaning_of T.codec None) out.items) }
        ensures line { IfOk result (λ out. IsLine out.items) };
}

/// A type that lines can speak of.
#[derive(Clone, Copy, Debug, PartialEq, Eq)]
pub enum Word {
    U8,
    U32,
    U64,
    Bool,
    OptionU8,
    String,
    ListU8,
    U128,
    Isize,
    NonZeroI16,
    Unit,
    ResultU8,
    ArrayOption,
    Ranges,
    ListString,
    ListOption,
    ListUnit,
    ListBoxUnit,
    ListZero,
    DequeU8,
    LinkedU8,
    SetU8,
    HashSetU8,
    MapU8,
    HashMapU8,
    MapSet,
    MapUnit,
    Ip,
    BoxU8,
    RcString,
    Container,
    Readme,
    MyEnum,
    IndexMapU8,
    IndexSetU8,
    Bytes,
    Uuid,
    Socket,
    SocketV6,
    MyStruct,
    OneOrZero,
    ListOne,
}

/// Every word.
const WORDS: [Word; 42] = [
    Word::U8,
    Word::U32,
    Word::U64,
    Word::Bool,
    Word::OptionU8,
    Word::String,
    Word::ListU8,
    Word::U128,
    Word::Isize,
    Word::NonZeroI16,
    Word::Unit,
    Word::ResultU8,
    Word::ArrayOption,
    Word::Ranges,
    Word::ListString,
    Word::ListOption,
    Word::ListUnit,
    Word::ListBoxUnit,
    Word::ListZero,
    Word::DequeU8,
    Word::LinkedU8,
    Word::SetU8,
    Word::HashSetU8,
    Word::MapU8,
    Word::HashMapU8,
    Word::MapSet,
    Word::MapUnit,
    Word::Ip,
    Word::BoxU8,
    Word::RcString,
    Word::Container,
    Word::Readme,
    Word::MyEnum,
    Word::IndexMapU8,
    Word::IndexSetU8,
    Word::Bytes,
    Word::Uuid,
    Word::Socket,
    Word::SocketV6,
    Word::MyStruct,
    Word::OneOrZero,
    Word::ListOne,
];

impl Word {
    /// How the type is written.
    pub fn as_str(self) -> &'static str
        ensures { result.now ≡ (row self).text }
    {
        match self {
            Word::U8 => "u8",
            Word::U32 => "u32",
            Word::U64 => "u64",
            Word::Bool => "bool",
            Word::OptionU8 => "opt-u8",
            Word::String => "string",
            Word::ListU8 => "list-u8",
            Word::U128 => "u128",
            Word::Isize => "isize",
            Word::NonZeroI16 => "nz-i16",
            Word::Unit => "unit",
            Word::ResultU8 => "res-u8",
            Word::ArrayOption => "arr-opt",
            Word::Ranges => "ranges",
            Word::ListString => "list-string",
            Word::ListOption => "list-opt",
            Word::ListUnit => "list-unit",
            Word::ListBoxUnit => "list-boxunit",
            Word::ListZero => "list-zero",
            Word::DequeU8 => "deque-u8",
            Word::LinkedU8 => "linked-u8",
            Word::SetU8 => "set-u8",
            Word::HashSetU8 => "hset-u8",
            Word::MapU8 => "map-u8",
            Word::HashMapU8 => "hmap-u8",
            Word::MapSet => "map-set",
            Word::MapUnit => "map-unit",
            Word::Ip => "ip",
            Word::BoxU8 => "box-u8",
            Word::RcString => "rc-string",
            Word::Container => "container",
            Word::Readme => "readme",
            Word::MyEnum => "myenum",
            Word::IndexMapU8 => "imap-u8",
            Word::IndexSetU8 => "iset-u8",
            Word::Bytes => "bytes",
            Word::Uuid => "uuid",
            Word::Socket => "sock",
            Word::SocketV6 => "sock6",
            Word::MyStruct => "mystruct",
            Word::OneOrZero => "oneorzero",
            Word::ListOne => "list-one",
        }
    }

    /// The word that is written so.
    pub fn named(name: &[u8]) -> Option<Word>
        ensures { result ≡ word_named name.now }
    {
        WORDS
            .iter()
            .copied()
            .find(|word| word.as_str().as_bytes() == name)
    }

    /// The answer to a question about the type that the word names.
    pub(crate) fn ask<Q: Question>(self, question: &Q, alloc: Global) -> Result<Vec<u8>, AllocError>
        ensures answers { IfOk result (λ out. Q.answers question.now (meaning self) out.items) }
        ensures line { IfOk result (λ out. IsLine out.items) }
    {
        match self {
            Word::U8 => question.answer::<u8>(alloc),
            Word::U32 => question.answer::<u32>(alloc),
            Word::U64 => question.answer::<u64>(alloc),
            Word::Bool => question.answer::<bool>(alloc),
            Word::OptionU8 => question.answer::<Option<u8>>(alloc),
            Word::String => question.answer::<String>(alloc),
            Word::ListU8 => question.answer::<Vec<u8>>(alloc),
            Word::U128 => question.answer::<u128>(alloc),
            Word::Isize => question.answer::<isize>(alloc),
            Word::NonZeroI16 => question.answer::<NonZeroI16>(alloc),
            Word::Unit => question.answer::<()>(alloc),
            Word::ResultU8 => question.answer::<Result<u8, u8>>(alloc),
            Word::ArrayOption => question.answer::<[Option<u8>; 10]>(alloc),
            Word::Ranges => question.answer::<
                (
                    Range<i32>,
                    RangeInclusive<i32>,
                    RangeFrom<i32>,
                    RangeTo<i32>,
                    RangeToInclusive<i32>,
                    RangeFull,
                ),
            >(alloc),
            Word::ListString => question.answer::<Vec<String>>(alloc),
            Word::ListOption => question.answer::<Vec<Option<u8>>>(alloc),
            Word::ListUnit => question.answer::<Vec<()>>(alloc),
            Word::ListBoxUnit => question.answer::<Vec<Box<()>>>(alloc),
            Word::ListZero => question.answer::<Vec<([u8; 0], [u8; 0])>>(alloc),
            Word::DequeU8 => question.answer::<VecDeque<u8>>(alloc),
            Word::LinkedU8 => question.answer::<LinkedList<u8>>(alloc),
            Word::SetU8 => question.answer::<BTreeSet<u8>>(alloc),
            Word::HashSetU8 => question.answer::<HashSet<u8>>(alloc),
            Word::MapU8 => question.answer::<BTreeMap<u8, u8>>(alloc),
            Word::HashMapU8 => question.answer::<HashMap<u8, u8>>(alloc),
            Word::MapSet => question.answer::<BTreeMap<u8, BTreeSet<u8>>>(alloc),
            Word::MapUnit => question.answer::<BTreeMap<(), u8>>(alloc),
            Word::Ip => question.answer::<IpAddr>(alloc),
            Word::BoxU8 => question.answer::<BoxedSlice<u8>>(alloc),
            Word::RcString => question.answer::<RcStr>(alloc),
            Word::Container => question.answer::<BorshSchemaContainer>(alloc),
            Word::Readme => question.answer::<A>(alloc),
            Word::MyEnum => question.answer::<MyEnum>(alloc),
            Word::IndexMapU8 => question.answer_without_schema::<IndexMap<u8, u8>>(alloc),
            Word::IndexSetU8 => question.answer_without_schema::<IndexSet<u8>>(alloc),
            Word::Bytes => question.answer_without_schema::<Bytes>(alloc),
            Word::Uuid => question.answer_without_schema::<Uuid>(alloc),
            Word::Socket => question.answer_without_schema::<SocketAddr>(alloc),
            Word::SocketV6 => question.answer_without_schema::<SocketAddrV6>(alloc),
            Word::MyStruct => question.answer_without_schema::<MyStruct>(alloc),
            Word::OneOrZero => question.answer_without_schema::<OneOrZero>(alloc),
            Word::ListOne => question.answer_without_schema::<Vec<One>>(alloc),
        }
    }
}
