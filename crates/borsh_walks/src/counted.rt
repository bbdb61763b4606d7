// How many definitions a walk visits. Left open of each call: none.
ghost use Rattle.borsh_walks.specs.Counts.{CountsLook, add_to, counts_of, definition_at, IsCounting, LooksOn};
ghost use Rattle.std.specs.Prelude.{◌≡◌, option_map};

use crate::definition::Definition;
use std::collections::BTreeMap;

/// How many definitions were visited, for each kind of question. A count at its greatest value stays there.
#[derive(Clone, Copy, Debug, PartialEq, Eq)]
pub struct Expansions {
    pub size: u64,
    pub zero: u64,
    pub rules: u64,
}

impl Expansions {
    /// Nothing was visited yet.
    pub const NONE: Expansions = Expansions {
        size: 0,
        zero: 0,
        rules: 0,
    };
}

/// What a definition is visited for.
#[derive(Clone, Copy, Debug, PartialEq, Eq)]
pub enum Question {
    /// How long its encodings may be.
    Size,
    /// Whether its encodings are all empty.
    Zero,
    /// Whether it keeps the rules.
    Rules,
}

/// A map of definitions that counts how many of them are visited, by [`Counted::look`] or by the places of all names.
#[derive(Drop)]
pub struct Counted<'a, 'b> {
    pub(crate) map: &'a BTreeMap<String, Definition>,
    counts: &'b mut Expansions,
}

impl<'a, 'b> Counted<'a, 'b> {
    /// The definitions of `map`, counted in `counts`.
    ///
    /// ```
    /// let mut counts = Expansions::NONE;
    /// let mut counted = Counted::new(&definitions, &mut counts);
    /// ```
    pub fn new(map: &'a BTreeMap<String, Definition>, counts: &'b mut Expansions) -> Counted<'a, 'b>
        ensures { IsCounting result map.entry counts.entry }
    {
        Counted { map, counts }
    }

    /// The definition of the name. If there is one, the count of the question is raised by one.
    ///
    /// ```
    /// let definition = counted.look(Question::Size, "u8");
    /// ```
    pub fn look(&mut self, question: Question, name: &str) -> Option<&'a Definition>
        ensures same { LooksOn self.old self.new }
        ensures found { option_map (λ d. d.now) result ≡ definition_at self.old name.now }
        ensures counts { CountsLook question self.old self.new result }
    {
        let found = self.map.get(name);
        if found.is_some() {
            self.visit(question);
        }
        found
    }

    // The count of the question is raised by one.
    pub(crate) fn visit(&mut self, question: Question)
        ensures same { LooksOn self.old self.new }
        ensures counts { counts_of self.new ≡ add_to question 1 (counts_of self.old) }
    {
        match question {
            Question::Size => self.counts.size = self.counts.size.saturating_add(1),
            Question::Zero => self.counts.zero = self.counts.zero.saturating_add(1),
            Question::Rules => self.counts.rules = self.counts.rules.saturating_add(1),
        }
    }
}
