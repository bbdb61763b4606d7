// What no clause says: that an array is made where the maker goes on, that a value is dropped once, and the text of the error.
ghost use Rattle.std.specs.Prelude.{⊤};

use super::*;
use std::cell::Cell;
use std::test::Fail;

// Makes the numbers from `next` on and below `end`.
#[derive(Drop)]
struct Numbers {
    next: u64,
    end: u64,
}

impl Maker<u64> for Numbers {
    ghost makes = { λ _ _ _. ⊤ };

    ghost gives_up = { λ _ _. ⊤ };

    fn make(&mut self) -> Option<u64> {
        if self.next >= self.end {
            return None;
        }
        let number = self.next;
        self.next = number + 1;
        Some(number)
    }
}

fn makes_what_is_asked(numbers: &mut Numbers) -> bool {
    array_from(numbers) == Ok([4u64, 5, 6])
        && array_from::<u64, Numbers, 0>(numbers) == Ok([])
        && array_from(numbers) == Ok([7u64])
}

fn gives_up_at_the_end(numbers: &mut Numbers) -> bool {
    array_from::<u64, Numbers, 3>(numbers) == Err(GaveUp)
        && numbers.next == 9
        && array_from::<u64, Numbers, 1>(numbers) == Err(GaveUp)
}

#[test]
fn makes_arrays_until_it_gives_up(rt: HostRuntime) -> Result<(), Fail> {
    let mut numbers = Numbers { next: 4, end: 9 };
    assert!(rt; makes_what_is_asked(&mut numbers));
    assert!(rt; gives_up_at_the_end(&mut numbers));
    Ok(())
}

// Counts its drops.
struct Token<'a> {
    number: u32,
    drops: &'a Cell<u32>,
}

impl Drop for Token<'_> {
    fn drop(self) {
        let Token { number, drops } = self;
        drops.set(drops.get().wrapping_mul(10).wrapping_add(number));
    }
}

// Makes as many tokens as are left, with the numbers 1, 2 and so on.
#[derive(Drop)]
struct Tokens<'a> {
    made: u32,
    left: u32,
    drops: &'a Cell<u32>,
}

impl<'a> Maker<Token<'a>> for Tokens<'a> {
    ghost makes = { λ _ _ _. ⊤ };

    ghost gives_up = { λ _ _. ⊤ };

    fn make(&mut self) -> Option<Token<'a>> {
        if self.left == 0 {
            return None;
        }
        self.left -= 1;
        self.made = self.made.wrapping_add(1);
        Some(Token {
            number: self.made,
            drops: self.drops,
        })
    }
}

// What an array of four tokens has dropped while it is held, and then: the digits are the numbers of the tokens, in the
// order in which they were dropped.
fn dropped_tokens(left: u32) -> (u32, u32) {
    let drops = Cell::new(0u32);
    let mut tokens = Tokens {
        made: 0,
        left,
        drops: &drops,
    };
    let made = array_from::<Token, Tokens, 4>(&mut tokens);
    let while_held = drops.get();
    drop(made);
    (while_held, drops.get())
}

#[test]
fn drops_each_value_once(rt: HostRuntime) -> Result<(), Fail> {
    for &(left, dropped) in &[(0, (0, 0)), (1, (1, 1)), (3, (123, 123)), (4, (0, 1234))] {
        assert!(rt; dropped_tokens(left) == dropped, "of {left} tokens");
    }
    Ok(())
}

#[test]
fn prints_the_error(rt: HostRuntime) -> Result<(), Fail> {
    assert!(rt; GaveUp.to_string(rt.alloc())?.as_str() == "the maker gave up");
    Ok(())
}
