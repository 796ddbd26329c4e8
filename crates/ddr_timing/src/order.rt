//! The text of `map`: the words of the address digits, the least significant digit first.
//!
//! Below stands `geometry` with the digits themselves; `table` reads the text of `map` by it.
ghost use Rattle.std.specs.Prelude.{◌≡◌, ◌≤◌, ◌==◌, List, IfSome, IsTrue, Some, if◌then◌else◌};
ghost use Rattle.ddr_timing.specs.declared.geometry.Digit.{Digit};
ghost use Rattle.ddr_timing.specs.Order.{digit_of, each_once, order_of, same_digit, stands_once, text_of, whole_text};

use crate::geometry::Digit;

/// The order that a text of a version lists, if it has the word of each of the version's digits once, with
/// one space between two. Version 1 has no word for the rank, which is its last digit.
pub fn order(text: &str, version: u32) -> Option<[Digit; 6]>
    ensures value { result ≡ order_of (whole_text version text.now) }

    // What is listed are those orders, and no others.
    ensures listed { IfSome result (λ order. whole_text version text.now ≡ text_of order) }
    ensures only { (order : List Digit) → IsTrue (each_once order) → whole_text version text.now ≡ text_of order → result ≡ Some order }
{
    let words = words(version);
    let mut order = [Digit::Rank; 6];
    let mut count = 0;
    for word in text.split(' ') {
        if count == words {
            return None;
        }
        order[count] = digit(word)?;
        count += 1;
    }
    if count == words && each_once(&order) {
        Some(order)
    } else {
        None
    }
}

/// How many words an order's text has.
fn words(version: u32) -> usize
    ensures exact { result ≡ (if version == 2 then 6 else 5) }
    ensures bound { result ≤ 6 }
{
    if version == 2 { 6 } else { 5 }
}

/// The digit that has the word.
#[tactic(auto, unfolding(crate::specs::Order::digit_of))]
fn digit(word: &str) -> Option<Digit>
    ensures { result ≡ digit_of word.now }
{
    match word {
        "channel" => Some(Digit::Channel),
        "group" => Some(Digit::Group),
        "bank" => Some(Digit::Bank),
        "column" => Some(Digit::Column),
        "row" => Some(Digit::Row),
        "rank" => Some(Digit::Rank),
        _ => None,
    }
}

/// Whether each digit stands once in the order.
fn each_once(order: &[Digit]) -> bool
    ensures { result ≡ each_once order.now }
{
    stands_once(order, Digit::Channel)
        && stands_once(order, Digit::Group)
        && stands_once(order, Digit::Bank)
        && stands_once(order, Digit::Column)
        && stands_once(order, Digit::Row)
        && stands_once(order, Digit::Rank)
}

fn stands_once(order: &[Digit], digit: Digit) -> bool
    ensures { result ≡ stands_once order.now digit }
{
    order.iter().filter(|other| **other == digit).count() == 1
}
