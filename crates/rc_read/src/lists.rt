//! The items of a line, in two lists, before `when` and after it: what is named twice, and what says queued entries.

ghost use Rattle.std.specs.Prelude.{◌≡◌, position};
ghost use Rattle.std.specs.List.{list_any};
ghost use Rattle.rc_read.specs.Sentences as sentences;
ghost use Rattle.rc_read.specs.Values as spec;

use crate::values::Item;

fn is_when(item: Item) -> bool
    ensures { result ≡ spec.is_when item }
{
    match item {
        Item::When(_) => true,
        Item::Shares(_, _) | Item::Token(_) | Item::Credits(_) | Item::Queued(_) => false,
    }
}

fn place_of_when(items: &[Item]) -> Option<usize>
    ensures { result ≡ position spec.is_when items.now }
{
    items.iter().position(|item| is_when(*item))
}

/// The items before `when` and those after it. Without a `when` all are before it.
pub fn parted(items: &[Item]) -> (&[Item], &[Item])
    ensures before { result.0.now ≡ spec.before_when items.now }
    ensures behind { result.1.now ≡ spec.behind_when items.now }
{
    match place_of_when(items) {
        None => (items, &[]),
        Some(i) => (&items[..i], &items[i + 1..]),
    }
}

/// The variable after `when`.
pub fn flag_in(items: &[Item]) -> Option<usize>
    ensures { result ≡ spec.flag_in items.now }
{
    for item in items {
        if let Item::When(variable) = *item {
            return Some(variable);
        }
    }
    None
}

fn says_queue(item: Item) -> bool
    ensures { result ≡ sentences.says_queue item }
{
    match item {
        Item::Queued(_) => true,
        Item::Shares(_, _) | Item::Token(_) | Item::Credits(_) | Item::When(_) => false,
    }
}

/// Whether an item says how many entries may be queued.
pub fn any_queue(items: &[Item]) -> bool
    ensures { result ≡ sentences.any_queue items.now }
{
    items.iter().any(|item| says_queue(*item))
}

fn names_same(i: Item, j: Item) -> bool
    ensures { result ≡ sentences.names_same i j }
{
    match (i, j) {
        (Item::Shares(b, _), Item::Shares(c, _)) => b == c,
        (Item::Token(u), Item::Token(v)) => u == v,
        (Item::Credits(_), Item::Credits(_)) | (Item::Queued(_), Item::Queued(_)) => true,
        _ => false,
    }
}

fn any_same(item: Item, items: &[Item]) -> bool
    ensures { result ≡ list_any (sentences.names_same item) items.now }
{
    items.iter().any(|other| names_same(item, *other))
}

// Whether an item is named twice in a list.
fn any_twice(items: &[Item]) -> bool
    ensures { result ≡ sentences.any_twice items.now }
{
    for (i, item) in items.iter().enumerate() {
        if any_same(*item, &items[i + 1..]) {
            return true;
        }
    }
    false
}

fn is_token(item: Item) -> bool
    ensures { result ≡ sentences.is_token item }
{
    match item {
        Item::Token(_) => true,
        Item::Shares(_, _) | Item::Credits(_) | Item::Queued(_) | Item::When(_) => false,
    }
}

// Whether a token of the one list is in the other.
fn any_in_both(more: &[Item], items: &[Item]) -> bool
    ensures { result ≡ sentences.any_in_both more.now items.now }
{
    more.iter()
        .any(|item| is_token(*item) && any_same(*item, items))
}

/// Whether an item is named twice in a list, or a token in both.
pub fn any_named_twice(items: &[Item]) -> bool
    ensures { result ≡ sentences.any_named_twice items.now }
{
    let (before, behind) = parted(items);
    any_twice(before) || any_twice(behind) || any_in_both(behind, before)
}
